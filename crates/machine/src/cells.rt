// The words of the lent memory: where each stands, and how one is read and written. No other file knows a place by its number.
#![tactic(auto, unfolding(words::specs::Layout::get, words::specs::Layout::put))]

ghost use Rattle.std.specs.Prelude.{◌≡◌, ◌<◌};
ghost use Rattle.words.specs.Layout as Layout;
ghost use Rattle.words.specs.Layout.{at, get, put, Head, Line, Transit, Mail};

use crate::limits::*;
use crate::process::Process;

// How long the parts are, and where they begin.
const HEADS: usize = 16;

const LINE: usize = 16;

const LETTER: usize = 4;

const LINES: usize = MOST_PROCESSES as usize;

const SLOTS: usize = WINDOW as usize;

const TRANSIT: usize = HEADS + LINES * LINE;

const MAIL: usize = TRANSIT + LINES * SLOTS;

// The words of a run: an array and no struct, since each may be anything and a caller lends it, so that a type would have no fact to keep.
pub const RUN: usize = MAIL + LINES * SLOTS * LINES * LETTER;

// The words of the head.
pub(crate) const SIZE: usize = 0;

pub(crate) const EVENTS: usize = 1;

// The words of a process's line: what it holds, its site, and its counts up to the event that it was last settled at.
pub(crate) const VALUE: usize = 0;

pub(crate) const VOTED: usize = 1;

pub(crate) const VOTE: usize = 2;

pub(crate) const DECIDED: usize = 3;

pub(crate) const DECISION: usize = 4;

pub(crate) const ROUND: usize = 5;

pub(crate) const SENT: usize = 6;

pub(crate) const HEARD: usize = 7;

pub(crate) const REACH: usize = 8;

pub(crate) const SINCE: usize = 9;

pub(crate) const COUNTS: usize = 10;

// The words of a letter: VALUE, VOTED and VOTE as in a line, and the reach that it carries.
pub(crate) const CARRIED: usize = 3;

// Where a word stands is said once for each kind of place; a word is read and written by a function of its own for each, so that a caller names a place by
// what it takes. A word's number within its part is one of the constants above, or a count's, wherever it is given, so that the check finds what is asked
// of it. They are numbers and no enum: the first words of a letter are those of a line, and a stage is counted on from COUNTS.

// A word of the head.
pub(crate) fn head(run: &[u32; RUN], k: usize) -> u32
    requires { k < Layout.heads }
    ensures { result ≡ get run.now (Head k) }
{
    run[k]
}

pub(crate) fn set_head(run: &mut [u32; RUN], k: usize, x: u32)
    requires { k < Layout.heads }
    ensures { run.new ≡ put run.old (Head k) x }
{
    run[k] = x;
}

// A word of the line of process p.
fn line_at(p: Process, k: usize) -> usize
    requires { k < Layout.line }
    ensures { (result ≡ at (Line p k)) × (result < Layout.RUN) }
{
    HEADS + p.number() as usize * LINE + k
}

pub(crate) fn line(run: &[u32; RUN], p: Process, k: usize) -> u32
    requires { k < Layout.line }
    ensures { result ≡ get run.now (Line p k) }
{
    run[line_at(p, k)]
}

pub(crate) fn set_line(run: &mut [u32; RUN], p: Process, k: usize, x: u32)
    requires { k < Layout.line }
    ensures { run.new ≡ put run.old (Line p k) x }
{
    run[line_at(p, k)] = x;
}

// The senders whose message to p for round r is in transit.
fn transit_at(p: Process, r: u32) -> usize
    ensures { (result ≡ at (Transit p r)) × (result < Layout.RUN) }
{
    TRANSIT + (p.number() as usize * SLOTS + r as usize % SLOTS)
}

pub(crate) fn transit(run: &[u32; RUN], p: Process, r: u32) -> u32
    ensures { result ≡ get run.now (Transit p r) }
{
    run[transit_at(p, r)]
}

pub(crate) fn set_transit(run: &mut [u32; RUN], p: Process, r: u32, x: u32)
    ensures { run.new ≡ put run.old (Transit p r) x }
{
    run[transit_at(p, r)] = x;
}

// A word of the message from q to p for round r.
fn letter_at(p: Process, r: u32, q: Process, k: usize) -> usize
    requires { k < Layout.letter }
    ensures { (result ≡ at (Mail p r q k)) × (result < Layout.RUN) }
{
    let slot = p.number() as usize * SLOTS + r as usize % SLOTS;
    MAIL + (slot * LINES + q.number() as usize) * LETTER + k
}

pub(crate) fn letter(run: &[u32; RUN], p: Process, r: u32, q: Process, k: usize) -> u32
    requires { k < Layout.letter }
    ensures { result ≡ get run.now (Mail p r q k) }
{
    run[letter_at(p, r, q, k)]
}

pub(crate) fn set_letter(run: &mut [u32; RUN], p: Process, r: u32, q: Process, k: usize, x: u32)
    requires { k < Layout.letter }
    ensures { run.new ≡ put run.old (Mail p r q k) x }
{
    run[letter_at(p, r, q, k)] = x;
}
