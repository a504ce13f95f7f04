// The replay of a trace: its records one after the other, read from the bytes and handed to the round machine in lent memory.
#![tactic(auto)]

ghost use Rattle.std.specs.Prelude.{◌+◌, ◌*◌, ◌≤◌, ◌<◌, ◌≡◌, length, take};
ghost use Rattle.rounds.specs.Config.{Config};
ghost use Rattle.rounds.specs.Verdicts.{open_verdict};
ghost use Rattle.words.specs.Spelled.{control_of};
ghost use Rattle.words.specs.Calls.{begins, applied, answer};
ghost use Rattle.words.specs.Shows as Shows;
ghost use Rattle.records.specs.Script as Script;
ghost use Rattle.trace.specs.Outcome as Outcome;
ghost use Rattle.trace.specs.Turns as Turns;
ghost use Rattle.trace.specs.Haste as Haste;
ghost use Rattle.trace.specs.Exact.{RecordDone, HasteDone, TraceDone};
ghost use Rattle.trace.specs.declared.Stop.TheVariants.{Refused, Faulty};

use machine::RUN;
use records::{Fault, Place, Record};
use rounds::{Event, Refusal, Verdict};
use words::Finished;

// What stops the replay of a trace before its end.
#[derive(Clone, Copy, Debug, PartialEq, Eq)]
pub enum Stop {
    // An opening or an event is refused.
    Refused(Refusal),
    // The bytes are no trace.
    Faulty(Fault),
}

impl From<Refusal> for Stop {
    ghost from_gives = { λ refusal s. s ≡ Refused refusal };

    fn from(refusal: Refusal) -> Stop {
        Stop::Refused(refusal)
    }
}

impl From<Fault> for Stop {
    ghost from_gives = { λ fault s. s ≡ Faulty fault };

    fn from(fault: Fault) -> Stop {
        Stop::Faulty(fault)
    }
}

// How the replay of a trace ends: the trace is read to its end, or something stops it.
pub type Ending = Result<(), Stop>;

// What an accepted step has to tell: the process, and what the machine reports of it (`Finished`), as one `h` line has them.
#[derive(Clone, Copy, Debug, PartialEq, Eq)]
pub struct Heard {
    pub process: u8,
    pub round: u32,
    pub heard: u32,
}

// What an accepted record has done: so many bytes are used, the trace has come to this place, and this is told.
#[derive(Clone, Copy, Debug, PartialEq, Eq)]
pub struct Gone {
    pub used: usize,
    pub place: Place,
    pub told: Option<Heard>,
}

// What comes of the bytes: nothing while they are cut short, what the accepted record at their head has done, or what stops the replay.
pub type Turn = Result<Option<Gone>, Stop>;

// The values of an opening record, at most: its N is one byte.
const MOST_VALUES: usize = 255;

// Tag and length of a send and of a receive, as one number, and the bytes of either. By a slice pattern of their bytes the sheet of N = 16 takes a tenth
// longer.
const SEND: u32 = 0x100002;

const RECEIVE: u32 = 0x110002;

const HASTY: usize = 5;

// The number that document 01 gives an ending: a function, as that of a verdict.
#[tactic(auto, unfolding(crate::specs::Outcome::ending_number, rounds::specs::Verdicts::number_of))]
pub fn number(e: Ending) -> u32
    ensures { result ≡ Outcome.ending_number e }
{
    match e {
        Ok(()) => rounds::number(Ok(())),
        Err(Stop::Refused(refusal)) => rounds::number(Err(refusal)),
        Err(Stop::Faulty(fault)) => records::number(fault),
    }
}

// What the end of the input means at a place.
#[tactic(auto, unfolding(crate::specs::Outcome::at_end))]
pub fn at_end(place: Place) -> Ending
    ensures { result ≡ Outcome.at_end place }
{
    match place {
        Place::First | Place::Later => Err(Stop::Faulty(Fault::EndsInside)),
        Place::Behind => Ok(()),
    }
}

// Four bytes, big-endian, from a place on: past the last byte there are zeros, as in the definition, so it takes a place, and not the bytes from there on.
#[tactic(auto, unfolding(records::specs::Script::word))]
fn word(bytes: &[u8], i: usize) -> u32
    requires { i < 1024 }
    ensures { result ≡ Script.word bytes.now i }
{
    let byte = |k: usize| bytes.get(k).copied().unwrap_or(0);
    u32::from_be_bytes([byte(i), byte(i + 1), byte(i + 2), byte(i + 3)])
}

// The first values become the first words of the bytes.
fn fill(values: &mut [u32], bytes: &[u8])
    requires { length values.old < 256 }
    ensures { values.new ≡ Script.words (length values.old) bytes.now }
{
    for (i, value) in values.iter_mut().enumerate() {
        *value = word(bytes, 4 * i);
    }
}

// A run of n processes begins, with the values that stand in the bytes.
fn begin(run: &mut [u32; RUN], n: u8, bytes: &[u8]) -> Verdict
    ensures { (result ≡ open_verdict n (length (Script.words n bytes.now)))
        × (run.new ≡ begins run.old n (Script.words n bytes.now)) }
{
    let mut values = [0u32; MOST_VALUES];
    let given = &mut values[..usize::from(n)];
    fill(given, bytes);
    machine::begin(run, u32::from(n), given)
}

// An opening at the head of the bytes.
#[tactic(auto, unfolding(crate::specs::Turns::on_opening, crate::specs::Turns::passes, records::specs::Records::extent_of, records::specs::Records::extent, records::specs::Script::values_of))]
fn opened(run: &mut [u32; RUN], n: u8, bytes: &[u8]) -> Turn
    requires { 4 + 4 * n ≤ length bytes.now }
    ensures { (result ≡ Turns.on_opening n (Script.values_of n bytes.now))
        × (run.new ≡ begins run.old n (Script.values_of n bytes.now)) }
{
    let used = records::extent(Ok(Some(Record::Opening(n))));
    begin(run, n, &bytes[4..used])?;
    Ok(Some(Gone {
        used,
        place: Place::Later,
        told: None,
    }))
}

// The process that acts.
#[tactic(auto, unfolding(words::specs::Shows::actor))]
fn actor(e: Event) -> u8
    ensures { result ≡ Shows.actor e }
{
    match e {
        Event::Send(p, _) | Event::Receive(p, _) | Event::Step(p) | Event::Broadcast(p) => p,
    }
}

// What an accepted event has to tell.
#[tactic(auto, unfolding(crate::specs::Turns::tells))]
fn tells(e: Event, reported: Option<Finished>) -> Option<Heard>
    ensures { result ≡ Turns.tells e (Ok reported) }
{
    reported.map(|f| Heard {
        process: actor(e),
        round: f.round,
        heard: f.heard,
    })
}

// An event at the head of the bytes.
#[tactic(auto, unfolding(crate::specs::Turns::on_answer, crate::specs::Turns::passes, words::specs::Shows::verdict_of, crate::specs::Turns::tells, records::specs::Records::extent_of))]
fn happened(run: &mut [u32; RUN], e: Event) -> Turn
    ensures { (result ≡ Turns.on_answer e (answer (control_of run.old) e)) × (run.new ≡ applied run.old e) }
{
    let reported = machine::apply(run, e)?;
    Ok(Some(Gone {
        used: records::extent(Ok(Some(Record::Happens(e)))),
        place: Place::Later,
        told: tells(e, reported),
    }))
}

// One record: what stands at the head of the bytes is read, and handed to the machine.
#[tactic(auto, unfolding(crate::specs::Turns::turn, crate::specs::Turns::turned, crate::specs::Turns::turn_on, crate::specs::Turns::words_on))]
pub fn one_record(run: &mut [u32; RUN], bytes: &[u8], place: Place) -> Turn
    ensures exact { RecordDone place run.old bytes.now result run.new }
    ensures meaning { (c : Config) → Shows.Shows run.old c → (result ≡ Turns.turn place c.control bytes.now)
        × Shows.Shows run.new (Turns.next place c bytes.now) }
{
    let Some(found) = records::read(bytes, place)? else {
        return Ok(None);
    };
    match found {
        Record::Opening(n) => opened(run, n, bytes),
        Record::Happens(e) => happened(run, e),
        Record::End => Ok(Some(Gone {
            used: records::extent(Ok(Some(Record::End))),
            place: Place::Behind,
            told: None,
        })),
    }
}

// The send or the receive that stands whole at the head of the bytes: whether there is one, and it is accepted.
#[tactic(auto, using(std::proofs::lemmas::Bool::Decides::nat_tests), unfolding(crate::specs::Haste::hasty, crate::specs::Haste::goes, crate::specs::Haste::left, crate::specs::Haste::head_is, rounds::specs::Verdicts::accepted))]
fn hasten_one(run: &mut [u32; RUN], bytes: &[u8]) -> bool
    ensures { (result ≡ Haste.goes (control_of run.old) (Haste.hasty bytes.now))
        × (run.new ≡ Haste.left run.old (Haste.hasty bytes.now)) }
{
    let [tag, high, low, p, q, ..] = *bytes else {
        return false;
    };
    match u32::from_be_bytes([0, tag, high, low]) {
        SEND => machine::send(run, p, q).is_ok(),
        RECEIVE => machine::receive(run, p, q).is_ok(),
        _ => false,
    }
}

// As many of them as are accepted one after the other.
fn hasten_all(run: &mut [u32; RUN], bytes: &[u8]) -> usize
    ensures { (result ≡ (Haste.haste_behind 0 run.old bytes.now).used)
        × (run.new ≡ (Haste.haste_behind 0 run.old bytes.now).words) }
{
    // No index is counted: the loop goes on as long as the record at the head of what is left is accepted.
    let mut rest = bytes;
    while hasten_one(run, rest) {
        rest = &rest[HASTY..];
    }
    bytes.len() - rest.len()
}

// Sends and receives are most of a trace, and tell nothing: those that stand at the head of the bytes and are accepted, all at once. Answers how many
// bytes they are; what is done of them is what `one_record` does of each.
#[tactic(auto, unfolding(crate::specs::Haste::haste, crate::specs::Haste::stays))]
pub fn hasten(run: &mut [u32; RUN], bytes: &[u8], place: Place) -> usize
    ensures { HasteDone place run.old bytes.now result run.new }
{
    match place {
        Place::Later => hasten_all(run, bytes),
        Place::First | Place::Behind => 0,
    }
}

// A whole trace, from its opening to its end or to the first refusal. What was accepted before a refusal stands; without an accepted opening no run is there.
pub fn replay(run: &mut [u32; RUN], trace: &[u8]) -> Ending
    ensures exact { TraceDone trace.now result run.new }
    ensures meaning { Shows.Shows run.new (Outcome.outcome trace.now).config }
{
    machine::clear(run);
    // No index is counted: what a record uses is known only when it is read.
    let mut rest = trace;
    let mut place = Place::First;
    loop {
        let hasty = hasten(run, rest, place);
        rest = &rest[hasty..];
        let Some(gone) = one_record(run, rest, place)? else {
            return at_end(place);
        };
        rest = &rest[gone.used..];
        place = gone.place;
    }
}
