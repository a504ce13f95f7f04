// The sheet of a trace as text, in pieces: each reads whole records from bytes of the trace at hand and writes lines into a lent buffer, as long as there is
// room for one more. However the trace is cut into windows and whatever the room, the pieces add up to the sheet.
#![tactic(auto)]

mod text;

ghost use Rattle.std.specs.Prelude.{◌+◌, ◌-◌, ◌≤◌, [], length};
ghost use Rattle.lines.specs.Pieces as Pieces;
ghost use Rattle.lines.specs.Pieces.{line_room, Came};
ghost use Rattle.sheet_text.specs.Exact.{SheetBegun, BytesKept};
ghost use Rattle.sheet_text.specs.Written.{Wrote};

use crate::text::Pen;
use lines::{Piece, Stand, Wants};
use machine::RUN;
use records::Place;
use trace::Heard;

// The room that is asked for before a line: that of the longest there can be.
const LINE: usize = 66;

// A sheet begins: the memory is cleared, whatever it held.
#[tactic(auto, unfolding(lines::specs::Claims::first))]
pub fn begin(run: &mut [u32; RUN]) -> Stand
    ensures { SheetBegun result run.new }
{
    machine::clear(run);
    Stand::Reads(Place::First)
}

// What a record tells, as text.
#[tactic(auto, using(crate::proofs::Lengths::h_length), unfolding(lines::specs::Pieces::told_text))]
fn put_told(pen: &mut Pen, told: Option<Heard>)
    requires { pen.old.at + line_room ≤ length pen.old.out.now }
    ensures { Wrote pen.old pen.new (Pieces.told_text told) }
{
    if let Some(t) = told {
        pen.h_line(t.process, t.round, t.heard);
    }
}

// While the trace is read: its whole records, and the line of each accepted step.
#[tactic(auto, using(crate::proofs::Pacing::reading))]
fn follow(run: &mut [u32; RUN], place: Place, bytes: &[u8], last: bool, out: &mut [u8]) -> Piece
    ensures { Came (Pieces.follow last (length out.old) 0 place run.old bytes.now)
        bytes.now out.old result run.new out.new }
{
    let mut pen = Pen { out, at: 0 };
    let mut used: usize = 0;
    let mut here = place;
    // It ends by what a record is, or by the room: there is nothing to go over in a `for`.
    let (stand, wants) = loop {
        if pen.room() < LINE {
            break (Stand::Reads(here), Wants::Room);
        }
        used += trace::hasten(run, &bytes[used..], here);
        match trace::one_record(run, &bytes[used..], here) {
            Ok(Some(gone)) => {
                put_told(&mut pen, gone.told);
                used += gone.used;
                here = gone.place;
            }
            Ok(None) => {
                if last {
                    break (
                        Stand::Closes(trace::number(trace::at_end(here)), 0),
                        Wants::Room,
                    );
                }
                break (Stand::Reads(here), Wants::Input);
            }
            Err(stop) => break (Stand::Closes(trace::number(Err(stop)), 0), Wants::Room),
        }
    };
    Piece {
        used,
        written: pen.at,
        stand,
        wants,
    }
}

// The line that follows k others when the trace has ended with a number: `w` lines, `v` lines, the `e` line. Which it is goes by k alone, as in the definition.
#[tactic(auto, using(crate::proofs::Lengths::closing_lengths, words::proofs::Reading::people_most), unfolding(lines::specs::Pieces::closing_line))]
fn put_closing(pen: &mut Pen, run: &[u32; RUN], number: u32, k: u8)
    requires { pen.old.at + line_room ≤ length pen.old.out.now }
    ensures { Wrote pen.old pen.new (Pieces.closing_line run.now number k) }
{
    let n = machine::size(run) as u8;
    if k < n {
        pen.w_line(k, machine::site(run, k));
    } else if k < n + n {
        pen.v_line(k - n, machine::site(run, k - n));
    } else {
        pen.e_line(machine::events(run), number);
    }
}

// When the trace has ended: the lines that are left of those that follow the `h` lines.
#[tactic(auto, using(words::proofs::Reading::people_most), unfolding(lines::specs::Pieces::closing_count))]
fn close(run: &[u32; RUN], number: u32, from: u8, out: &mut [u8]) -> Piece
    ensures { Came (Pieces.closing (length out.old) (Pieces.closing_count run.now - from) number from run.now)
        [] out.old result run.now out.new }
{
    let n = machine::size(run) as u8;
    let end = n + n + 1;
    let mut pen = Pen { out, at: 0 };
    for k in from..end {
        if pen.room() < LINE {
            return Piece {
                used: 0,
                written: pen.at,
                stand: Stand::Closes(number, k),
                wants: Wants::Room,
            };
        }
        put_closing(&mut pen, run, number, k);
    }
    Piece {
        used: 0,
        written: pen.at,
        stand: Stand::Closes(number, from.max(end)),
        wants: Wants::Nothing,
    }
}

// One piece: what is written of the sheet where it stands, from bytes of the trace at hand, which may be called the last, and with the room that out has.
#[tactic(auto, unfolding(lines::specs::Pieces::piece))]
pub fn write(run: &mut [u32; RUN], stand: Stand, bytes: &[u8], last: bool, out: &mut [u8]) -> Piece
    ensures { Came (Pieces.piece last (length out.old) stand run.old bytes.now)
        bytes.now out.old result run.new out.new }
{
    match stand {
        Stand::Reads(place) => follow(run, place, bytes, last, out),
        Stand::Closes(number, k) => close(run, number, k, out),
    }
}

// Keeps the bytes from one place up to another: they are moved to the front. Answers how many they are; where there are none, nothing is moved.
// It takes two places and no slice: docs/STATEMENTS.md names it so, and the bytes are moved within the buffer.
pub fn keep(bytes: &mut [u8], from: usize, to: usize) -> usize
    ensures { BytesKept bytes.old from to result bytes.new }
{
    let end = to.min(bytes.len());
    let start = from.min(end);
    bytes.copy_within(start..end, 0);
    end - start
}
