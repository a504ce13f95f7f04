// The program that the desk runs: reads a trace from standard input and writes its sheet to standard output. All that it writes are the pieces that
// sheet_text gives it; here they are only fetched, from a buffer of the trace, and passed on.
#![tactic(auto)]

ghost use Rattle.std.specs.Prelude.{◌+◌, ◌≤◌, ◌<◌, ◌≡◌, length, drop, IfSome, OnSome};
ghost use Rattle.records.specs.Records.{longest};
ghost use Rattle.lines.specs.declared.Wants.TheVariants as Wants;
ghost use Rattle.lines.specs.Claims.{ahead};

use lines::{Piece, Stand, Wants};
use machine::RUN;
use std::io::{ErrorKind, Read};

// The trace is read, and the sheet written, through 64 KiB in all.
const INPUT: usize = 49152;

const OUTPUT: usize = 16384;

// A sheet that is being written: where the writing stands, the memory of the run, and the buffer that the text goes through.
#[derive(Drop)]
struct Writing {
    stand: Stand,
    run: [u32; RUN],
    out: [u8; OUTPUT],
}

impl Writing {
    // One piece, written out; none where that fails. A reader that has enough ends the program without a word.
    fn print(&mut self, rt: &(impl Print + Eprint), bytes: &[u8], last: bool) -> Option<Piece>
        ensures within { IfSome result (λ p. p.used ≤ length bytes.now) }
        ensures short { IfSome result (λ p. p.wants ≡ Wants.Input → length bytes.now < p.used + longest) }
        ensures nearer { IfSome result (λ p. p.wants ≡ Wants.Room → ahead self.new.stand self.new.run (drop p.used bytes.now) < ahead self.old.stand self.old.run bytes.now) }
    {
        let p = sheet_text::write(&mut self.run, self.stand, bytes, last, &mut self.out);
        self.stand = p.stand;
        match rt.write_all(&self.out[..p.written]) {
            Ok(()) => Some(p),
            Err(e) => {
                if e.kind() != ErrorKind::BrokenPipe {
                    let _ = eprintln!(rt; "sheet: the sheet cannot be written");
                }
                None
            }
        }
    }

    // All pieces of the bytes at hand, and how many of these are used where more of the trace is wanted; none where the sheet is over.
    fn print_all(&mut self, rt: &(impl Print + Eprint), bytes: &[u8], last: bool) -> Option<usize>
        ensures within { IfSome result (λ used. used ≤ length bytes.now) }
        ensures short { IfSome result (λ used. length bytes.now < used + longest) }
    {
        let mut used: usize = 0;
        // It ends by what a piece wants: there is nothing to go over in a `for`.
        loop {
            let p = self.print(rt, &bytes[used..], last)?;
            used += p.used;
            match p.wants {
                Wants::Room => {}
                Wants::Input => return Some(used),
                Wants::Nothing => return None,
            }
        }
    }
}

// The bytes of the trace that are held: those that are read, and not used yet.
#[derive(Drop)]
struct Held {
    bytes: [u8; INPUT],
    len: usize,
}

impl Held {
    // Reads once, behind what is held: whether anything came. Where that fails the trace ends there.
    fn read_more(&mut self, rt: &impl Eprint, trace: &mut impl Read) -> bool
        requires { self.old.len < INPUT }
        ensures { self.new.len ≤ INPUT }
    {
        match trace.read(&mut self.bytes[self.len..]) {
            Ok(n) => {
                self.len += n;
                n != 0
            }
            Err(_) => {
                let _ = eprintln!(rt;
                    "sheet: the trace cannot be read further, and is taken to end there"
                );
                false
            }
        }
    }
}

// Reads once, writes all pieces, and keeps the bytes that are not used; none where the sheet is over. Where nothing comes, the trace has ended.
fn feed(
    rt: &(impl Print + Eprint),
    trace: &mut impl Read,
    sheet: &mut Writing,
    held: &mut Held,
) -> Option<()>
    requires { held.old.len < longest }
    ensures { OnSome result (held.new.len < longest) }
{
    let more = held.read_more(rt, trace);
    let used = sheet.print_all(rt, &held.bytes[..held.len], !more)?;
    held.len = sheet_text::keep(&mut held.bytes, used, held.len);
    Some(())
}

// A proved loop has to end, and nothing says that the input does. So the loop counts its turns, up to a number that no run comes to.
fn feed_all(rt: &(impl Print + Eprint), trace: &mut impl Read) {
    let mut run = [0; RUN];
    let stand = sheet_text::begin(&mut run);
    let mut sheet = Writing {
        stand,
        run,
        out: [0; OUTPUT],
    };
    let mut held = Held {
        bytes: [0; INPUT],
        len: 0,
    };
    for _ in 0..u64::MAX {
        if feed(rt, trace, &mut sheet, &mut held).is_none() {
            return;
        }
    }
}

fn main(rt: HostRuntime) {
    feed_all(&rt, &mut rt.stdin());
}
