// Document 01's first example as a lent list: N, the values and six events go to the list's replay, and what it finds is what the paper's sheet has.
// What is found is a definition, and that it is found is proved from the replay's promise alone; the program then writes the sheet's lines.
#![tactic(auto)]

ghost use Rattle.std.specs.Prelude.{◌≡◌};
ghost use Rattle.listing.specs.Expected as Expected;

use listed::{Event, Kind};
use machine::RUN;
use std::{fmt, io};
use words::Standing;

// What the example finds: the number, as the `e` line has it, the accepted events, and the two processes.
#[derive(Clone, Copy)]
struct One {
    number: u32,
    events: u32,
    first: Standing,
    second: Standing,
}

// A constructor for each kind, and not one that takes the kind: so each event of the example is written with the numbers that its kind needs.

// Process p sends to q.
fn send(p: u8, q: u8) -> Event
    ensures { result ≡ Expected.send p q }
{
    Event {
        kind: Kind::Send,
        first: p,
        second: q,
    }
}

// Process p receives from q.
fn receive(p: u8, q: u8) -> Event
    ensures { result ≡ Expected.receive p q }
{
    Event {
        kind: Kind::Receive,
        first: p,
        second: q,
    }
}

// Process p steps; the second number is ignored.
fn step(p: u8) -> Event
    ensures { result ≡ Expected.step p }
{
    Event {
        kind: Kind::Step,
        first: p,
        second: 255,
    }
}

// Two processes with the values 7 and 4, and the six events of document 01's trace.
fn example_1(run: &mut [u32; RUN]) -> One
    ensures { result ≡ Expected.one }
{
    let events = [
        send(0, 0),
        send(0, 1),
        receive(0, 0),
        send(1, 0),
        receive(0, 1),
        step(0),
    ];
    let number = rounds::number(listed::replay_list(run, 2, &[7, 4], &events));
    One {
        number,
        events: machine::events(run),
        first: machine::site(run, 0),
        second: machine::site(run, 1),
    }
}

// A vote or a decision, and a dash where there is none.
#[derive(Clone, Copy)]
struct Shown(Option<u32>);

impl fmt::Display for Shown {
    fn fmt<W: fmt::Write>(&self, f: &mut fmt::Formatter<W>) -> fmt::Result {
        match self.0 {
            Some(x) => write!(f, "{x}"),
            None => f.write_str("-"),
        }
    }
}

// The `w` line of process p: its round, the counts S, C, P, I and its reach.
fn waits<W: fmt::Write>(f: &mut fmt::Formatter<W>, p: u32, s: Standing) -> fmt::Result {
    writeln!(
        f,
        "w {p} {} {} {} {} {} {:04x}",
        s.round, s.sending, s.collecting, s.pending, s.idle, s.reach
    )
}

// The `v` line of process p: its value, vote and decision.
fn holds<W: fmt::Write>(f: &mut fmt::Formatter<W>, p: u32, s: Standing) -> fmt::Result {
    writeln!(
        f,
        "v {p} {} {} {}",
        s.value,
        Shown(s.vote),
        Shown(s.decision)
    )
}

// The lines of the sheet behind its `h` lines.
impl fmt::Display for One {
    fn fmt<W: fmt::Write>(&self, f: &mut fmt::Formatter<W>) -> fmt::Result {
        waits(f, 0, self.first)?;
        waits(f, 1, self.second)?;
        holds(f, 0, self.first)?;
        holds(f, 1, self.second)?;
        writeln!(f, "e {} {}", self.events, self.number)
    }
}

fn main(rt: HostRuntime) -> io::Result<()> {
    let mut run = [0; RUN];
    print!(rt; "{}", example_1(&mut run))
}
