// The examples of document 01 that are not starred, 10 to 12, run on the machine in lent memory. What each finds is a definition, and that it finds
// it is proved from the machine's promises alone; the program then runs them, and what it writes is held to the file `stdout`.
#![tactic(auto)]

ghost use Rattle.std.specs.Prelude.{ℕ, ◌≡◌, length};
ghost use Rattle.rounds.specs.Verdicts.{Accepted};
ghost use Rattle.rounds.specs.Config.{Config, opening};
ghost use Rattle.rounds.specs.Verdicts.{number_of, open_verdict, number};
ghost use Rattle.rounds.specs.Events.{apply};
ghost use Rattle.rounds.specs.Runs.{value_at};
ghost use Rattle.rounds.specs.Examples.{seven_and_four};
ghost use Rattle.words.specs.Shows.{Shows, Given};
ghost use Rattle.examples.specs.Expected as Expected;

use machine::RUN;
use rounds::Event;
use std::{fmt, io};
use words::Standing;

// What is found is kept as numbers, here and below: document 01 states its examples in numbers, and these are what is written.

// The numbers of example 10: the openings, and what is put to the last of them.
#[derive(Clone, Copy)]
struct Ten {
    none: u32,
    seventeen: u32,
    uneven: u32,
    sixteen: u32,
    inside: u32,
    send: u32,
    receive: u32,
    step: u32,
    broadcast: u32,
    events: u32,
}

// What example 11 finds: the numbers of its events, and the receiver before the late send, after it, and after one more event.
#[derive(Clone, Copy)]
struct Eleven {
    first: u32,
    step: u32,
    second: u32,
    own: u32,
    before: Standing,
    late: u32,
    after: Standing,
    receive: u32,
    more: u32,
    later: Standing,
}

// What example 12 finds.
#[derive(Clone, Copy)]
struct Twelve {
    send: u32,
    broadcast: u32,
    events: u32,
    receive: u32,
    again: u32,
}

// Opens a run, and gives the number of the answer.
fn begin(run: &mut [u32; RUN], n: u32, values: &[u32]) -> u32
    ensures { (result ≡ number_of (open_verdict n (length values.now))) × (open_verdict n (length values.now) ≡ Accepted → (v : ℕ → ℕ) → Given n values.now v → Shows run.new (opening n v)) }
{
    rounds::number(machine::begin(run, n, values))
}

// Puts the event to the machine, and gives the number of its answer.
fn put(run: &mut [u32; RUN], e: Event) -> u32
    ensures { (c : Config) → Shows run.old c → (result ≡ number c.control e) × Shows run.new (apply c e) }
{
    let answer = machine::apply(run, e);
    rounds::number(words::verdict(answer))
}

// Two processes, with the values 7 and 4.
#[tactic(auto, unfolding(rounds::specs::Verdicts::refuse, rounds::specs::Verdicts::open_verdict, rounds::specs::Runs::value_at))]
fn begin_two(run: &mut [u32; RUN])
    ensures { Shows run.new (opening 2 (value_at seven_and_four)) }
{
    begin(run, 2, &[7, 4]);
}

// N = 0 and N = 17: 1. N = 16: accepted. Process number 16 there: 2.
fn example_10(run: &mut [u32; RUN]) -> Ten
    ensures { result ≡ Expected.ten }
{
    let enough = [9u32; 16];
    let many = [9u32; 17];
    let none = begin(run, 0, &enough);
    let seventeen = begin(run, 17, &many);
    let uneven = begin(run, 16, &many);
    let sixteen = begin(run, 16, &enough);
    let inside = put(run, Event::Send(15, 15));
    let send = put(run, Event::Send(15, 16));
    let receive = put(run, Event::Receive(16, 15));
    let step = put(run, Event::Step(16));
    let broadcast = put(run, Event::Broadcast(16));
    let events = machine::events(run);
    Ten {
        none,
        seventeen,
        uneven,
        sixteen,
        inside,
        send,
        receive,
        step,
        broadcast,
        events,
    }
}

// Sender at round 1, receiver at 2: accepted, the message is not put in transit, and the receiver's stages do not change through it.
fn example_11(run: &mut [u32; RUN]) -> Eleven
    ensures { result ≡ Expected.eleven }
{
    begin_two(run);
    let first = put(run, Event::Broadcast(1));
    let step = put(run, Event::Step(1));
    let second = put(run, Event::Broadcast(1));
    let own = put(run, Event::Receive(1, 1));
    let before = machine::site(run, 1);
    let late = put(run, Event::Send(0, 1));
    let after = machine::site(run, 1);
    let receive = put(run, Event::Receive(1, 0));
    let more = put(run, Event::Send(0, 0));
    let later = machine::site(run, 1);
    Eleven {
        first,
        step,
        second,
        own,
        before,
        late,
        after,
        receive,
        more,
        later,
    }
}

// Broadcast after a single send to process 1: 3; the send to 0 is not done.
fn example_12(run: &mut [u32; RUN]) -> Twelve
    ensures { result ≡ Expected.twelve }
{
    begin_two(run);
    let send = put(run, Event::Send(0, 1));
    let broadcast = put(run, Event::Broadcast(0));
    let events = machine::events(run);
    let receive = put(run, Event::Receive(0, 0));
    let again = put(run, Event::Send(0, 0));
    Twelve {
        send,
        broadcast,
        events,
        receive,
        again,
    }
}

impl fmt::Display for Ten {
    fn fmt<W: fmt::Write>(&self, f: &mut fmt::Formatter<W>) -> fmt::Result {
        writeln!(f, "10. N = 0: {}", self.none)?;
        writeln!(f, "10. N = 17: {}", self.seventeen)?;
        writeln!(f, "10. N = 16 with 17 values: {}", self.uneven)?;
        writeln!(f, "10. N = 16: {}", self.sixteen)?;
        writeln!(f, "10. send from 15 to 15: {}", self.inside)?;
        writeln!(f, "10. send from 15 to 16: {}", self.send)?;
        writeln!(f, "10. receive by 16 from 15: {}", self.receive)?;
        writeln!(f, "10. step of 16: {}", self.step)?;
        writeln!(f, "10. broadcast of 16: {}", self.broadcast)?;
        writeln!(f, "10. accepted events: {}", self.events)
    }
}

impl fmt::Display for Eleven {
    fn fmt<W: fmt::Write>(&self, f: &mut fmt::Formatter<W>) -> fmt::Result {
        writeln!(f, "11. broadcast of 1 at round 1: {}", self.first)?;
        writeln!(f, "11. step of 1: {}", self.step)?;
        writeln!(f, "11. broadcast of 1 at round 2: {}", self.second)?;
        writeln!(f, "11. receive by 1 from 1: {}", self.own)?;
        writeln!(f, "11. round, S, C, P, I of 1: {}", Stages(self.before))?;
        writeln!(
            f,
            "11. send from 0 at round 1 to 1 at round 2: {}",
            self.late
        )?;
        writeln!(f, "11. round, S, C, P, I of 1: {}", Stages(self.after))?;
        writeln!(f, "11. receive by 1 from 0: {}", self.receive)?;
        writeln!(f, "11. send from 0 to 0: {}", self.more)?;
        writeln!(f, "11. round, S, C, P, I of 1: {}", Stages(self.later))
    }
}

impl fmt::Display for Twelve {
    fn fmt<W: fmt::Write>(&self, f: &mut fmt::Formatter<W>) -> fmt::Result {
        writeln!(f, "12. send from 0 to 1: {}", self.send)?;
        writeln!(f, "12. broadcast of 0: {}", self.broadcast)?;
        writeln!(f, "12. accepted events: {}", self.events)?;
        writeln!(f, "12. receive by 0 from 0: {}", self.receive)?;
        writeln!(f, "12. send from 0 to 0: {}", self.again)
    }
}

// The round and the counts S, C, P, I of a process.
#[derive(Clone, Copy)]
struct Stages(Standing);

impl fmt::Display for Stages {
    fn fmt<W: fmt::Write>(&self, f: &mut fmt::Formatter<W>) -> fmt::Result {
        let s = self.0;
        write!(
            f,
            "{} {} {} {} {}",
            s.round, s.sending, s.collecting, s.pending, s.idle
        )
    }
}

fn main(rt: HostRuntime) -> io::Result<()> {
    let mut run = [0; RUN];
    let early = put(&mut run, Event::Step(0));
    println!(rt; "Before any opening, step of 0: {early}")?;
    print!(rt; "{}", example_10(&mut run))?;
    print!(rt; "{}", example_11(&mut run))?;
    print!(rt; "{}", example_12(&mut run))
}
