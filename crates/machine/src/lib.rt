// The round machine in lent memory: one array of words, changed in place. A send and a receive take constant time; a step and a broadcast go over the
// processes. No call asks anything of its caller, nor of what the memory holds.
#![tactic(auto)]

mod broadcasting;
mod cells;
mod limits;
mod opening;
mod process;
mod reading;
mod receiving;
mod sending;
mod settling;
mod spelled;
mod stepping;

ghost use Rattle.rounds.specs.Config.{Config};
ghost use Rattle.words.specs.Exact.{Answered};
ghost use Rattle.words.specs.Shows.{Shows, Meant};

pub use broadcasting::broadcast;
pub use cells::RUN;
pub use limits::MOST_PROCESSES;
pub use opening::{begin, clear};
pub use reading::{events, site, size};
pub use receiving::receive;
use rounds::Event;
pub use sending::send;
pub use stepping::step;
use words::Answer;

// Any event.
#[tactic(auto, using(words::proofs::Meaning::answered_meant), unfolding(words::specs::Calls::answer, words::specs::Calls::judged, words::specs::Calls::stepping))]
pub fn apply(run: &mut [u32; RUN], e: Event) -> Answer
    ensures exact { Answered run.old e result run.new }
    ensures meaning { (c : Config) → Shows run.old c → Meant result run.new c e }
{
    match e {
        Event::Send(p, q) => send(run, p, q).map(|()| None),
        Event::Receive(p, q) => receive(run, p, q).map(|()| None),
        Event::Step(p) => step(run, p).map(Some),
        Event::Broadcast(p) => broadcast(run, p).map(|()| None),
    }
}
