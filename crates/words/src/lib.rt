// The types that the round machine in lent memory answers with, and the verdict of an answer. The machine that runs is the crate above.
#![tactic(auto)]

ghost use Rattle.std.specs.Prelude.{◌≡◌};
ghost use Rattle.words.specs.Shows.{verdict_of};

use rounds::{Refusal, Verdict};

// What an accepted step reports: the round that it finished, and who was heard in it.
#[derive(Clone, Copy, Debug, PartialEq, Eq)]
pub struct Finished {
    pub round: u32,
    pub heard: u32,
}

// What an event is answered with: a refusal; or, where it is accepted, what a step reports, and nothing of another event.
pub type Answer = Result<Option<Finished>, Refusal>;

// What the lead of a sender says of its message.
#[derive(Clone, Copy, Debug, PartialEq, Eq)]
pub enum Fate {
    // It is late, and not put in transit. A lead above the window, which no run has, discards it too.
    Discarded,
    Kept,
    // The lead is the whole window: the send is refused.
    Refused,
}

// All that a report or a sheet shows of a process.
#[derive(Clone, Copy, Debug, PartialEq, Eq)]
pub struct Standing {
    pub round: u32,
    pub value: u32,
    pub vote: Option<u32>,
    pub decision: Option<u32>,
    pub reach: u32,
    pub sending: u32,
    pub collecting: u32,
    pub pending: u32,
    pub idle: u32,
}

// The verdict of an answer.
#[tactic(auto, unfolding(crate::specs::Shows::verdict_of))]
pub fn verdict(a: Answer) -> Verdict
    ensures { result ≡ verdict_of a }
{
    a.map(|_| ())
}
