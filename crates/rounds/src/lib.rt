// The types that the round machine, its definitions and everything above it share, and the number of a verdict. The machine that runs is a crate above.
#![tactic(auto)]

ghost use Rattle.std.specs.Prelude.{◌≡◌};
ghost use Rattle.rounds.specs.Verdicts.{number_of};

// What a process is at, judged just before each accepted event.
#[derive(Clone, Copy, Debug, PartialEq, Eq)]
pub enum Stage {
    // S: it has not yet sent to all.
    Sending,
    // C: it has sent to all, and a message for its current round is in transit to it.
    Collecting,
    // P: it has sent to all, no such message is in transit, and it has not heard from all.
    Pending,
    // I: it has sent to all and heard from all.
    Idle,
}

// What a recorder writes down. The first number is the process that acts.
#[derive(Clone, Copy, Debug, PartialEq, Eq)]
pub enum Event {
    Send(u8, u8),
    Receive(u8, u8),
    Step(u8),
    Broadcast(u8),
}

// Why an opening or an event is refused. Its number is that of document 01.
#[derive(Clone, Copy, Debug, PartialEq, Eq)]
pub enum Refusal {
    // 1: there are no processes, or more than the machine holds.
    BadSize,
    // 2: a process number is N or more.
    NoProcess,
    // 3: sent to that process already this round.
    AlreadySent,
    // 4: the sender's lead is the whole window.
    TooFarAhead,
    // 5: no such message in transit.
    NothingInTransit,
    // 6: step before sending to all.
    NotSentToAll,
    // 7: step at the last round.
    LastRound,
    // 8: accepted events would pass the limit.
    TooManyEvents,
    // 11: the opening values are not N in number.
    WrongCount,
}

// What an opening or an event is answered with.
pub type Verdict = Result<(), Refusal>;

// The number that document 01 gives a verdict. A function and no `From`: a verdict is a `Result`, and of that no crate but std says what it becomes.
#[tactic(auto, unfolding(crate::specs::Verdicts::number_of, crate::specs::Verdicts::refusal_number))]
pub fn number(v: Verdict) -> u32
    ensures { result ≡ number_of v }
{
    match v {
        Ok(()) => 0,
        Err(Refusal::BadSize) => 1,
        Err(Refusal::NoProcess) => 2,
        Err(Refusal::AlreadySent) => 3,
        Err(Refusal::TooFarAhead) => 4,
        Err(Refusal::NothingInTransit) => 5,
        Err(Refusal::NotSentToAll) => 6,
        Err(Refusal::LastRound) => 7,
        Err(Refusal::TooManyEvents) => 8,
        Err(Refusal::WrongCount) => 11,
    }
}
