// What the words spell: the number of processes, what a process holds, what a message says, the stage that a process is at.
ghost use Rattle.std.specs.Prelude.{◌≡◌, ◌<◌, ◌≤◌};
ghost use Rattle.rounds.specs.Limits.{most_processes};
ghost use Rattle.rounds.specs.Stages as Stages;
ghost use Rattle.words.specs.Spelled as Spelled;
ghost use Rattle.words.specs.Spelled.{flag_of, word_of, holding_of, message_of, control_of};

use crate::cells::*;
use crate::limits::*;
use crate::process::Process;
use rounds::Stage;
use voting::{Holding, Message};

// The number of processes; a memory that says more than the most has none.
#[tactic(auto, using(std::proofs::lemmas::Bool::Decides::nat_tests), unfolding(words::specs::Spelled::people))]
pub(crate) fn people(run: &[u32; RUN]) -> u32
    ensures { (result ≡ Spelled.people run.now) × (result ≤ most_processes) }
{
    let n = head(run, SIZE);
    if n <= MOST_PROCESSES { n } else { 0 }
}

// A choice stands in two words of the lent memory: whether it is present, and what it is.
#[tactic(auto, using(std::proofs::lemmas::Bool::Decides::nat_tests), unfolding(words::specs::Spelled::choice))]
fn choice(flag: u32, x: u32) -> Option<u32>
    ensures { result ≡ Spelled.choice flag x }
{
    if flag == 0 { None } else { Some(x) }
}

#[tactic(auto, unfolding(words::specs::Spelled::flag_of))]
pub(crate) fn flag_of(c: Option<u32>) -> u32
    ensures { result ≡ flag_of c }
{
    u32::from(c.is_some())
}

#[tactic(auto, unfolding(words::specs::Spelled::word_of))]
pub(crate) fn word_of(c: Option<u32>) -> u32
    ensures { result ≡ word_of c }
{
    c.unwrap_or(0)
}

// What process p holds.
#[tactic(auto, unfolding(words::specs::Spelled::holding_of))]
pub(crate) fn holding(run: &[u32; RUN], p: Process) -> Holding
    ensures { result ≡ holding_of run.now p }
{
    let value = line(run, p, VALUE);
    let vote = choice(line(run, p, VOTED), line(run, p, VOTE));
    let decision = choice(line(run, p, DECIDED), line(run, p, DECISION));
    Holding {
        value,
        vote,
        decision,
    }
}

// What the message from q to p for round r says.
#[tactic(auto, unfolding(words::specs::Spelled::message_of))]
pub(crate) fn message(run: &[u32; RUN], p: Process, r: u32, q: Process) -> Message
    ensures { result ≡ message_of run.now p r q }
{
    let value = letter(run, p, r, q, VALUE);
    let vote = choice(letter(run, p, r, q, VOTED), letter(run, p, r, q, VOTE));
    Message { value, vote }
}

// The place of a stage among the counts, in the order S, C, P, I: nowhere else does a stage become a number.
#[tactic(auto, using(crate::proofs::Numbers::numbered))]
pub(crate) fn index(s: Stage) -> usize
    ensures { (result ≡ Stages.index s) × (result < 4) }
{
    s as usize
}

// The stage that p is at.
#[tactic(auto, using(std::proofs::lemmas::Bool::Decides::nat_tests, crate::proofs::Rooms::full_room_lem), unfolding(words::specs::Spelled::control_of, words::specs::Spelled::site_of, rounds::specs::Stages::stage, rounds::specs::Stages::sent_to_all, rounds::specs::Stages::waited, rounds::specs::Stages::heard_from_all))]
pub(crate) fn stage(run: &[u32; RUN], p: Process) -> Stage
    ensures { result ≡ Stages.stage (control_of run.now) p }
{
    let all = sets::full(people(run));
    if line(run, p, SENT) != all {
        Stage::Sending
    } else if transit(run, p, line(run, p, ROUND)) != 0 {
        Stage::Collecting
    } else if line(run, p, HEARD) != all {
        Stage::Pending
    } else {
        Stage::Idle
    }
}
