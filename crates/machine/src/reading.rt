// What is read of a run: its size, its accepted events, and all that is shown of a process.
ghost use Rattle.std.specs.Prelude.{◌≡◌, ◌<◌};
ghost use Rattle.rounds.specs.Config.{Config};
ghost use Rattle.words.specs.Spelled.{word, count_of};
ghost use Rattle.words.specs.Exact.{SizeRead, EventsRead, SiteRead};
ghost use Rattle.words.specs.Shows.{Shows, standing};

use crate::cells::*;
use crate::process::Process;
use crate::spelled::*;
use rounds::Stage;
use words::Standing;

// The number of processes.
pub fn size(run: &[u32; RUN]) -> u32
    ensures exact { SizeRead run.now result }
    ensures meaning { (c : Config) → Shows run.now c → result ≡ c.control.size }
{
    people(run)
}

// The accepted events.
#[tactic(auto, using(words::proofs::Meaning::events_meant), unfolding(words::specs::Spelled::control_of))]
pub fn events(run: &[u32; RUN]) -> u32
    ensures exact { EventsRead run.now result }
    ensures meaning { (c : Config) → Shows run.now c → result ≡ c.control.events }
{
    head(run, EVENTS)
}

// A count of p, with the events since it was last settled.
#[tactic(auto, using(crate::proofs::Numbers::apart), unfolding(words::specs::Spelled::count_of, words::specs::Spelled::word, rounds::specs::Stages::one))]
fn count(run: &[u32; RUN], p: Process, s: Stage) -> u32
    ensures { result ≡ word (count_of run.now p s) }
{
    let settled = line(run, p, COUNTS + index(s));
    if stage(run, p) == s {
        let waited = head(run, EVENTS).saturating_sub(line(run, p, SINCE));
        settled.wrapping_add(waited)
    } else {
        settled
    }
}

// What is shown of process p; of one that is not there, nothing: zeros and no Option, as the definition (`standing_of`) says of every number.
#[tactic(auto, using(std::proofs::lemmas::Bool::Decides::nat_tests, words::proofs::Meaning::site_meant), unfolding(words::specs::Calls::standing_of, words::specs::Calls::nobody))]
pub fn site(run: &[u32; RUN], p: u8) -> Standing
    ensures exact { SiteRead run.now p result }
    ensures meaning { (c : Config) → Shows run.now c → p < c.control.size → result ≡ standing c p }
{
    let i = u32::from(p);
    if people(run) <= i {
        return Standing {
            round: 0,
            value: 0,
            vote: None,
            decision: None,
            reach: 0,
            sending: 0,
            collecting: 0,
            pending: 0,
            idle: 0,
        };
    }
    let p = Process::new(i);
    let h = holding(run, p);
    Standing {
        round: line(run, p, ROUND),
        value: h.value,
        vote: h.vote,
        decision: h.decision,
        reach: line(run, p, REACH),
        sending: count(run, p, Stage::Sending),
        collecting: count(run, p, Stage::Collecting),
        pending: count(run, p, Stage::Pending),
        idle: count(run, p, Stage::Idle),
    }
}
