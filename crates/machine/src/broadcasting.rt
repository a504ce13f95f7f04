// A broadcast: its verdict, and its sends one after the other.
ghost use Rattle.std.specs.Prelude.{◌≡◌};
ghost use Rattle.rounds.specs.declared.Event.TheVariants.{Broadcast};
ghost use Rattle.rounds.specs.Config.{Config};
ghost use Rattle.rounds.specs.Verdicts.{verdict, send_verdict, first_refusal};
ghost use Rattle.words.specs.Calls.{judged};
ghost use Rattle.words.specs.Spelled.{people, control_of};
ghost use Rattle.words.specs.Calls as Calls;
ghost use Rattle.words.specs.Exact.{Tried};
ghost use Rattle.words.specs.Shows.{Shows, Meant};

use crate::cells::*;
use crate::limits::*;
use crate::process::Process;
use crate::sending::{carry_send, judge_target};
use crate::spelled::*;
use rounds::{Refusal, Verdict};

// The first refusal among the targets.
#[tactic(auto, unfolding(rounds::specs::Verdicts::first_refusal))]
fn judge_targets(run: &[u32; RUN], p: Process) -> Verdict
    ensures { result ≡ first_refusal (people run.now) (send_verdict (control_of run.now) p) }
{
    for q in 0..people(run) {
        judge_target(run, p, Process::new(q))?;
    }
    Ok(())
}

// The tests of a broadcast, in document 01's order: room for all its events at once, then its targets.
#[tactic(auto, using(std::proofs::lemmas::Bool::Decides::nat_tests), unfolding(rounds::specs::Verdicts::verdict, rounds::specs::Verdicts::outside, rounds::specs::Verdicts::crowded, rounds::specs::Verdicts::refuse, words::specs::Spelled::control_of))]
fn judge_broadcast(run: &[u32; RUN], p: u32) -> Verdict
    ensures { result ≡ verdict (control_of run.now) (Broadcast p) }
{
    let n = people(run);
    if n <= p {
        return Err(Refusal::NoProcess);
    }
    if MOST_EVENTS - n < head(run, EVENTS) {
        return Err(Refusal::TooManyEvents);
    }
    judge_targets(run, Process::new(p))
}

// An accepted broadcast.
#[tactic(auto, unfolding(words::specs::Calls::sent_below))]
fn carry_sends(run: &mut [u32; RUN], p: Process)
    ensures { run.new ≡ Calls.sent_below (people run.old) run.old p }
{
    for q in 0..people(run) {
        carry_send(run, p, Process::new(q));
    }
}

// Process p sends to all.
pub fn broadcast(run: &mut [u32; RUN], p: u8) -> Verdict
    ensures exact { Tried run.old (Broadcast p) result run.new }
    ensures meaning { (c : Config) → Shows run.old c → Meant (judged result) run.new c (Broadcast p) }
{
    let i = u32::from(p);
    judge_broadcast(run, i)?;
    carry_sends(run, Process::new(i));
    Ok(())
}
