// A step: its verdict, what was heard, and what an accepted step does.
ghost use Rattle.std.specs.Prelude.{◌≡◌};
ghost use Rattle.voting.specs.Tally as Tallies;
ghost use Rattle.rounds.specs.declared.Event.TheVariants.{Step};
ghost use Rattle.rounds.specs.Config.{Config};
ghost use Rattle.rounds.specs.Verdicts.{verdict};
ghost use Rattle.words.specs.Spelled.{people, control_of};
ghost use Rattle.words.specs.Calls as Calls;
ghost use Rattle.words.specs.Calls.{messages_below, reach_below, stepping};
ghost use Rattle.words.specs.Exact.{Stepped};
ghost use Rattle.words.specs.Shows.{Shows, Meant};

use crate::cells::*;
use crate::limits::*;
use crate::process::Process;
use crate::settling::*;
use crate::spelled::*;
use rounds::{Refusal, Verdict};
use voting::{Holding, Tally};
use words::Finished;

// What a process has heard in a round, and its reach with what it heard.
#[derive(Clone, Copy)]
struct Gathered {
    tally: Tally,
    reach: u32,
}

// What p has heard: every process is asked after.
#[tactic(auto, using(crate::proofs::Heard::tally_none, crate::proofs::Heard::reach_none))]
fn listen(run: &[u32; RUN], p: Process) -> Gathered
    ensures { (result.tally ≡ Tallies.tally (messages_below (people run.now) run.now p)) × (result.reach ≡ reach_below (people run.now) run.now p) }
{
    let r = line(run, p, ROUND);
    let mut g = Gathered {
        tally: voting::silence(),
        reach: line(run, p, REACH),
    };
    for q in 0..people(run) {
        if sets::has(line(run, p, HEARD), q) {
            let q = Process::new(q);
            g.tally = voting::hear(g.tally, message(run, p, r, q));
            g.reach = sets::union(g.reach, letter(run, p, r, q, CARRIED));
        }
    }
    g
}

// p holds this from now on.
#[tactic(auto, unfolding(words::specs::Calls::held))]
fn hold(run: &mut [u32; RUN], p: Process, h: Holding)
    ensures { run.new ≡ Calls.held run.old p h }
{
    set_line(run, p, VALUE, h.value);
    set_line(run, p, VOTED, flag_of(h.vote));
    set_line(run, p, VOTE, word_of(h.vote));
    set_line(run, p, DECIDED, flag_of(h.decision));
    set_line(run, p, DECISION, word_of(h.decision));
}

// p goes on from round r to the next.
#[tactic(auto, unfolding(words::specs::Calls::advanced, words::specs::Spelled::word))]
fn advance(run: &mut [u32; RUN], p: Process, r: u32, reach: u32)
    ensures { run.new ≡ Calls.advanced run.old p r reach }
{
    set_transit(run, p, r, 0);
    set_line(run, p, ROUND, r.wrapping_add(1));
    set_line(run, p, SENT, 0);
    set_line(run, p, HEARD, 0);
    set_line(run, p, REACH, reach);
}

// The tests of a step, in document 01's order.
#[tactic(auto, using(std::proofs::lemmas::Bool::Decides::nat_tests, crate::proofs::Rooms::full_room_lem), unfolding(rounds::specs::Verdicts::verdict, rounds::specs::Verdicts::outside, rounds::specs::Verdicts::crowded, rounds::specs::Verdicts::refuse, words::specs::Spelled::control_of, rounds::specs::Verdicts::step_verdict, rounds::specs::Stages::sent_to_all, words::specs::Spelled::site_of))]
fn judge_step(run: &[u32; RUN], p: u32) -> Verdict
    ensures { result ≡ verdict (control_of run.now) (Step p) }
{
    let n = people(run);
    if n <= p {
        return Err(Refusal::NoProcess);
    }
    if MOST_EVENTS <= head(run, EVENTS) {
        return Err(Refusal::TooManyEvents);
    }
    let p = Process::new(p);
    if line(run, p, SENT) != sets::full(n) {
        return Err(Refusal::NotSentToAll);
    }
    if line(run, p, ROUND) == LAST_ROUND {
        return Err(Refusal::LastRound);
    }
    Ok(())
}

// An accepted step.
#[tactic(auto, unfolding(words::specs::Calls::stepped))]
fn carry_step(run: &mut [u32; RUN], p: Process)
    ensures { run.new ≡ Calls.stepped run.old p }
{
    let r = line(run, p, ROUND);
    let g = listen(run, p);
    let next = voting::rule(r, holding(run, p), g.tally);
    begin_event(run, p);
    hold(run, p, next);
    advance(run, p, r, g.reach);
}

// Process p steps to its next round.
pub fn step(run: &mut [u32; RUN], p: u8) -> Result<Finished, Refusal>
    ensures exact { Stepped run.old p result run.new }
    ensures meaning { (c : Config) → Shows run.old c → Meant (stepping result) run.new c (Step p) }
{
    let i = u32::from(p);
    judge_step(run, i)?;
    let p = Process::new(i);
    let finished = Finished {
        round: line(run, p, ROUND),
        heard: line(run, p, HEARD),
    };
    carry_step(run, p);
    Ok(finished)
}
