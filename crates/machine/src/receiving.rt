// A receive: its verdict, and what an accepted one does.
ghost use Rattle.std.specs.Prelude.{◌≡◌};
ghost use Rattle.rounds.specs.declared.Event.TheVariants.{Receive};
ghost use Rattle.rounds.specs.Config.{Config};
ghost use Rattle.rounds.specs.Verdicts.{verdict};
ghost use Rattle.words.specs.Calls.{judged};
ghost use Rattle.words.specs.Spelled.{control_of};
ghost use Rattle.words.specs.Calls as Calls;
ghost use Rattle.words.specs.Exact.{Tried};
ghost use Rattle.words.specs.Shows.{Shows, Meant};

use crate::cells::*;
use crate::limits::*;
use crate::process::Process;
use crate::settling::*;
use crate::spelled::*;
use rounds::{Refusal, Verdict};

// The tests of a receive, in document 01's order.
#[tactic(auto, using(std::proofs::lemmas::Bool::Decides::nat_tests), unfolding(rounds::specs::Verdicts::verdict, rounds::specs::Verdicts::outside, rounds::specs::Verdicts::crowded, rounds::specs::Verdicts::refuse, words::specs::Spelled::control_of, rounds::specs::Verdicts::receive_verdict, words::specs::Spelled::site_of))]
fn judge_receive(run: &[u32; RUN], p: u32, q: u32) -> Verdict
    ensures { result ≡ verdict (control_of run.now) (Receive p q) }
{
    let n = people(run);
    if n <= p || n <= q {
        return Err(Refusal::NoProcess);
    }
    if MOST_EVENTS <= head(run, EVENTS) {
        return Err(Refusal::TooManyEvents);
    }
    let p = Process::new(p);
    if !sets::has(transit(run, p, line(run, p, ROUND)), q) {
        return Err(Refusal::NothingInTransit);
    }
    Ok(())
}

// The message of q to p is heard.
#[tactic(auto, using(crate::proofs::Rooms::with_room_lem), unfolding(words::specs::Calls::taken))]
fn take(run: &mut [u32; RUN], p: Process, q: Process)
    ensures { run.new ≡ Calls.taken run.old p q }
{
    let r = line(run, p, ROUND);
    let senders = sets::without(transit(run, p, r), q.number());
    let heard = sets::with(line(run, p, HEARD), q.number());
    set_transit(run, p, r, senders);
    set_line(run, p, HEARD, heard);
}

// An accepted receive.
#[tactic(auto, unfolding(words::specs::Calls::received))]
fn carry_receive(run: &mut [u32; RUN], p: Process, q: Process)
    ensures { run.new ≡ Calls.received run.old p q }
{
    begin_event(run, p);
    take(run, p, q);
}

// Process p receives from q.
pub fn receive(run: &mut [u32; RUN], p: u8, q: u8) -> Verdict
    ensures exact { Tried run.old (Receive p q) result run.new }
    ensures meaning { (c : Config) → Shows run.old c → Meant (judged result) run.new c (Receive p q) }
{
    let i = u32::from(p);
    let j = u32::from(q);
    judge_receive(run, i, j)?;
    carry_receive(run, Process::new(i), Process::new(j));
    Ok(())
}
