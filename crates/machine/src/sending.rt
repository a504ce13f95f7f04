// A send: its verdict, and what an accepted one does.
ghost use Rattle.std.specs.Prelude.{◌≡◌};
ghost use Rattle.rounds.specs.declared.Event.TheVariants.{Send};
ghost use Rattle.rounds.specs.Config.{Config};
ghost use Rattle.rounds.specs.Verdicts.{verdict, send_verdict};
ghost use Rattle.words.specs.Calls.{judged};
ghost use Rattle.words.specs.Spelled.{control_of};
ghost use Rattle.words.specs.Calls as Calls;
ghost use Rattle.words.specs.Exact.{Tried};
ghost use Rattle.words.specs.Shows.{Shows, Meant};

use crate::cells::*;
use crate::limits::*;
use crate::process::Process;
use crate::settling::*;
use crate::spelled::*;
use rounds::{Refusal, Verdict};
use words::Fate;

// The lead that refuses a message.
const LEAD: i64 = WINDOW as i64;

// What becomes of a message of a sender at round r to a receiver at round s: the lead is a signed number.
#[tactic(auto, using(std::proofs::lemmas::Bool::Decides::nat_tests, std::proofs::lemmas::Int::ints), unfolding(words::specs::Calls::fate, rounds::specs::Events::timely, rounds::specs::Verdicts::ahead))]
fn fate(r: u32, s: u32) -> Fate
    ensures { result ≡ Calls.fate r s }
{
    match i64::from(r) - i64::from(s) {
        0..LEAD => Fate::Kept,
        LEAD => Fate::Refused,
        _ => Fate::Discarded,
    }
}

// The verdict on a send by its target alone.
#[tactic(auto, using(std::proofs::lemmas::Bool::Decides::nat_tests), unfolding(rounds::specs::Verdicts::send_verdict, rounds::specs::Verdicts::refuse, rounds::specs::Verdicts::ahead, rounds::specs::Events::timely, words::specs::Calls::fate, words::specs::Spelled::control_of, words::specs::Spelled::site_of))]
pub(crate) fn judge_target(run: &[u32; RUN], p: Process, q: Process) -> Verdict
    ensures { result ≡ send_verdict (control_of run.now) p q }
{
    if sets::has(line(run, p, SENT), q.number()) {
        return Err(Refusal::AlreadySent);
    }
    match fate(line(run, p, ROUND), line(run, q, ROUND)) {
        Fate::Discarded | Fate::Kept => Ok(()),
        Fate::Refused => Err(Refusal::TooFarAhead),
    }
}

// The tests of a send, in document 01's order. The first two stand in each judge, so that it reads as the definition (`verdict`) does.
#[tactic(auto, using(std::proofs::lemmas::Bool::Decides::nat_tests), unfolding(rounds::specs::Verdicts::verdict, rounds::specs::Verdicts::outside, rounds::specs::Verdicts::crowded, rounds::specs::Verdicts::refuse, words::specs::Spelled::control_of))]
fn judge_send(run: &[u32; RUN], p: u32, q: u32) -> Verdict
    ensures { result ≡ verdict (control_of run.now) (Send p q) }
{
    let n = people(run);
    if n <= p || n <= q {
        return Err(Refusal::NoProcess);
    }
    if MOST_EVENTS <= head(run, EVENTS) {
        return Err(Refusal::TooManyEvents);
    }
    judge_target(run, Process::new(p), Process::new(q))
}

// q joins the set that p has sent to.
#[tactic(auto, using(crate::proofs::Rooms::with_room_lem), unfolding(words::specs::Calls::marked))]
fn mark(run: &mut [u32; RUN], p: Process, q: Process)
    ensures { run.new ≡ Calls.marked run.old p q }
{
    let sent = sets::with(line(run, p, SENT), q.number());
    set_line(run, p, SENT, sent);
}

// The message of p to q is in transit, with what p has.
#[tactic(auto, using(crate::proofs::Rooms::with_room_lem), unfolding(words::specs::Calls::posted))]
fn post(run: &mut [u32; RUN], p: Process, q: Process)
    ensures { run.new ≡ Calls.posted run.old p q }
{
    let r = line(run, p, ROUND);
    let value = line(run, p, VALUE);
    let voted = line(run, p, VOTED);
    let vote = line(run, p, VOTE);
    let reach = line(run, p, REACH);
    let senders = sets::with(transit(run, q, r), p.number());
    set_transit(run, q, r, senders);
    set_letter(run, q, r, p, VALUE, value);
    set_letter(run, q, r, p, VOTED, voted);
    set_letter(run, q, r, p, VOTE, vote);
    set_letter(run, q, r, p, CARRIED, reach);
}

// An accepted send: a message that is kept is put in transit.
#[tactic(auto, unfolding(words::specs::Calls::sent, words::specs::Calls::delivered))]
pub(crate) fn carry_send(run: &mut [u32; RUN], p: Process, q: Process)
    ensures { run.new ≡ Calls.sent run.old p q }
{
    let f = fate(line(run, p, ROUND), line(run, q, ROUND));
    begin_event(run, p);
    settle(run, q);
    mark(run, p, q);
    if f == Fate::Kept {
        post(run, p, q);
    }
}

// Process p sends to q.
pub fn send(run: &mut [u32; RUN], p: u8, q: u8) -> Verdict
    ensures exact { Tried run.old (Send p q) result run.new }
    ensures meaning { (c : Config) → Shows run.old c → Meant (judged result) run.new c (Send p q) }
{
    let i = u32::from(p);
    let j = u32::from(q);
    judge_send(run, i, j)?;
    carry_send(run, Process::new(i), Process::new(j));
    Ok(())
}
