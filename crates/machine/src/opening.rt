// The opening of a run: its verdict, and what an accepted one makes of the memory, whatever it held.
ghost use Rattle.std.specs.Prelude.{◌≡◌, ℕ, ◌≤◌, length};
ghost use Rattle.rounds.specs.Limits.{most_processes};
ghost use Rattle.rounds.specs.Config.{opening, no_run};
ghost use Rattle.rounds.specs.Verdicts.{Accepted, open_verdict};
ghost use Rattle.words.specs.Calls as Calls;
ghost use Rattle.words.specs.Exact.{Cleared, Begun};
ghost use Rattle.words.specs.Shows.{Shows, Given};

use crate::cells::*;
use crate::limits::*;
use crate::process::Process;
use rounds::{Refusal, Verdict};

// The tests of an opening, in document 01's order.
#[tactic(auto, using(std::proofs::lemmas::Bool::Decides::nat_tests), unfolding(rounds::specs::Verdicts::open_verdict, rounds::specs::Verdicts::refuse))]
fn judge_opening(n: u32, given: usize) -> Verdict
    ensures { result ≡ open_verdict n given }
{
    if n == 0 || MOST_PROCESSES < n {
        return Err(Refusal::BadSize);
    }
    if given != n as usize {
        return Err(Refusal::WrongCount);
    }
    Ok(())
}

// No run is there: every word is 0.
pub fn clear(run: &mut [u32; RUN])
    ensures exact { Cleared run.new }
    ensures meaning { Shows run.new no_run }
{
    run.fill(0);
}

// Process p is there, with its value.
#[tactic(auto, using(crate::proofs::Rooms::with_room_lem), unfolding(words::specs::Calls::placed))]
fn place(run: &mut [u32; RUN], p: Process, value: u32)
    ensures { run.new ≡ Calls.placed run.old p value }
{
    let own = sets::with(0, p.number());
    set_line(run, p, VALUE, value);
    set_line(run, p, ROUND, 1);
    set_line(run, p, REACH, own);
}

// A process for each of the values.
#[tactic(auto, unfolding(words::specs::Calls::placed_below))]
fn place_all(run: &mut [u32; RUN], values: &[u32])
    requires { length values.now ≤ most_processes }
    ensures { run.new ≡ Calls.placed_below (length values.now) values.now run.old }
{
    for (p, &value) in values.iter().enumerate() {
        place(run, Process::new(p as u32), value);
    }
}

// A run of n processes begins, with their values. N stands beside the values, since document 01 refuses an opening whose values are not N in number.
pub fn begin(run: &mut [u32; RUN], n: u32, values: &[u32]) -> Verdict
    ensures exact { Begun run.old n values.now result run.new }
    ensures meaning { result ≡ Accepted → (v : ℕ → ℕ) → Given n values.now v → Shows run.new (opening n v) }
{
    judge_opening(n, values.len())?;
    clear(run);
    set_head(run, SIZE, n);
    place_all(run, values);
    Ok(())
}
