// An accepted event is counted, and the processes that it can move to another stage are settled, before anything else changes.
ghost use Rattle.std.specs.Prelude.{◌≡◌};
ghost use Rattle.words.specs.Calls as Calls;

use crate::cells::*;
use crate::process::Process;
use crate::spelled::*;

// One more event is accepted.
#[tactic(auto, unfolding(words::specs::Calls::counted, words::specs::Spelled::word))]
fn count_event(run: &mut [u32; RUN])
    ensures { run.new ≡ Calls.counted run.old }
{
    let next = head(run, EVENTS).wrapping_add(1);
    set_head(run, EVENTS, next);
}

// The events since p was last settled are counted at the stage that it is at.
#[tactic(auto, unfolding(words::specs::Calls::settled, words::specs::Spelled::word))]
pub(crate) fn settle(run: &mut [u32; RUN], p: Process)
    ensures { run.new ≡ Calls.settled run.old p }
{
    let k = COUNTS + index(stage(run, p));
    let now = head(run, EVENTS);
    let waited = now.saturating_sub(line(run, p, SINCE));
    let count = line(run, p, k).wrapping_add(waited);
    set_line(run, p, k, count);
    set_line(run, p, SINCE, now);
}

// An event of p is accepted: before anything else of p changes it is counted, at the stage that p is at until now.
#[tactic(auto, unfolding(words::specs::Calls::begun))]
pub(crate) fn begin_event(run: &mut [u32; RUN], p: Process)
    ensures { run.new ≡ Calls.begun run.old p }
{
    count_event(run);
    settle(run, p);
}
