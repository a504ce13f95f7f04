// A hundred runs of the most processes in lock step: in each of 1,890 rounds everyone sends to all, hears all and steps. That is 99,792,000 events.
// What is left at the end is known, and 'ok' is written where it is so. bench/ times this beside the same loop in C.
#![tactic(auto)]

ghost use Rattle.std.specs.Prelude.{ℕ, ◌*◌, ◌≡◌, length};
ghost use Rattle.rounds.specs.Limits.{most_processes};
ghost use Rattle.rounds.specs.Config.{Config, opening};
ghost use Rattle.rounds.specs.Runs as Runs;
ghost use Rattle.rounds.specs.Runs.{after};
ghost use Rattle.words.specs.Spelled.{control_of};
ghost use Rattle.words.specs.Shows.{Shows, Given};
ghost use Rattle.lockstep.specs.LockStep.{round_events, receives_below, one_turn, all_send, all_turn, one_round, many_rounds};

use machine::{MOST_PROCESSES, RUN};
use std::io;

// As many processes as there can be.
const ALL: u8 = MOST_PROCESSES as u8;

// The set of all of them.
const EVERYONE: u32 = (1 << MOST_PROCESSES) - 1;

// The loops of `sends`, `receives`, `all_send` and `all_turn` differ in their call; one over a closure needs a clause on each call's two memories, longer than a loop.

// What a call answers is let go here: that none is refused is what `night` promises.

// Process p sends to all.
fn sends(run: &mut [u32; RUN], p: u8)
    ensures { (c : Config) → Shows run.old c → Shows run.new (after c (Runs.sends most_processes p)) }
{
    for q in 0..ALL {
        let _ = machine::send(run, p, q);
    }
}

// Process p hears all.
fn receives(run: &mut [u32; RUN], p: u8)
    ensures { (c : Config) → Shows run.old c → Shows run.new (after c (receives_below most_processes p)) }
{
    for q in 0..ALL {
        let _ = machine::receive(run, p, q);
    }
}

// Process p hears all and steps.
fn turn(run: &mut [u32; RUN], p: u8)
    ensures { (c : Config) → Shows run.old c → Shows run.new (after c (one_turn p)) }
{
    receives(run, p);
    let _ = machine::step(run, p);
}

fn all_send(run: &mut [u32; RUN])
    ensures { (c : Config) → Shows run.old c → Shows run.new (after c (all_send most_processes)) }
{
    for p in 0..ALL {
        sends(run, p);
    }
}

fn all_turn(run: &mut [u32; RUN])
    ensures { (c : Config) → Shows run.old c → Shows run.new (after c (all_turn most_processes)) }
{
    for p in 0..ALL {
        turn(run, p);
    }
}

fn round(run: &mut [u32; RUN])
    ensures { (c : Config) → Shows run.old c → Shows run.new (after c one_round) }
{
    all_send(run);
    all_turn(run);
}

// A run of the most processes with these values, from its opening: every event is accepted, and counted.
fn night(run: &mut [u32; RUN], values: &[u32])
    ensures { (v : ℕ → ℕ) → length values.now ≡ most_processes → Given most_processes values.now v
        → Shows run.new (after (opening most_processes v) (many_rounds 1890))
        × ((control_of run.new).events ≡ round_events * 1890) }
{
    let _ = machine::begin(run, MOST_PROCESSES, values);
    for _ in 0..1890u32 {
        round(run);
    }
}

fn main(rt: HostRuntime) -> io::Result<()> {
    let values = [7u32, 4, 9, 12, 3, 7, 4, 9, 12, 3, 7, 4, 9, 12, 3, 11];
    let mut run = [0u32; RUN];
    for _ in 0..100u32 {
        night(&mut run, &values);
    }
    let first = machine::site(&run, 0);
    if machine::events(&run) == 997920
        && first.round == 1891
        && first.value == 3
        && first.reach == EVERYONE
    {
        println!(rt; "ok")?;
    }
    Ok(())
}
