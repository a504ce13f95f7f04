// The replay of a lent list of events: the form that document 01 names. N and the opening values come beside the list. The list is read where it
// stands; it stops at the first refused event.
#![tactic(auto)]

ghost use Rattle.std.specs.Prelude.{◌≡◌};
ghost use Rattle.words.specs.Calls.{replayed, replayed_verdict};
ghost use Rattle.listed.specs.Listed.{event_of, events_of, Passed};

use machine::RUN;
use rounds::Verdict;

// The kinds of events.
#[derive(Clone, Copy, Debug, PartialEq, Eq)]
pub enum Kind {
    Send,
    Receive,
    Step,
    Broadcast,
}

// An event of the list. The first number is the process that acts; the second is ignored where only one is needed.
// Document 01 names this form, its kind and two numbers; `rounds::Event` is the one that has no number too many.
#[derive(Clone, Copy, Debug, PartialEq, Eq)]
pub struct Event {
    pub kind: Kind,
    pub first: u8,
    pub second: u8,
}

// What an event of the list is to the round machine.
impl From<Event> for rounds::Event {
    ghost from_gives = { λ e x. x ≡ event_of e };

    #[tactic(auto, unfolding(crate::specs::Listed::event_of, crate::specs::Listed::event))]
    fn from(e: Event) -> rounds::Event {
        match e.kind {
            Kind::Send => rounds::Event::Send(e.first, e.second),
            Kind::Receive => rounds::Event::Receive(e.first, e.second),
            Kind::Step => rounds::Event::Step(e.first),
            Kind::Broadcast => rounds::Event::Broadcast(e.first),
        }
    }
}

// The events of the list in order, up to the first that is refused.
fn follow(run: &mut [u32; RUN], events: &[Event]) -> Verdict
    ensures { (result ≡ replayed_verdict run.old (events_of events.now)) × (run.new ≡ replayed run.old (events_of events.now)) }
{
    for &e in events {
        machine::apply(run, e.into())?;
    }
    Ok(())
}

// The replay of a list beside N and the opening values.
pub fn replay_list(run: &mut [u32; RUN], n: u32, values: &[u32], events: &[Event]) -> Verdict
    ensures { Passed n values.now events.now result run.new }
{
    machine::clear(run);
    machine::begin(run, n, values)?;
    follow(run, events)
}
