// UniformVoting by value: what a process holds, what its messages carry, and the rule over a tally of what it heard.
// A tally is made of the messages one by one, in any order; what it holds does not grow with their number.
#![tactic(auto)]

ghost use Rattle.std.specs.Prelude.{◌≡◌, ℕ, List, [], ◌∷◌};
ghost use Rattle.voting.specs.Voting as Rule;
ghost use Rattle.voting.specs.Tally as Tallies;

// What a message carries; the vote may be absent.
#[derive(Clone, Copy, Debug, PartialEq, Eq)]
pub struct Message {
    pub value: u32,
    pub vote: Option<u32>,
}

// What a process holds; vote and decision may be absent.
#[derive(Clone, Copy, Debug, PartialEq, Eq)]
pub struct Holding {
    pub value: u32,
    pub vote: Option<u32>,
    pub decision: Option<u32>,
}

// Of some values, or of some votes, each of which may be absent: the least that is there, and whether all are there and the same.
#[derive(Clone, Copy, Debug, PartialEq, Eq)]
pub struct Poll {
    pub least: Option<u32>,
    pub same: bool,
}

// What a process has heard this round.
#[derive(Clone, Copy, Debug, PartialEq, Eq)]
pub struct Tally {
    pub values: Poll,
    pub votes: Poll,
}

impl Poll {
    // With one more beside them.
    #[tactic(auto, unfolding(crate::specs::Tally::with, crate::specs::Tally::lesser, crate::specs::Tally::agrees))]
    fn with(self, choice: Option<u32>) -> Poll
        ensures { result ≡ Tallies.with self choice }
    {
        match (choice, self.least) {
            (None, least) => Poll { least, same: false },
            (Some(x), None) => Poll {
                least: Some(x),
                same: self.same,
            },
            (Some(x), Some(a)) => Poll {
                least: Some(a.min(x)),
                same: self.same && a == x,
            },
        }
    }

    // What all of them are; the other where they differ, and where there are none.
    #[tactic(auto, unfolding(crate::specs::Tally::agreed_or))]
    fn agreed_or(self, other: Option<u32>) -> Option<u32>
        ensures { result ≡ Tallies.agreed_or self other }
    {
        if self.same {
            self.least.or(other)
        } else {
            other
        }
    }
}

// Nothing was heard.
#[tactic(auto, unfolding(crate::specs::Tally::tally, crate::specs::Tally::silence, crate::specs::Tally::nothing))]
pub fn silence() -> Tally
    ensures { result ≡ Tallies.tally [] }
{
    let none = Poll {
        least: None,
        same: true,
    };
    Tally {
        values: none,
        votes: none,
    }
}

// One more message was heard.
#[tactic(auto, using(crate::proofs::Tallies::hear_meaning), unfolding(crate::specs::Tally::hear))]
pub fn hear(t: Tally, m: Message) -> Tally
    ensures exact { result ≡ Tallies.hear t m }
    ensures meaning { (ms : List Message) → t ≡ Tallies.tally ms → result ≡ Tallies.tally (m ∷ ms) }
{
    Tally {
        values: t.values.with(Some(m.value)),
        votes: t.votes.with(m.vote),
    }
}

// What a process holds after a round in which it heard what the tally says.
#[tactic(auto, unfolding(crate::specs::Tally::ruled, crate::specs::Voting::odd))]
pub fn rule(round: u32, own: Holding, t: Tally) -> Holding
    ensures exact { result ≡ Tallies.ruled round own t }
    ensures meaning { (ms : List Message) → t ≡ Tallies.tally ms → result ≡ Rule.rule round own ms }
{
    if round % 2 == 1 {
        odd_rule(own, t)
    } else {
        even_rule(own, t)
    }
}

// Lines 10 to 12 of Algorithm 1.
#[tactic(auto, unfolding(crate::specs::Tally::odd_tally))]
fn odd_rule(own: Holding, t: Tally) -> Holding
    ensures { result ≡ Tallies.odd_tally own t }
{
    Holding {
        value: t.values.least.unwrap_or(own.value),
        vote: t.values.agreed_or(own.vote),
        decision: own.decision,
    }
}

// Lines 17 to 19 of Algorithm 1.
#[tactic(auto, unfolding(crate::specs::Tally::even_tally))]
fn even_rule(own: Holding, t: Tally) -> Holding
    ensures { result ≡ Tallies.even_tally own t }
{
    let value = t.values.least.unwrap_or(own.value);
    Holding {
        value: t.votes.least.unwrap_or(value),
        vote: None,
        decision: t.votes.agreed_or(own.decision),
    }
}
