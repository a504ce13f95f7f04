// Sets of processes as masks in a word: process k is bit k.
// Every call is stated for every input; a process that a word has no room for is no member and cannot become one.
#![tactic(auto)]

ghost use Rattle.std.specs.Prelude.{◌≡◌, eqb};
ghost use Rattle.sets.specs.Sets as S;

#[tactic(auto, unfolding(crate::specs::Sets::has))]
pub fn has(set: u32, k: u32) -> bool
    ensures { result ≡ S.has set k }
{
    if 32 <= k {
        return false;
    }
    (set >> k) % 2 == 1
}

#[tactic(auto, using(std::proofs::lemmas::Bool::Decides::nat_tests, crate::proofs::Bounds::one_shifted), unfolding(crate::specs::Sets::with_room, crate::specs::Sets::with))]
pub fn with(set: u32, k: u32) -> u32
    ensures { result ≡ S.with_room set k }
{
    if 32 <= k {
        return set;
    }
    set | (1 << k)
}

#[tactic(auto, using(crate::proofs::Bounds::one_shifted), unfolding(crate::specs::Sets::without))]
pub fn without(set: u32, k: u32) -> u32
    ensures { result ≡ S.without set k }
{
    if 32 <= k {
        return set;
    }
    set ^ (set & (1 << k))
}

#[tactic(auto, unfolding(crate::specs::Sets::union))]
pub fn union(a: u32, b: u32) -> u32
    ensures { result ≡ S.union a b }
{
    a | b
}

#[tactic(auto, using(crate::proofs::Bounds::one_shifted), unfolding(crate::specs::Sets::full, crate::specs::Sets::full_room))]
pub fn full(n: u32) -> u32
    ensures { result ≡ S.full_room n }
{
    if 32 <= n {
        return u32::MAX;
    }
    (1 << n) - 1
}

pub fn is_empty(set: u32) -> bool
    ensures { result ≡ eqb set S.empty }
{
    set == 0
}

// The members of a set in ascending order are its lowest one and then those of the rest, until it is empty. The lowest of the empty set is the bits of a
// word, and no Option: its definition says a number of every set.
#[tactic(auto, unfolding(crate::specs::Sets::lowest))]
pub fn lowest(set: u32) -> u32
    ensures { result ≡ S.lowest set }
{
    set.trailing_zeros()
}

#[tactic(auto, unfolding(crate::specs::Sets::rest))]
pub fn rest(set: u32) -> u32
    ensures { result ≡ S.rest set }
{
    if set == 0 {
        return 0;
    }
    set & (set - 1)
}
