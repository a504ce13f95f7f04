// A process: a number below the most. Whoever has one need not ask for that, and contracts see its number.
ghost use Rattle.std.specs.Prelude.{◌≡◌, ◌<◌, ℕ};
ghost use Rattle.rounds.specs.Limits.{most_processes};

use std::marker::Model;

#[derive(Clone, Copy)]
pub(crate) struct Process {
    number: u32,
}

impl Model for Process {
    ghost Value = { ℕ };

    ghost view = { λ p. p.number };

    ghost invariant = { λ p. p.number < most_processes };

    ghost inverse = { λ n. record { number = n } };
}

impl Process {
    // The process of this number.
    pub(crate) fn new(number: u32) -> Process
        requires { number < most_processes }
        ensures { result ≡ number }
    {
        Process { number }
    }

    // Its number, which is its place among the processes, and what sets have for a member.
    pub(crate) fn number(self) -> u32
        ensures { (result ≡ self) × (result < most_processes) }
    {
        self.number
    }
}
