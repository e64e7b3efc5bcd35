//! A generator of numbers.
ghost use Rattle.std.specs.Prelude.{◌≡◌};
ghost use Rattle.spl_gen.specs.Draws.{next_state, draw};

use std::marker::Model;

/// Numbers that look drawn (docs/RULES.md, Generated schedules). Contracts see the state.
#[derive(Drop)]
pub(crate) struct Draws {
    state: u64,
}

impl Model for Draws {
    ghost use Rattle.std.specs.Prelude.{ℕ};

    ghost Value = { ℕ };

    ghost view = { λ d. d.state };
}

impl Draws {
    /// The draws after this state.
    pub(crate) fn new(seed: u64) -> Draws
        ensures { result ≡ seed }
    {
        Draws { state: seed }
    }

    /// The next number.
    pub(crate) fn draw(&mut self) -> u32
        ensures value { result ≡ draw self.old }
        ensures state { self.new ≡ next_state self.old }
    {
        self.state = self
            .state
            .wrapping_mul(6364136223846793005)
            .wrapping_add(1442695040888963407);
        (self.state >> 33) as u32
    }
}
