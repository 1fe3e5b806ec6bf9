//! The numbers of a seed, in order.

ghost use Rattle.std.specs.Prelude.{◌≡◌};
ghost use Rattle.bx_engine_generate.specs.Generated.{drawn, next_state};

use std::marker::Model;

/// What a state is multiplied by.
pub const MULTIPLIER: u64 = 6_364_136_223_846_793_005;

/// What is added then.
pub const INCREMENT: u64 = 1_442_695_040_888_963_407;

/// A linear congruential generator of 64 bits, of which the upper 31 are drawn. Contracts see it as its state.
#[derive(Drop)]
pub(crate) struct Numbers {
    state: u64,
}

impl Model for Numbers {
    ghost use Rattle.std.specs.Prelude.{ℕ};

    ghost Value = { ℕ };

    ghost view = { λ n. n.state };
}

impl Numbers {
    /// The numbers of a seed.
    pub(crate) fn of(seed: u64) -> Numbers
        ensures { result ≡ seed }
    {
        Numbers { state: seed }
    }

    /// The next number.
    pub(crate) fn draw(&mut self) -> u64
        ensures state { self.new ≡ next_state self.old }
        ensures drawn { result ≡ drawn self.new }
    {
        self.state = self.state.wrapping_mul(MULTIPLIER).wrapping_add(INCREMENT);
        self.state >> 33
    }
}
