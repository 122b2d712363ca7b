//! The generator of numbers.
ghost use Rattle.std.specs.Prelude.{◌≡◌, ◌<◌};
ghost use Rattle.trial_command.specs.Draws.{drawn, drawn_below, next_state};

use std::marker::Model;

const MULTIPLIER: u64 = 6_364_136_223_846_793_005;

const INCREMENT: u64 = 1_442_695_040_888_963_407;

const DROPPED_BITS: u32 = 33;

/// A generator of numbers. Contracts see its state.
#[derive(Clone, Copy)]
pub(crate) struct Generator {
    state: u64,
}

impl Model for Generator {
    ghost use Rattle.std.specs.Prelude.{ℕ};

    ghost Value = { ℕ };

    ghost view = { λ g. g.state };

    ghost inverse = { λ n. record { state = n } };
}

impl Generator {
    /// The generator whose first state is the seed.
    pub(crate) fn of(seed: u64) -> Generator
        ensures { result ≡ seed }
    {
        Generator { state: seed }
    }

    /// A number below a limit.
    #[tactic(auto, unfolding(crate::specs::Draws::drawn_below))]
    pub(crate) fn below(&mut self, limit: u16) -> u16
        requires { 0 < limit }
        ensures value { result ≡ drawn_below limit self.old }
        ensures within { result < limit }
        ensures drawn { self.new ≡ next_state self.old }
    {
        (self.draw() % limit as u64) as u16
    }

    #[tactic(auto, unfolding(crate::specs::Draws::drawn))]
    fn draw(&mut self) -> u64
        ensures value { result ≡ drawn self.old }
        ensures drawn { self.new ≡ next_state self.old }
    {
        self.state = following(self.state);
        self.state >> DROPPED_BITS
    }
}

// The state after a state.
#[tactic(auto, unfolding(crate::specs::Draws::next_state))]
fn following(state: u64) -> u64
    ensures { result ≡ next_state state }
{
    state.wrapping_mul(MULTIPLIER).wrapping_add(INCREMENT)
}
