ghost use Rattle.std.specs.Prelude.{◌≡◌, ◌<◌, ◌+◌};
ghost use Rattle.live_plant.specs.Generator.{state_after, draw, draw_below};

use std::marker::Model;

/// A linear congruential generator with a state of 64 bits (Knuth, The Art of Computer Programming, volume 2, section
/// 3.3.4, with the constants of MMIX). Contracts see it as its state.
#[derive(Drop)]
pub struct Generator {
    state: u64,
}

impl Model for Generator {
    ghost use Rattle.std.specs.Prelude.{ℕ};

    ghost Value = { ℕ };

    ghost view = { λ generator. generator.state };
}

impl Generator {
    const MULTIPLIER: u64 = 6_364_136_223_846_793_005;

    const INCREMENT: u64 = 1_442_695_040_888_963_407;

    /// The generator that starts in this state.
    pub fn new(seed: u64) -> Self
        ensures { result ≡ seed }
    {
        Generator { state: seed }
    }

    /// The next draw: the upper 31 bits of the next state.
    fn draw(&mut self) -> u64
        ensures draw { result ≡ draw self.old 1 }
        ensures state { self.new ≡ state_after 1 self.old }
    {
        self.state = self
            .state
            .wrapping_mul(Self::MULTIPLIER)
            .wrapping_add(Self::INCREMENT);
        self.state >> 33
    }

    /// The next draw modulo `bound`.
    pub fn draw_below(&mut self, bound: u32) -> u32
        requires { 0 < bound }
        ensures draw { result ≡ draw_below self.old 1 bound }
        ensures below { result < bound }
        ensures state { self.new ≡ state_after 1 self.old }
    {
        (self.draw() % u64::from(bound)) as u32
    }
}
