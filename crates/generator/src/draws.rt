//! Numbers that are drawn.
ghost use Rattle.std.specs.Prelude.{◌≡◌};
ghost use Rattle.generator.specs.Draws.{next_state};

/// A linear congruential generator, by its state.
#[derive(Clone, Copy)]
pub struct Draws {
    pub(crate) state: u32,
}

/// The numbers that one module draws.
#[derive(Clone, Copy)]
pub struct Drawn {
    /// Its constant.
    pub constant: u32,
    /// What chooses its first operation.
    pub first: u32,
    /// Its second.
    pub second: u32,
    /// Its third.
    pub third: u32,
}

impl Draws {
    ghost use Rattle.std.specs.Prelude.{◌≡◌, ◌/◌};
    ghost use Rattle.generator.specs.Draws.{next_state, state_after};
    ghost use Rattle.generator.specs.Views.{drawn_from};

    /// No number is drawn yet.
    pub fn new(seed: u32) -> Draws
        ensures { result.state ≡ seed }
    {
        Draws { state: seed }
    }

    /// The next number.
    fn draw(&mut self) -> u32
        ensures state { self.new.state ≡ next_state self.old.state }
        ensures number { result ≡ self.new.state / 65536 }
    {
        self.state = next_state(self.state);
        self.state / 65536
    }

    /// The numbers of one more module.
    pub fn draw_four(&mut self) -> Drawn
        ensures numbers { result ≡ drawn_from self.old.state }
        ensures state { self.new.state ≡ state_after self.old.state 4 }
    {
        let constant = self.draw();
        let first = self.draw();
        let second = self.draw();
        let third = self.draw();
        Drawn {
            constant,
            first,
            second,
            third,
        }
    }
}

/// What one draw makes of a state.
fn next_state(x: u32) -> u32
    ensures { result ≡ next_state x }
{
    x.wrapping_mul(1_664_525).wrapping_add(1_013_904_223)
}
