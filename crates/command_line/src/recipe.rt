//! Which design is generated.
ghost use Rattle.std.specs.Prelude.{◌≤◌};

/// What a design is generated from: a seed, and a number of modules, 1 to 10,000.
#[derive(Clone, Copy)]
pub struct Recipe {
    /// The seed of what is drawn.
    pub seed: u32,
    /// How many modules there are.
    pub count: u32,
    ghost some: { 1 ≤ count },
    ghost few: { count ≤ 10000 },
}
