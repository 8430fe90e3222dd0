//! How many workers work modules.
ghost use Rattle.std.specs.Prelude.{◌≤◌};

use crate::numbers::number_between;

/// A number of workers, 1 to 64.
#[derive(Clone, Copy)]
pub struct Workers {
    /// How many there are.
    pub count: u32,
    ghost one: { 1 ≤ count },
    ghost few: { count ≤ 64 },
}

impl Workers {
    ghost use Rattle.std.specs.Prelude.{◌≡◌, option_map};
    ghost use Rattle.command_line.specs.Numbers.{number_between};

    /// As many as decimal digits say, without a sign and without a leading zero.
    pub fn read(text: &str) -> Option<Workers>
        ensures { option_map (λ w. w.count) result ≡ number_between 1 64 text.now }
    {
        match number_between(text, 1, 64) {
            Some(count) => Some(Workers {
                count: count as u32,
            }),
            None => None,
        }
    }

    /// As many as there are where nothing is said: four.
    pub fn usual() -> Workers
        ensures { result.count ≡ 4 }
    {
        Workers { count: 4 }
    }

    /// One worker.
    pub fn one() -> Workers
        ensures { result.count ≡ 1 }
    {
        Workers { count: 1 }
    }
}
