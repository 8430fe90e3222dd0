// When a search starts again.
/// Luby's sequence in units of 2,000 conflicts (Luby, Sinclair and Zuckerman, Optimal speedup of Las Vegas algorithms,
/// 1993), by Knuth's reluctant doubling.
#[derive(Drop)]
pub(crate) struct Restarts {
    left: u64,
    turn: u64,
    length: u64,
}

/// The conflicts that 1 in Luby's sequence stands for.
const UNIT: u64 = 2000;

impl Restarts {
    pub(crate) fn new() -> Restarts {
        Restarts {
            left: UNIT,
            turn: 1,
            length: 1,
        }
    }

    /// Counts a conflict. The result is whether the search starts again.
    pub(crate) fn is_due(&mut self) -> bool {
        if self.left > 1 {
            self.left -= 1;
            return false;
        }
        self.advance();
        self.left = self.length.saturating_mul(UNIT);
        true
    }

    /// Goes to the next number of the sequence.
    fn advance(&mut self) {
        if self.turn & self.turn.wrapping_neg() == self.length {
            self.turn = self.turn.wrapping_add(1);
            self.length = 1;
        } else {
            self.length = self.length.saturating_mul(2);
        }
    }
}
