//! The names of operations.
ghost use Rattle.std.specs.Prelude.{◌≡◌};
ghost use Rattle.stored_form.specs.Dictionaries.{dialect, takes_bin};

use mlir_lexer::classes::{Class, run_of};
use opcode::listed::Listed;

/// The bytes before a dot.
pub enum NoDot {}

impl Class for NoDot {
    ghost use Rattle.std.specs.Prelude.{not, ◌==◌};

    ghost test = { λ b. not (b == 46) };

    fn has(byte: u8) -> bool {
        !(byte == b'.')
    }
}

/// What stands before the first dot of a name.
pub fn dialect(name: &[u8]) -> &[u8]
    ensures { result.now ≡ dialect name.now }
{
    &name[..run_of::<NoDot>(name)]
}

/// Whether `bin` may stand after the name of an operation: after those of the dialect comb.
pub fn takes_bin(name: Listed) -> bool
    ensures { result ≡ takes_bin name }
{
    dialect(name.name()) == b"comb".as_slice()
}
