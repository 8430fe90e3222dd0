//! Ids by number.
ghost use Rattle.std.specs.Prelude.{◌≡◌};
ghost use Rattle.ir_store.specs.Bodies.{op_id};

use crate::operation::OpId;

impl OpId {
    /// The id that the operation of this number, from 0, gets in a new body while none is taken out of it.
    pub fn nth(number: u32) -> OpId
        ensures { result ≡ op_id number }
    {
        OpId { index: number }
    }

    /// Its number: while nothing is taken out of a body, how many operations were put into it before.
    pub fn number(self) -> u32
        ensures { result ≡ self.index }
    {
        self.index
    }
}
