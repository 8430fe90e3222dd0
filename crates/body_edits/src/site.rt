//! An operation of a body, as patterns read it, and the choices that they make among its operands.
ghost use Rattle.std.specs.Prelude.{◌≡◌, ◌&&◌, cond, option_map, Some, slice_get};
ghost use Rattle.fold_laws.specs.Constants.{constant_at, is_constant_where, is_true, is_false};
ghost use Rattle.fold_laws.specs.Standing.{when, only_operand, first_where, first_operand, of_three_operands, writes_one_type};
ghost use Rattle.hw_model.specs.Value.{is_high};
ghost use Rattle.ir_store.specs.Bodies.{ops_of, read_op};
ghost use Rattle.ir_store.specs.BodyOps.{op_at};
ghost use Rattle.ir_store.specs.Positions.{same_ref};
ghost use Rattle.fold_laws.specs.Numbers.{number_where};
ghost use Rattle.body_edits.specs.FitBodies.{IsOfFit};
ghost use Rattle.body_edits.specs.Sites.{ops_at, ref_at, refs_at, types_at, IsReadableSite};
ghost use Rattle.body_edits.specs.Tests.{test_of};
ghost use Rattle.body_edits.specs.Views.{HasOp, body_ops, position_in, op_seen};

use crate::constants::Test;
use crate::reading::{constant_of, meets};
use ir_store::body::{Body, Op};
use ir_store::operation::{OpId, Value, is_same};

/// An operation of a body.
#[derive(Drop)]
pub struct Site<'b> {
    /// The body.
    pub body: &'b Body,
    /// The operation.
    pub op: Op<'b>,
}

impl<'b> Site<'b> {
    /// The operation of an id of a body.
    pub fn at(body: &'b Body, id: OpId) -> Site<'b>
        requires fit { IsOfFit body.now }
        requires live { HasOp body.now id }
        ensures body { result.body.now ≡ body.now }
        ensures there { slice_get (body_ops body.now) (position_in body.now id) ≡ Some (op_seen body.now result.op) }
        ensures own { op_at (ops_of body.now) id.index ≡ Some (read_op id result.op) }
        ensures readable { IsReadableSite result }
    {
        let op = body.op(id);
        Site { body, op }
    }

    /// The only operand.
    pub fn only_operand(&self) -> Option<Value>
        ensures { option_map (ref_at self.now) result ≡ only_operand (refs_at self.now) }
    {
        match self.op.operands {
            [x] => Some(*x),
            _ => None,
        }
    }

    /// The first of two operands, where the second is a constant that meets a test.
    pub fn first_where(&self, test: Test) -> Option<Value>
        requires { IsReadableSite self.now }
        ensures { option_map (ref_at self.now) result ≡ first_where (is_constant_where (test_of test) (ops_at self.now)) (refs_at self.now) }
    {
        match self.op.operands {
            [x, y] => self.when(test, *y, *x),
            _ => None,
        }
    }

    /// The value `x`, where the value `y` is a constant that meets a test.
    fn when(&self, test: Test, y: Value, x: Value) -> Option<Value>
        requires { IsReadableSite self.now }
        ensures { option_map (ref_at self.now) result ≡ when (is_constant_where (test_of test) (ops_at self.now) (ref_at self.now y)) (Some (ref_at self.now x)) }
    {
        if meets(self.body, test, y) {
            Some(x)
        } else {
            None
        }
    }

    /// The first operand that is a constant which meets a test. Linear in the operands.
    pub fn first_operand(&self, test: Test) -> Option<Value>
        requires { IsReadableSite self.now }
        ensures { option_map (ref_at self.now) result ≡ first_operand (is_constant_where (test_of test) (ops_at self.now)) (refs_at self.now) }
    {
        for value in self.op.operands {
            if meets(self.body, test, *value) {
                return Some(*value);
            }
        }
        None
    }

    /// Whether the operation writes two types, which are one.
    pub fn writes_one_type(&self) -> bool
        ensures { result ≡ writes_one_type (types_at self.now) }
    {
        match self.op.types.as_slice() {
            [t, u] => *t == *u,
            _ => false,
        }
    }

    /// The only operand, where the operation writes two types, which are one.
    pub fn whole_operand(&self) -> Option<Value>
        ensures { option_map (ref_at self.now) result ≡ when (writes_one_type (types_at self.now)) (only_operand (refs_at self.now)) }
    {
        if self.writes_one_type() {
            self.only_operand()
        } else {
            None
        }
    }

    /// The second or the third of three operands, as the first one says, which is a constant.
    pub fn chosen_operand(&self) -> Option<Value>
        requires { IsReadableSite self.now }
        ensures { option_map (ref_at self.now) result ≡ of_three_operands (λ c x y. option_map (λ w. cond (is_high w) x y) (constant_at (ops_at self.now) c)) (refs_at self.now) }
    {
        match self.op.operands {
            [condition, x, y] => match constant_of(self.body, *condition) {
                Some(word) => Some(if word.is_negative() { *x } else { *y }),
                None => None,
            },
            _ => None,
        }
    }

    /// The second of three operands, where the third is the same value.
    pub fn same_choice(&self) -> Option<Value>
        requires { IsReadableSite self.now }
        ensures { option_map (ref_at self.now) result ≡ of_three_operands (λ c x y. when (same_ref x y) (Some x)) (refs_at self.now) }
    {
        match self.op.operands {
            [_, x, y] => { if is_same(*x, *y) { Some(*x) } else { None } }
            _ => None,
        }
    }

    /// The first of three operands, where the second is true and the third false.
    pub fn condition(&self) -> Option<Value>
        requires { IsReadableSite self.now }
        ensures { option_map (ref_at self.now) result ≡ of_three_operands (λ c x y. when (is_constant_where is_true (ops_at self.now) x && is_constant_where is_false (ops_at self.now) y) (Some c)) (refs_at self.now) }
    {
        match self.op.operands {
            [condition, x, y] => {
                if meets(self.body, Test::True, *x) && meets(self.body, Test::False, *y) {
                    Some(*condition)
                } else {
                    None
                }
            }
            _ => None,
        }
    }

    /// A number, where there are two operands, which are one value.
    pub fn number_of_same(&self, number: u128) -> Option<u128>
        requires { IsReadableSite self.now }
        ensures { result ≡ number_where same_ref number (refs_at self.now) }
    {
        match self.op.operands {
            [x, y] if is_same(*x, *y) => Some(number),
            _ => None,
        }
    }

    /// A number, where there are two operands, of which the second is a constant that meets a test.
    pub fn number_where(&self, test: Test, number: u128) -> Option<u128>
        requires { IsReadableSite self.now }
        ensures { result ≡ number_where (λ x y. is_constant_where (test_of test) (ops_at self.now) y) number (refs_at self.now) }
    {
        match self.op.operands {
            [_, y] if meets(self.body, test, *y) => Some(number),
            _ => None,
        }
    }
}
