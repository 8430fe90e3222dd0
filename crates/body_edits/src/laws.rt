//! The laws on what edits of a body by ids do to its operations by positions, each a clause of a function that does nothing.
ghost use Rattle.std.specs.Prelude.{◌≡◌, ℕ, List, [], Some, Contains, set, slice_get};
ghost use Rattle.hw_model.specs.Design.{Ref, Op};
ghost use Rattle.edit_laws.specs.Laws.{erase_op};
ghost use Rattle.ir_store.specs.declared.operation.OpId.{OpId};
ghost use Rattle.ir_store.specs.declared.operation.Value.{Value};
ghost use Rattle.ir_store.specs.declared.operation.Value.TheVariants.{Result};
ghost use Rattle.ir_store.specs.BodyOps.{BodyOp, ids_in, put_before, taken_out, all_replaced, IsUnused};
ghost use Rattle.ir_store.specs.Live.{AreLive};
ghost use Rattle.ir_store.specs.Numbered.{position_of, ref_by, op_by, ops_by_position};
ghost use Rattle.ir_store.specs.Positions.{with_operands};
ghost use Rattle.body_edits.specs.Replaceable.{HaveNoFurther};

/// Does nothing. Its clause says that an operation that is taken out, once a value stands for its first result and nothing
/// names it, is erased, the value standing for it.
pub fn erasures()
    ensures { (op : OpId) (x : Value) (ops : List BodyOp) → AreLive ops → Contains (ids_in ops) op.index → IsUnused op.index (all_replaced (Result op 0) x ops)
        → ops_by_position (taken_out op.index (all_replaced (Result op 0) x ops)) ≡ erase_op (position_of (ids_in ops) op.index) (ref_by (position_of (ids_in ops)) x) (ops_by_position ops) }
{}

/// Does nothing. Its clause says that an operation without operands that is put before another one, for whose first result
/// it then stands, and which is taken out, stands in the place of that one.
pub fn replacements()
    ensures { (op id : OpId) (o : BodyOp) (ops : List BodyOp) → AreLive ops → Contains (ids_in ops) op.index → o.id ≡ id.index → o.operands ≡ []
        → (Contains (ids_in ops) id.index → ⊥) → HaveNoFurther (position_of (ids_in ops) op.index) (ops_by_position ops)
        → IsUnused op.index (all_replaced (Result op 0) (Result id 0) (put_before (Some op) o ops))
        → ops_by_position (taken_out op.index (all_replaced (Result op 0) (Result id 0) (put_before (Some op) o ops))) ≡ set (ops_by_position ops) (position_of (ids_in ops) op.index) (op_by (position_of (ids_in ops)) o) }
{}

/// Does nothing. Its clause says that a change of the operands at a position changes the operation there alone.
pub fn operand_changes()
    ensures { (i : ℕ) (f : List Ref → List Ref) (os : List Op) (o : Op) → slice_get os i ≡ Some o → with_operands i f os ≡ set os i (record o { operands = f o.operands }) }
{}
