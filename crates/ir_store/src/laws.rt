//! The laws on what a change of a body does to its operations by positions, each a clause of a function that does nothing.

ghost use Rattle.std.specs.Prelude.{◌≡◌, ℕ, List, [], ◌∷◌, ◌++◌, Some, None, map, Contains, insert, remove, slice_set};
ghost use Rattle.ir_store.specs.declared.operation.OpId.{OpId};
ghost use Rattle.ir_store.specs.declared.operation.Value.{Value};
ghost use Rattle.ir_store.specs.declared.body.Body.{Body};
ghost use Rattle.ir_store.specs.BodyOps.{BodyOp, ids_in, put_before, taken_out, operands_at, all_replaced, IsUnused};
ghost use Rattle.ir_store.specs.Bodies.{ids_of};
ghost use Rattle.ir_store.specs.Numbered.{position_of, ref_by, op_by, ops_by_position};
ghost use Rattle.ir_store.specs.Positions.{retarget, with_op, without_op, with_operands, replaced_ref};
ghost use Rattle.ir_store.specs.Live.{IsLive, HasLive, AreLive, AreDistinct};

/// Does nothing. Its clause says that no id stands twice among those of a body.
pub fn ids_are_distinct()
    ensures { (b : Body) → AreDistinct (ids_of b) }
{}

/// Does nothing. Its clauses say where an operation is by position that is added to a body whose operands are live: at
/// the end the others stay; before another one the positions from there on shift by one. The operands stay live.
pub fn additions_by_position()
    ensures last { (o : BodyOp) (ops : List BodyOp) → AreLive ops → HasLive (ids_in ops) o
        → ops_by_position (put_before None o ops) ≡ ops_by_position ops ++ op_by (position_of (ids_in ops)) o ∷ [] }
    ensures before { (b : OpId) (o : BodyOp) (ops : List BodyOp) → AreLive ops → HasLive (ids_in ops) o
        → Contains (ids_in ops) b.index → (Contains (ids_in ops) o.id → ⊥)
        → ops_by_position (put_before (Some b) o ops) ≡ with_op (position_of (ids_in ops) b.index) (op_by (position_of (ids_in ops)) o) (ops_by_position ops) }
    ensures live { (before : _) (o : BodyOp) (ops : List BodyOp) → AreLive ops → HasLive (ids_in ops) o → AreLive (put_before before o ops) }
{}

/// Does nothing. Its clauses say that without an operation whose results have no use the positions after it shift back
/// by one, and that the operands stay live.
pub fn erasures_by_position()
    ensures gone { (id : ℕ) (ops : List BodyOp) → Contains (ids_in ops) id → IsUnused id ops
        → ops_by_position (taken_out id ops) ≡ without_op (position_of (ids_in ops) id) (ops_by_position ops) }
    ensures live { (id : ℕ) (ops : List BodyOp) → AreLive ops → IsUnused id ops → AreLive (taken_out id ops) }
{}

/// Does nothing. Its clauses say that a change of the operands of one operation changes those at its position alone, and
/// that the operands stay live where the new one is.
pub fn operands_by_position()
    ensures set { (id at : ℕ) (x : Value) (ops : List BodyOp) → AreDistinct (ids_in ops) → Contains (ids_in ops) id
        → ops_by_position (operands_at id (λ xs. slice_set xs at x) ops) ≡ with_operands (position_of (ids_in ops) id) (λ refs. slice_set refs at (ref_by (position_of (ids_in ops)) x)) (ops_by_position ops) }
    ensures inserted { (id at : ℕ) (x : Value) (ops : List BodyOp) → AreDistinct (ids_in ops) → Contains (ids_in ops) id
        → ops_by_position (operands_at id (λ xs. insert xs at x) ops) ≡ with_operands (position_of (ids_in ops) id) (λ refs. insert refs at (ref_by (position_of (ids_in ops)) x)) (ops_by_position ops) }
    ensures dropped { (id at : ℕ) (ops : List BodyOp) → AreDistinct (ids_in ops) → Contains (ids_in ops) id
        → ops_by_position (operands_at id (λ xs. remove xs at) ops) ≡ with_operands (position_of (ids_in ops) id) (λ refs. remove refs at) (ops_by_position ops) }
    ensures set_live { (id at : ℕ) (x : Value) (ops : List BodyOp) → IsLive (ids_in ops) x → AreLive ops → AreLive (operands_at id (λ xs. slice_set xs at x) ops) }
    ensures inserted_live { (id at : ℕ) (x : Value) (ops : List BodyOp) → IsLive (ids_in ops) x → AreLive ops → AreLive (operands_at id (λ xs. insert xs at x) ops) }
    ensures dropped_live { (id at : ℕ) (ops : List BodyOp) → AreLive ops → AreLive (operands_at id (λ xs. remove xs at) ops) }
{}

/// Does nothing. Its clauses say that where a value stands for a live one, each operand by position that is the one
/// becomes the other, and that the operands stay live where the new value is.
pub fn replacements_by_position()
    ensures replaced { (from to : Value) (ops : List BodyOp) → AreLive ops → IsLive (ids_in ops) from
        → ops_by_position (all_replaced from to ops) ≡ map (retarget (replaced_ref (ref_by (position_of (ids_in ops)) from) (ref_by (position_of (ids_in ops)) to))) (ops_by_position ops) }
    ensures live { (from to : Value) (ops : List BodyOp) → IsLive (ids_in ops) to → AreLive ops → AreLive (all_replaced from to ops) }
{}
