//! The uses of a value among the operands of a body.
use crate::blocks::position_within;
use crate::operands::OperandTable;
use crate::operation::{OpId, UsePosition, Value, is_result_of};
use linked_lists::links::{Link, NONE, is_live};

impl OperandTable {
    ghost use Rattle.std.specs.Prelude.{◌≡◌, ℕ, ◌+◌, [], ◌∷◌, ◌++◌, slice_index_or, true, false, ◌&&◌, List, Contains, IfSome, Some};
    ghost use Rattle.ir_store.specs.Blocks.{position_in};
    ghost use Rattle.linked_lists.specs.Chains.{cell_or_none, once_if};
    ghost use Rattle.ir_store.specs.ChainedValues.{cells_of, has_value, rest_at};
    ghost use Rattle.linked_lists.specs.declared.links.Link.{Link};
    ghost use Rattle.ir_store.specs.declared.operation.UsePosition.{UsePosition};
    ghost use Rattle.linked_lists.specs.Links.{is_live_at};
    ghost use Rattle.ir_store.specs.declared.operation.Value.TheVariants.{Undefined};
    ghost use Rattle.ir_store.specs.Uses.{IsNamedLive, IsUseCell, use_times, use_of, positions_of, live_cells, names_at};
    ghost use Rattle.linked_lists.specs.Ids.{times};
    ghost use Rattle.ir_store.specs.BodyOps.{names_in};

    /// The first cell that has a value, in a list or not. Linear in the cells before it in the chain of the value's head.
    pub fn first(&self, value: Value) -> Option<u32>
        ensures first { result ≡ cell_or_none (cells_of value self.now.cells) }
        ensures each { (cell : ℕ) → times cell (cells_of value self.now.cells) ≡ once_if (has_value value self.now.cells.items cell) }
        ensures uses { (links : List Link) (p : UsePosition) → use_times p (positions_of links self.now.owners self.now.blocks (cells_of value self.now.cells)) ≡ once_if (is_live_at links p.op.index && has_value value (slice_index_or self.now.lists p.op.index []) p.at) }
    {
        self.cells.values.first(value)
    }

    /// The cell after this one that has the same value, where there is one.
    pub fn next(&self, value: Value, cell: u32) -> Option<u32>
        requires { Contains (cells_of value self.now.cells) cell }
        ensures next { (xs ys : List ℕ) → cells_of value self.now.cells ≡ xs ++ cell ∷ ys → result ≡ cell_or_none ys }
        ensures each { (other : ℕ) → times other (cells_of value self.now.cells) ≡ once_if (has_value value self.now.cells.items other) }
    {
        self.cells.values.next(value, cell)
    }

    /// The first cell of a value that is an operand of a live operation.
    pub fn first_use(&self, value: Value, links: &[Link]) -> Option<u32>
        ensures first { result ≡ cell_or_none (live_cells links.now self.now.owners self.now.blocks (cells_of value self.now.cells)) }
        ensures left { live_cells links.now self.now.owners self.now.blocks (rest_at result (cells_of value self.now.cells)) ≡ live_cells links.now self.now.owners self.now.blocks (cells_of value self.now.cells) }
        ensures is_use { IfSome result (λ c. IsUseCell value links.now self.now c) }
    {
        self.seek_use(value, self.first(value), links)
    }

    /// The one after a cell that is an operand of a live operation.
    pub fn next_use(&self, cell: u32, links: &[Link]) -> Option<u32>
        requires { IsUseCell (slice_index_or self.now.cells.items cell Undefined) links.now self.now cell }
        ensures left { live_cells links.now self.now.owners self.now.blocks (rest_at (Some cell) (cells_of (slice_index_or self.now.cells.items cell Undefined) self.now.cells)) ≡ cell ∷ live_cells links.now self.now.owners self.now.blocks (rest_at result (cells_of (slice_index_or self.now.cells.items cell Undefined) self.now.cells)) }
        ensures first { result ≡ cell_or_none (live_cells links.now self.now.owners self.now.blocks (rest_at result (cells_of (slice_index_or self.now.cells.items cell Undefined) self.now.cells))) }
        ensures is_use { IfSome result (λ c. IsUseCell (slice_index_or self.now.cells.items cell Undefined) links.now self.now c) }
    {
        let value = self.value(cell);
        self.seek_use(value, self.next(value, cell), links)
    }

    /// The first cell of a value from one on that is an operand of a live operation.
    fn seek_use(&self, value: Value, from: Option<u32>, links: &[Link]) -> Option<u32>
        requires { IfSome from (λ c. Contains (cells_of value self.now.cells) c) }
        ensures first { result ≡ cell_or_none (live_cells links.now self.now.owners self.now.blocks (rest_at from (cells_of value self.now.cells))) }
        ensures left { live_cells links.now self.now.owners self.now.blocks (rest_at result (cells_of value self.now.cells)) ≡ live_cells links.now self.now.owners self.now.blocks (rest_at from (cells_of value self.now.cells)) }
        ensures is_use { IfSome result (λ c. IsUseCell value links.now self.now c) }
    {
        let mut at = from;
        while let Some(cell) = at {
            if self.use_of(cell, links).is_some() {
                return Some(cell);
            }
            at = self.next(value, cell);
        }
        None
    }

    /// The value of a cell.
    fn value(&self, cell: u32) -> Value
        ensures { result ≡ slice_index_or self.now.cells.items cell Undefined }
    {
        match self.cells.values.as_slice().get(cell as usize) {
            Some(value) => *value,
            None => Value::Undefined,
        }
    }

    /// Whether an operand of a live operation is a result of the operation `op`. Linear in the chain of the head that its
    /// results have.
    pub fn is_named(&self, op: OpId, links: &[Link]) -> bool
        ensures some { result ≡ true → IsNamedLive links.now self.now.lists op.index }
        ensures none { result ≡ false → (i : ℕ) → is_live_at links.now i ≡ true → names_in op.index (slice_index_or self.now.lists i []) ≡ false }
    {
        let mut at = self.cells.values.first_near(Value::Result(op, 0));
        while let Some(cell) = at {
            if self.names(cell, op, links) {
                return true;
            }
            at = self.cells.values.next_near(cell);
        }
        false
    }

    /// Whether a cell is an operand of a live operation that is a result of the operation `op`.
    fn names(&self, cell: u32, op: OpId, links: &[Link]) -> bool
        ensures { result ≡ names_at links.now self.now.owners self.now.blocks self.now.cells.items op.index cell }
    {
        match self.cells.values.as_slice().get(cell as usize) {
            Some(value) => is_result_of(*value, op) && self.use_of(cell, links).is_some(),
            None => false,
        }
    }

    /// The position of a cell among the operands of a live operation, where it is one of them, in constant time.
    pub fn use_of(&self, cell: u32, links: &[Link]) -> Option<UsePosition>
        ensures { result ≡ use_of links.now self.now.owners self.now.blocks cell }
    {
        match self.position_of(cell) {
            Some(position) => if is_live(links, position.op.index) {
                Some(position)
            } else {
                None
            },
            None => None,
        }
    }

    /// The position of a cell in the list that has it, where one has it, in constant time.
    fn position_of(&self, cell: u32) -> Option<UsePosition>
        ensures { result ≡ position_in self.now.owners self.now.blocks cell }
    {
        let owner = match self.cells.owners.get(cell as usize) {
            Some(owner) => *owner,
            None => NONE,
        };
        position_within(owner, self.block(owner as usize), cell)
    }
}
