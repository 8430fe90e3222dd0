//! Changes of the operands of an operation.
use crate::blocks::Block;
use crate::operands::OperandTable;
use crate::operation::Value;

impl OperandTable {
    ghost use Rattle.std.specs.Prelude.{◌≡◌, ◌+◌, ◌≤◌, ◌<◌, ◌^◌, [], ◌∷◌, ◌++◌, length, take, drop, insert, remove, slice_index_or, slice_set, map};
    ghost use Rattle.ir_store.specs.Blocks.{block_at};
    ghost use Rattle.linked_lists.specs.Ids.{put_at};
    ghost use Rattle.ir_store.specs.BodyOps.{replace_value};

    /// Puts `list` in the place of list `i`, where there is room for it, or after the others. Linear in both lists, and
    /// constant on average in the number of operands.
    pub fn put(&mut self, i: usize, list: &[Value])
        requires position { i ≤ length self.old.lists }
        requires few { i < 2 ^ 32 }
        requires list_room { length self.old.lists ≤ i → 1 ≤ self.old.list_room }
        requires room { length list.now ≤ self.old.room }
        ensures lists { self.new.lists ≡ put_at i list.now self.old.lists }
        ensures list_room { self.old.list_room + length self.old.lists ≤ self.new.list_room + length self.new.lists }
        ensures room { self.old.room ≤ self.new.room + length list.now }
    {
        self.open(i);
        self.make_tail(list.len());
        self.place(i, list);
    }

    /// Puts an empty list in the place of list `i`, or after the others.
    fn open(&mut self, i: usize)
        requires position { i ≤ length self.old.lists }
        requires few { i < 2 ^ 32 }
        requires list_room { length self.old.lists ≤ i → 1 ≤ self.old.list_room }
        ensures lists { self.new.lists ≡ put_at i [] self.old.lists }
        ensures list_room { self.old.list_room + length self.old.lists ≤ self.new.list_room + length self.new.lists }
        ensures room { self.old.room ≤ self.new.room }
    {
        if i == self.blocks.len() {
            self.add_empty();
        } else {
            self.clear(i);
        }
    }

    /// Puts an empty list after the others.
    fn add_empty(&mut self)
        requires few { length self.old.lists < 2 ^ 32 }
        requires list_room { 1 ≤ self.old.list_room }
        ensures lists { self.new.lists ≡ self.old.lists ++ [] ∷ [] }
        ensures list_room { self.old.list_room ≡ self.new.list_room + 1 }
        ensures room { self.old.room ≡ self.new.room }
    {
        self.blocks.push_reserved(Block { start: 0, len: 0 });
    }

    /// Puts `list` in the place of list `i`, which is empty, where there is room for it after the last cell.
    fn place(&mut self, i: usize, list: &[Value])
        requires list { i < length self.old.lists }
        requires empty { slice_index_or self.old.lists i [] ≡ [] }
        requires tail { length list.now ≤ self.old.tail }
        ensures lists { self.new.lists ≡ slice_set self.old.lists i list.now }
        ensures list_room { self.old.list_room ≡ self.new.list_room }
        ensures room { self.old.room ≡ self.new.room + length list.now }
    {
        let start = self.cells.end();
        self.cells.push_all(list, i as u32);
        let len = self.cells.end() - start;
        self.blocks[i] = Block { start, len };
        self.live += list.len();
    }

    /// Puts `value` in at the position `at` of list `i`, where there is room for it. Linear in the list, and constant on
    /// average in the number of operands.
    pub fn insert(&mut self, i: usize, at: usize, value: Value)
        requires list { i < length self.old.lists }
        requires position { at ≤ length (slice_index_or self.old.lists i []) }
        requires room { 1 ≤ self.old.room }
        ensures lists { self.new.lists ≡ slice_set self.old.lists i (insert (slice_index_or self.old.lists i []) at value) }
        ensures list_room { self.new.list_room ≡ self.old.list_room }
        ensures room { self.old.room ≤ self.new.room + 1 }
    {
        let count = self.get(i).len();
        let start = self.lift(i);
        self.place_with(i, start, count, at, value);
    }

    /// Takes the operands of list `i` out and makes room for them and one more after the last cell. They are among those
    /// that are kept, from the position on that it gives.
    fn lift(&mut self, i: usize) -> usize
        requires list { i < length self.old.lists }
        requires room { 1 ≤ self.old.room }
        ensures lists { self.new.lists ≡ slice_set self.old.lists i [] }
        ensures list_room { self.new.list_room ≡ self.old.list_room }
        ensures room { self.old.room + length (slice_index_or self.old.lists i []) ≤ self.new.room }
        ensures tail { length (slice_index_or self.old.lists i []) + 1 ≤ self.new.tail }
        ensures kept { take (length (slice_index_or self.old.lists i [])) (drop result self.new.spare) ≡ slice_index_or self.old.lists i [] }
        ensures within { result + length (slice_index_or self.old.lists i []) ≤ length self.new.spare }
    {
        let block = self.blocks[i];
        if (block.len as usize) < self.tail() {
            self.keep(i);
            self.clear(i);
            0
        } else {
            self.keep_all();
            self.clear(i);
            self.refill();
            block.start as usize
        }
    }

    /// Puts list `i`, which is empty, after the last cell: those that are kept from a position on, and `value` among them.
    fn place_with(&mut self, i: usize, start: usize, count: usize, at: usize, value: Value)
        requires list { i < length self.old.lists }
        requires empty { slice_index_or self.old.lists i [] ≡ [] }
        requires within { start + count ≤ length self.old.spare }
        requires position { at ≤ count }
        requires tail { count + 1 ≤ self.old.tail }
        ensures lists { self.new.lists ≡ slice_set self.old.lists i (insert (take count (drop start self.old.spare)) at value) }
        ensures list_room { self.old.list_room ≡ self.new.list_room }
        ensures room { self.old.room ≡ self.new.room + (count + 1) }
    {
        let first = self.cells.end();
        let kept = &self.spare[start..start + count];
        self.cells.push_with(kept, at, value, i as u32);
        let len = self.cells.end() - first;
        self.blocks[i] = Block { start: first, len };
        self.live += count + 1;
    }

    /// Takes operand `at` of list `i` out. Linear in the list.
    pub fn remove(&mut self, i: usize, at: usize)
        requires list { i < length self.old.lists }
        requires position { at < length (slice_index_or self.old.lists i []) }
        ensures lists { self.new.lists ≡ slice_set self.old.lists i (remove (slice_index_or self.old.lists i []) at) }
        ensures list_room { self.new.list_room ≡ self.old.list_room }
        ensures room { self.new.room ≡ self.old.room + 1 }
    {
        let block = self.blocks[i];
        let start = block.start as usize;
        self.cells
            .close_gap(start + at, start + (block.len as usize - 1));
        self.blocks[i].len = block.len - 1;
        self.live -= 1;
    }

    /// Takes all operands of list `i` out. Linear in the list.
    pub fn clear(&mut self, i: usize)
        requires { i < length self.old.lists }
        ensures lists { self.new.lists ≡ slice_set self.old.lists i [] }
        ensures list_room { self.new.list_room ≡ self.old.list_room }
        ensures room { self.old.room + length (slice_index_or self.old.lists i []) ≡ self.new.room }
        ensures tail { self.new.tail ≡ self.old.tail }
        ensures blocks { self.new.blocks ≡ slice_set self.old.blocks i (record { start = (block_at self.old.blocks i).start; len = 0 }) }
        ensures spare { self.new.spare ≡ self.old.spare }
    {
        let block = self.blocks[i];
        self.cells.wipe(block.start as usize, block.len as usize);
        self.blocks[i].len = 0;
        self.live -= block.len as usize;
    }

    /// Puts `to` in the place of each `from`. Linear in the chain of the head of `from`.
    pub fn replace(&mut self, from: Value, to: Value)
        ensures lists { self.new.lists ≡ map (map (replace_value from to)) self.old.lists }
        ensures room { (self.new.list_room ≡ self.old.list_room) × (self.new.room ≡ self.old.room) }
    {
        self.cells.values.replace(from, to);
    }

    /// Puts `value` in the place `at` of list `i`, in constant time.
    pub fn set(&mut self, i: usize, at: usize, value: Value)
        requires list { i < length self.old.lists }
        requires position { at < length (slice_index_or self.old.lists i []) }
        ensures lists { self.new.lists ≡ slice_set self.old.lists i (slice_set (slice_index_or self.old.lists i []) at value) }
        ensures room { (self.new.list_room ≡ self.old.list_room) × (self.new.room ≡ self.old.room) }
    {
        let start = self.blocks[i].start as usize;
        self.cells.set(start + at, value);
    }
}
