//! The body of a module while its text is read.
ghost use Rattle.std.specs.Prelude.{◌≡◌, ◌≤◌, ◌+◌, ◌∷◌, ◌++◌, [], drop, length, map, IfOk, IfSome, OnOk};
ghost use Rattle.ir_store.specs.Bodies.{ops_of, gaps};
ghost use Rattle.ir_store.specs.Numbered.{ref_by, op_by};
ghost use Rattle.mlir_reader.specs.Drafts.{found_count};
ghost use Rattle.mlir_reader.specs.Held.{IsNumbered, IsSettled, AreSettled, with_operands};
ghost use Rattle.mlir_reader.specs.Marked.{operation_marked};
ghost use Rattle.mlir_reader.specs.Meanings.{meanings_of, op_of, HasFewNames};
ghost use Rattle.mlir_reader.specs.Resolving.{Meanings};
ghost use Rattle.mlir_operations.specs.Views.{operand_of, operation_of};

use crate::definitions::{Marks, define_operation};
use crate::dictionaries::kept_entries;
use crate::kinds::kind_named;
use crate::names::Names;
use crate::own_names::own_name;
use crate::resolving::{named_count, resolved_operands, value_of};
use crate::results::results_of;
use crate::sizes::has_few_names;
use ir_store::body::Body;
use ir_store::operation::{NewOp, Value};
use mlir_operations::syntax::{Gathered, OperandName, OperationText};
use smallvec::SmallVec;
use std::alloc::{AllocError, Global};
use std::collections::VecDeque;

// The most operations of a body for which room is made at once.
const FEW_OPERATIONS: u32 = 16;

// For how many operations that wait room is not given back.
const MUCH_WAITING: usize = 64;

// The operands of an operation.
type Operands = SmallVec<Value, 4, Global>;

/// An operation whose operands are still names.
#[derive(Drop)]
pub struct DraftOperation<'s> {
    /// The operation, without operands.
    pub operation: NewOp,
    /// The names of its operands.
    pub operands: SmallVec<OperandName<'s>, 4, Global>,
}

/// A body of which a prefix is read. An operation is put into it as soon as the names of its operands stand for
/// something, and so do those of all before it; until then it waits. Contracts see it by `Drafts`.
#[derive(Drop)]
pub struct Draft<'s> {
    pub(crate) names: Names<'s>,
    pub(crate) count: u32,
    // How many operations the body will likely have.
    pub(crate) likely: u32,
    pub(crate) body: Body,
    pub(crate) waiting: VecDeque<DraftOperation<'s>>,
    // Of the first that waits, how many operands were found to stand for something, so that no search begins with them
    // again.
    pub(crate) found: usize,
}

impl<'s> Draft<'s> {
    ghost use Rattle.std.specs.Prelude.{◌≡◌, [], ◌∷◌, ◌++◌, List, map, IfOk, OnOk};
    ghost use Rattle.ir_store.specs.Numbered.{ref_by};
    ghost use Rattle.mlir_reader.specs.Drafts.{Drafts, IsBody};
    ghost use Rattle.mlir_reader.specs.Held.{FirstSettled, HoldsSame, HoldsMore};
    ghost use Rattle.mlir_reader.specs.Meanings.{meanings_of};
    ghost use Rattle.mlir_operations.specs.OperationText.{OperationText as Operation};
    ghost use Rattle.mlir_reader.specs.Resolving.{Meanings};
    ghost use Rattle.mlir_operations.specs.Views.{operation_of};

    /// A body of which nothing is read, after ports whose names stand for something. It will likely have so many
    /// operations. It takes no memory.
    pub fn new(alloc: Global, names: Names<'s>, likely: u32) -> Draft<'s>
        ensures { Drafts (meanings_of names.entry) [] result }
    {
        Draft {
            names,
            count: 0,
            likely,
            body: Body::new(alloc),
            waiting: VecDeque::new(alloc),
            found: 0,
        }
    }

    /// Puts an operation after the others. On an error the draft may be thrown away. An operation with 2^32 named
    /// results or more, and a body with as many operations, which no text that is read has, count as out of memory.
    pub fn add(&mut self, alloc: Global, text: OperationText<'s>) -> Result<(), AllocError>
        ensures { OnOk result ((seen : Meanings) → (os : List Operation) → Drafts seen os self.old → Drafts seen (os ++ operation_of text.entry ∷ []) self.new) }
    {
        if self.count >= u32::MAX - 1 || !has_few_names(&text) {
            return Err(AllocError);
        }
        make_room(&mut self.body, self.count, self.likely)?;
        let mut marks: Marks = SmallVec::new(alloc);
        define_operation(&mut self.names, self.count, &text, &mut marks)?;
        self.count += 1;
        self.put(alloc, marks.as_slice(), text)?;
        Ok(())
    }

    /// The body, of which all is read, and its names. Names that stand for nothing are undefined.
    pub fn finish(self, alloc: Global) -> Result<(Body, Names<'s>), AllocError>
        ensures { IfOk result (λ whole. (seen : Meanings) → (os : List Operation) → Drafts seen os self.entry → IsBody seen os whole.0) }
    {
        let Draft {
            names,
            count: _,
            likely: _,
            body,
            waiting,
            found: _,
        } = self;
        let mut body = body;
        for draft in waiting {
            let operands = resolved_operands(alloc, &names, draft.operands.as_slice())?;
            put_in(&mut body, whole_operation(draft, operands))?;
        }
        Ok((body, names))
    }

    // Puts an operation whose names are defined, and have these marks, into the body where it need not wait, and else
    // after those that wait.
    fn put(
        &mut self,
        alloc: Global,
        marks: &[bool],
        text: OperationText<'s>,
    ) -> Result<(), AllocError>
        requires { HasFewNames text }
        ensures { OnOk result (HoldsMore self.old (λ later. operation_marked later marks.now (operation_of text.entry)) self.new) }
    {
        if !self.waiting.is_empty() {
            self.wait(alloc, marks, text)?;
            return self.settle(alloc);
        }
        match settled_operands(alloc, &self.names, text.gathered.operands.as_slice())? {
            Some(operands) => {
                let operation = new_operation(alloc, marks, operands, text)?;
                put_in(&mut self.body, operation)?;
                Ok(())
            }
            None => self.wait(alloc, marks, text),
        }
    }

    // Puts an operation whose names have these marks after those that wait.
    fn wait(
        &mut self,
        alloc: Global,
        marks: &[bool],
        text: OperationText<'s>,
    ) -> Result<(), AllocError>
        requires { HasFewNames text }
        ensures { OnOk result (HoldsMore self.old (λ later. operation_marked later marks.now (operation_of text.entry)) self.new) }
    {
        let operands = SmallVec::from_slice(alloc, text.gathered.operands.as_slice())?;
        let operation = new_operation(alloc, marks, SmallVec::new(alloc), text)?;
        self.waiting.push_back(DraftOperation {
            operation,
            operands,
        })?;
        Ok(())
    }

    // Puts those that need not wait any more into the body.
    fn settle(&mut self, alloc: Global) -> Result<(), AllocError>
        ensures { OnOk result (HoldsSame self.old self.new) }
    {
        for _ in 0..self.waiting.len() {
            if !self.settle_first(alloc)? {
                break;
            }
        }
        Ok(())
    }

    // Puts the first that waits into the body, where it need not wait any more, and says whether that is so.
    fn settle_first(&mut self, alloc: Global) -> Result<bool, AllocError>
        ensures { OnOk result (HoldsSame self.old self.new) }
    {
        let Some(first) = self.waiting.front() else {
            return Ok(false);
        };
        let names = first.operands.as_slice();
        self.found = first_unfound(&self.names, names, self.found);
        if self.found < names.len() {
            return Ok(false);
        }
        match settled_operands(alloc, &self.names, names)? {
            Some(operands) => self.put_first(operands),
            None => Ok(false),
        }
    }

    // Puts the first that waits into the body, with these operands, and says whether there is one.
    fn put_first(&mut self, operands: Operands) -> Result<bool, AllocError>
        ensures { OnOk result (FirstSettled (meanings_of self.old.names) self.old.waiting.items (map (ref_by (λ i. i)) operands.items) → HoldsSame self.old self.new) }
    {
        match self.waiting.pop_front() {
            Some(first) => {
                self.found = 0;
                give_back(&mut self.waiting);
                put_in(&mut self.body, whole_operation(first, operands))?;
                Ok(true)
            }
            None => Ok(false),
        }
    }
}

// An operation whose names have these marks, with these operands.
fn new_operation(
    alloc: Global,
    marks: &[bool],
    operands: Operands,
    text: OperationText<'_>,
) -> Result<NewOp, AllocError>
    requires { HasFewNames text }
    ensures { IfOk result (λ op. (later : Meanings) → op_of op ≡ with_operands (operation_marked later marks.now (operation_of text.entry)) (map (ref_by (λ i. i)) operands.items)) }
{
    let name = own_name(alloc, text.name, &text.results, &text.dictionary)?;
    let named = named_count(&text.results);
    let Gathered {
        operands: names,
        types,
        inherent,
    } = text.gathered;
    let kind = kind_named(alloc, text.name, inherent, types.as_slice())?;
    let results = results_of(alloc, &kind, types.as_slice(), names.len(), marks)?;
    let dictionary = kept_entries(alloc, text.name, text.dictionary)?;
    Ok(NewOp {
        kind,
        operands,
        types,
        results,
        named,
        name,
        dictionary,
        bin: text.bin,
        location: text.location,
    })
}

// An operation that waited, with its operands.
fn whole_operation(draft: DraftOperation<'_>, operands: Operands) -> NewOp
    ensures { op_of result ≡ with_operands (op_of draft.entry.operation) (map (ref_by (λ i. i)) operands.items) }
{
    let mut operation = draft.operation;
    operation.operands = operands;
    operation
}

// Makes room in a body for as many operations as it will likely have, where none is read; the lists of a body grow by
// doubling.
fn make_room(body: &mut Body, read: u32, likely: u32) -> Result<(), AllocError>
    ensures ops { OnOk result (ops_of body.new ≡ ops_of body.old) }
    ensures gaps { OnOk result (gaps body.new ≡ gaps body.old) }
{
    if read > 0 {
        return Ok(());
    }
    let few = likely.min(FEW_OPERATIONS);
    body.reserve(few, few * 2)
}

// Puts an operation after those of a body. A body of 2^32 operations or more counts as out of memory.
fn put_in(body: &mut Body, operation: NewOp) -> Result<(), AllocError>
    ensures ops { OnOk result (map (op_by (λ i. i)) (ops_of body.new) ≡ map (op_by (λ i. i)) (ops_of body.old) ++ op_of operation ∷ []) }
    ensures numbered { OnOk result (IsNumbered body.old → IsNumbered body.new) }
{
    if body.op_count() >= u32::MAX as usize {
        return Err(AllocError);
    }
    body.add_op(None, operation)?;
    Ok(())
}

// Gives the room of those that waited back, where it is much and more than half of it is free.
fn give_back(waiting: &mut VecDeque<DraftOperation<'_>>)
    ensures { waiting.new.items ≡ waiting.old.items }
{
    let room = waiting.capacity();
    if room > MUCH_WAITING && waiting.len() < room / 8 * 3 {
        waiting.shrink_to_fit();
    }
}

// Where, from a location on, the first operand stands whose name stands for nothing, or how many operands there are.
fn first_unfound(names: &Names<'_>, operands: &[OperandName<'_>], from: usize) -> usize
    ensures { from ≤ length operands.now → result ≡ from + found_count (meanings_of names.now) (drop from (map operand_of operands.now)) }
{
    for index in from..operands.len() {
        if names.find(operands[index].name).is_none() {
            return index;
        }
    }
    operands.len()
}

// The values that operands name, or none where the name of one stands for nothing.
fn settled_operands<'s>(
    alloc: Global,
    names: &Names<'s>,
    operands: &[OperandName<'s>],
) -> Result<Option<Operands>, AllocError>
    ensures { IfOk result (λ found. IfSome found (λ values. AreSettled (meanings_of names.now) (map operand_of operands.now) (map (ref_by (λ i. i)) values.items))) }
{
    let mut values = SmallVec::new(alloc);
    values.reserve(operands.len())?;
    for operand in operands {
        match value_of_operand(names, *operand) {
            Some(value) => values.push(value)?,
            None => return Ok(None),
        }
    }
    Ok(Some(values))
}

// The value that an operand names, where its name stands for something.
fn value_of_operand(names: &Names<'_>, operand: OperandName<'_>) -> Option<Value>
    ensures { IfSome result (λ value. IsSettled (meanings_of names.now) (operand_of operand.entry) (ref_by (λ i. i) value)) }
{
    match names.find(operand.name) {
        Some(defined) => Some(value_of(defined, operand.number)),
        None => None,
    }
}
