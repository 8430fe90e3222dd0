//! The names of a module's values.
ghost use Rattle.std.specs.Prelude.{◌≡◌, ℕ, cond, nat_eq, OnOk};
ghost use Rattle.mlir_printer.specs.Slots.{slot_for};

use crate::chosen_names::ChosenNames;
use crate::strings::{legal_suffix, stands};
use crate::wanted::{constant_name, instance_name, is_pack, name_count};
use hw_model::kinds::{Instance, Integer, OpKind};
use hw_model::types::Ty;
use ir_store::body::{Body, Op};
use ir_store::design::{Module, Port};
use ir_store::operation::{OpId, Value};
use std::alloc::{AllocError, Global};

/// Where the names of an operation's results stand.
#[derive(Clone, Copy)]
pub struct Slot {
    /// How many names stand before.
    pub first: u32,
    /// How many results are named.
    pub count: usize,
    /// Whether one name stands for all of them.
    pub pack: bool,
}

/// A value as it is printed.
#[derive(Clone, Copy)]
pub struct ValueText<'n> {
    /// Its name, without the sign.
    pub name: &'n [u8],
    /// Its number within a pack.
    pub number: Option<u32>,
}

/// The names of the values of a module: of its input ports, then of its results in the order of
/// the body. Contracts see them by `names_held` and `value_held`.
#[derive(Drop)]
pub struct ValueNames {
    // the names
    names: ChosenNames,
    // of each port the number of its name, of an output none
    ports: Vec<Option<u32>>,
    // of each operation, by its number, where its names stand
    slots: Vec<Slot>,
}

impl ValueNames {
    ghost use Rattle.std.specs.Prelude.{◌≡◌, ℕ, ◌+◌, ◌++◌, ◌∷◌, [], Some, None, length, map, drop, slice_get, IfOk, OnOk};
    ghost use Rattle.hw_model.specs.TypeViews.{type_of};
    ghost use Rattle.hw_model.specs.KindViews.{integer_of, instance_of};
    ghost use Rattle.ir_store.specs.declared.operation.Value.{Value};
    ghost use Rattle.ir_store.specs.Bodies.{ids_of, ops_of, read_parts};
    ghost use Rattle.ir_store.specs.Designs.{port_of, ports_in};
    ghost use Rattle.ir_store.specs.Numbered.{position_of, ref_by};
    ghost use Rattle.mlir_printer.specs.Naming.{input_count, names_given, first_name, value_named};
    ghost use Rattle.printing_laws.specs.NameHints.{constant_name_hint, own_name_hint, instance_name_hints, name_hints, body_name_hints, port_name_hint, port_name_hints};
    ghost use Rattle.mlir_printer.specs.Chosen.{with_name_hint, with_name_hints};
    ghost use Rattle.mlir_printer.specs.Slots.{HaveSlots, slot_at, port_slots};
    ghost use Rattle.mlir_printer.specs.Shown.{parts_in_body};
    ghost use Rattle.mlir_printer.specs.Views.{names_held, chosen_names, value_held, value_of, value_in_slot, port_placed, slot_value};

    /// The names of the values of a module.
    pub fn of(alloc: Global, one: &Module) -> Result<ValueNames, AllocError>
        ensures names { IfOk result (λ v. names_held v ≡ names_given (ports_in one.now.ports) (parts_in_body (ops_of one.now.body))) }
        ensures values { IfOk result (λ v. (x : Value) → value_held v x ≡ value_named (names_held v) (ports_in one.now.ports) (parts_in_body (ops_of one.now.body)) (ref_by (position_of (ids_of one.now.body)) x)) }
    {
        ValueNames::again(alloc, ValueNames::empty(alloc), one)
    }

    /// The names of the values of a module. The memory of `room` is used again.
    pub fn again(alloc: Global, room: ValueNames, one: &Module) -> Result<ValueNames, AllocError>
        ensures names { IfOk result (λ v. names_held v ≡ names_given (ports_in one.now.ports) (parts_in_body (ops_of one.now.body))) }
        ensures values { IfOk result (λ v. (x : Value) → value_held v x ≡ value_named (names_held v) (ports_in one.now.ports) (parts_in_body (ops_of one.now.body)) (ref_by (position_of (ids_of one.now.body)) x)) }
    {
        let mut names = room.into_empty();
        names.add_ports(alloc, &one.ports.ports)?;
        names.add_operations(alloc, &one.body)?;
        Ok(names)
    }

    /// No names. It takes no memory.
    pub fn empty(alloc: Global) -> ValueNames
        ensures names { names_held result ≡ [] }
        ensures numbered { result.names.numbered ≡ 0 }
        ensures ports { result.ports.items ≡ [] }
        ensures slots { result.slots.items ≡ [] }
    {
        ValueNames {
            names: ChosenNames::new(alloc),
            ports: Vec::new(alloc),
            slots: Vec::new(alloc),
        }
    }

    // The same memory without names.
    fn into_empty(self) -> ValueNames
        ensures names { names_held result ≡ [] }
        ensures numbered { result.names.numbered ≡ 0 }
        ensures ports { result.ports.items ≡ [] }
        ensures slots { result.slots.items ≡ [] }
    {
        let ValueNames {
            names,
            mut ports,
            mut slots,
        } = self;
        ports.clear();
        slots.clear();
        ValueNames {
            names: names.into_empty(),
            ports,
            slots,
        }
    }

    // Takes the name of a value that wants one; where it may not stand, as it is spelled then.
    #[tactic(auto, unfolding(crate::specs::Strings::standing))]
    fn take_name(&mut self, alloc: Global, wanted: &[u8]) -> Result<u32, AllocError>
        ensures chosen { OnOk result (chosen_names self.new ≡ with_name_hint (chosen_names self.old) (Some wanted.now)) }
        ensures number { IfOk result (λ n. n ≡ length (names_held self.old)) }
        ensures ports { self.new.ports ≡ self.old.ports }
        ensures slots { self.new.slots ≡ self.old.slots }
    {
        if stands(wanted) {
            return self.names.take_word(wanted);
        }
        let name = legal_suffix(alloc, wanted)?;
        self.names.take_word(name.as_bytes())
    }

    // Takes the own name of a register or a wire.
    fn take_own(&mut self, alloc: Global, own: &[u8]) -> Result<u32, AllocError>
        ensures chosen { OnOk result (chosen_names self.new ≡ with_name_hint (chosen_names self.old) (own_name_hint own.now)) }
        ensures ports { self.new.ports ≡ self.old.ports }
        ensures slots { self.new.slots ≡ self.old.slots }
    {
        if own.is_empty() {
            self.names.take_number()
        } else {
            self.take_name(alloc, own)
        }
    }

    // Takes the names of ports.
    fn add_ports(&mut self, alloc: Global, ports: &[Port]) -> Result<(), AllocError>
        ensures chosen { OnOk result (chosen_names self.new ≡ with_name_hints (chosen_names self.old) (port_name_hints (map port_of ports.now))) }
        ensures ports { OnOk result (self.new.ports.items ≡ self.old.ports.items ++ port_slots (length (names_held self.old)) (map port_of ports.now)) }
        ensures slots { OnOk result (self.new.slots ≡ self.old.slots) }
    {
        for port in ports {
            let name = self.add_port(alloc, port)?;
            self.ports.push(name)?;
        }
        Ok(())
    }

    // Takes the name of a port, where it is an input.
    fn add_port(&mut self, alloc: Global, port: &Port) -> Result<Option<u32>, AllocError>
        ensures chosen { OnOk result (chosen_names self.new ≡ with_name_hints (chosen_names self.old) (port_name_hint (port_of port.now))) }
        ensures number { IfOk result (λ n. n ∷ [] ≡ port_slots (length (names_held self.old)) (port_of port.now ∷ [])) }
        ensures ports { self.new.ports ≡ self.old.ports }
        ensures slots { self.new.slots ≡ self.old.slots }
    {
        if port.out {
            return Ok(None);
        }
        Ok(Some(self.take_name(alloc, port.name.as_bytes())?))
    }

    // Takes the names of the results of a body.
    fn add_operations(&mut self, alloc: Global, body: &Body) -> Result<(), AllocError>
        requires { self.old.slots.items ≡ [] }
        ensures chosen { OnOk result (chosen_names self.new ≡ with_name_hints (chosen_names self.old) (body_name_hints (parts_in_body (ops_of body.now)))) }
        ensures ports { OnOk result (self.new.ports ≡ self.old.ports) }
        ensures slots { OnOk result (HaveSlots (length (names_held self.old)) (ops_of body.now) self.new.slots.items) }
    {
        for id in body.ops() {
            let op = body.op(id);
            let slot = self.add_operation(alloc, &op)?;
            put_slot(&mut self.slots, id.number() as usize, slot)?;
        }
        Ok(())
    }

    // Takes the names of an operation's results, and gives where they stand.
    fn add_operation(&mut self, alloc: Global, op: &Op<'_>) -> Result<Slot, AllocError>
        ensures chosen { OnOk result (chosen_names self.new ≡ with_name_hints (chosen_names self.old) (name_hints (read_parts op.now))) }
        ensures slot { IfOk result (λ slot. slot ≡ slot_at (length (names_held self.old)) (read_parts op.now)) }
        ensures ports { self.new.ports ≡ self.old.ports }
        ensures slots { self.new.slots ≡ self.old.slots }
    {
        let first = self.names.count();
        self.take_results(alloc, op)?;
        let results = op.results.len();
        let pack = is_pack(op.kind, results);
        let count = if pack { results } else { name_count(op) };
        Ok(Slot { first, count, pack })
    }

    // Takes the names of an operation's results.
    #[tactic(auto, unfolding(printing_laws::specs::NameHints::name_hints_of))]
    fn take_results(&mut self, alloc: Global, op: &Op<'_>) -> Result<(), AllocError>
        ensures chosen { OnOk result (chosen_names self.new ≡ with_name_hints (chosen_names self.old) (name_hints (read_parts op.now))) }
        ensures ports { self.new.ports ≡ self.old.ports }
        ensures slots { self.new.slots ≡ self.old.slots }
    {
        match op.kind {
            OpKind::Constant(value) => {
                self.take_constant(alloc, op.types.as_slice(), *value)?;
            }
            OpKind::StructExplode => {
                if op.results.len() > 0 {
                    self.names.take_number()?;
                }
            }
            OpKind::Wire
            | OpKind::CompReg(_)
            | OpKind::CompRegCe(_)
            | OpKind::FirReg(_)
            | OpKind::AsyncFirReg => {
                self.take_own(alloc, op.name.as_bytes())?;
            }
            OpKind::Instance(instance) => self.take_outputs(alloc, instance)?,
            OpKind::Output => {}
            _ => {
                self.names.take_number()?;
            }
        }
        Ok(())
    }

    // Takes the name of a constant of the first of some types.
    fn take_constant(
        &mut self,
        alloc: Global,
        types: &[Ty],
        value: Integer,
    ) -> Result<u32, AllocError>
        ensures chosen { OnOk result (chosen_names self.new ≡ with_name_hint (chosen_names self.old) (constant_name_hint (map type_of types.now) (integer_of value))) }
        ensures ports { self.new.ports ≡ self.old.ports }
        ensures slots { self.new.slots ≡ self.old.slots }
    {
        match types.first() {
            Some(ty) => self.take_typed(alloc, ty, value),
            None => self.names.take_number(),
        }
    }

    // Takes the name of a constant of a type.
    fn take_typed(&mut self, alloc: Global, ty: &Ty, value: Integer) -> Result<u32, AllocError>
        ensures chosen { OnOk result (chosen_names self.new ≡ with_name_hint (chosen_names self.old) (constant_name_hint (type_of ty.now ∷ []) (integer_of value))) }
        ensures ports { self.new.ports ≡ self.old.ports }
        ensures slots { self.new.slots ≡ self.old.slots }
    {
        match ty {
            Ty::Int(width) => {
                let name = constant_name(alloc, *width, value)?;
                self.take_name(alloc, name.as_bytes())
            }
            Ty::Clock | Ty::Array(..) | Ty::Struct(_) => self.names.take_number(),
        }
    }

    // Takes the names of an instance's results.
    fn take_outputs(&mut self, alloc: Global, instance: &Instance) -> Result<(), AllocError>
        ensures chosen { OnOk result (chosen_names self.new ≡ with_name_hints (chosen_names self.old) (instance_name_hints (instance_of instance.now).name (instance_of instance.now).outputs)) }
        ensures ports { self.new.ports ≡ self.old.ports }
        ensures slots { self.new.slots ≡ self.old.slots }
    {
        for port in &instance.outputs {
            let name = instance_name(alloc, instance.name.as_bytes(), port.as_bytes())?;
            self.take_name(alloc, name.as_bytes())?;
        }
        Ok(())
    }

    /// The name after so many others; the empty one where there is none.
    pub fn nth(&self, number: usize) -> &[u8]
        ensures { result.now ≡ first_name (drop number (names_held self.now)) }
    {
        self.names.nth(number)
    }

    /// The name after so many others and so many more; the empty one where there is none.
    pub fn after(&self, first: u32, number: usize) -> &[u8]
        ensures { result.now ≡ first_name (drop (first + number) (names_held self.now)) }
    {
        match (first as usize).checked_add(number) {
            Some(number) => self.nth(number),
            None => &[],
        }
    }

    // Where the names of the results of an operation of this id stand.
    fn slot(&self, id: OpId) -> Option<Slot>
        ensures { result ≡ slice_get self.now.slots.items id.index }
    {
        self.slots.get(id.number() as usize).copied()
    }

    /// A value as it is printed; what nothing defines has the empty name.
    #[tactic(auto, unfolding(crate::specs::Views::value_held))]
    pub fn value(&self, value: Value) -> ValueText<'_>
        ensures { value_of result ≡ value_held self.now value }
    {
        match value {
            Value::Port(port) => self.port(port),
            Value::Result(id, number) => self.result(id, number),
            Value::Undefined => ValueText {
                name: &[],
                number: None,
            },
        }
    }

    // The value of a port.
    fn port(&self, port: u32) -> ValueText<'_>
        ensures { value_of result ≡ port_placed (names_held self.now) (slice_get self.now.ports.items port) }
    {
        match self.ports.get(port as usize) {
            Some(Some(number)) => ValueText {
                name: self.nth(*number as usize),
                number: None,
            },
            Some(None) | None => ValueText {
                name: &[],
                number: None,
            },
        }
    }

    // A result of an operation.
    fn result(&self, id: OpId, number: u32) -> ValueText<'_>
        ensures { value_of result ≡ value_in_slot (names_held self.now) (slice_get self.now.slots.items id.index) number }
    {
        match self.slot(id) {
            Some(slot) => self.slot_name(slot, number),
            None => ValueText {
                name: &[],
                number: None,
            },
        }
    }

    // A result of the operation of a slot.
    fn slot_name(&self, slot: Slot, number: u32) -> ValueText<'_>
        ensures { value_of result ≡ slot_value (names_held self.now) slot number }
    {
        if (number as usize) >= slot.count {
            return ValueText {
                name: &[],
                number: None,
            };
        }
        if slot.pack {
            return ValueText {
                name: self.nth(slot.first as usize),
                number: Some(number),
            };
        }
        ValueText {
            name: self.nth(slot.first as usize + number as usize),
            number: None,
        }
    }
}

// Puts a slot at a position, after empty ones where there are fewer.
fn put_slot(slots: &mut Vec<Slot>, position: usize, slot: Slot) -> Result<(), AllocError>
    ensures { OnOk result ((id : ℕ) → slot_for slots.new.items id ≡ cond (nat_eq position id) slot (slot_for slots.old.items id)) }
{
    for _ in slots.len()..position {
        slots.push(Slot {
            first: 0,
            count: 0,
            pack: false,
        })?;
    }
    if position < slots.len() {
        slots[position] = slot;
    } else {
        slots.push(slot)?;
    }
    Ok(())
}
