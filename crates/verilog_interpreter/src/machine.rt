//! Runs the modules of a Verilog text by cycles, for tests (IEEE 1364-2005, 6.1: continuous assignments; 9.2.2:
//! nonblocking assignments; 9.7: event control; 12.3: ports): nets are settled by passes over what drives them until all have values. That
//! it does what `specs/` says is not proved, only that it is safe and ends.
use crate::fault::{Fault, require, require_some};
use crate::registers::{next_value, rise_value};
use crate::shapes::Shape;
use crate::tree::{
    Always, Connection, Declared, Expression, Instance, Item, Module, Role, find_module, only_name,
    position_of,
};
use crate::values::{Scope, assigned_value, extend, is_known, low_bits};
use bits_core::Bits;
use std::alloc::Global;

/// How deeply instances nest at most.
const MOST_NESTED: u32 = 64;

/// How many nets a flattened module has at most.
const MOST_NETS: usize = 100_000;

// What gives a net its value.
#[derive(Clone, Copy)]
enum Source<'p> {
    Input(usize),
    Held(usize),
    Given { start: usize, value: &'p Expression },
    Net(usize),
}

// A net and what drives it.
#[derive(Clone, Copy)]
struct Driver<'p> {
    target: usize,
    source: Source<'p>,
}

// A register of the flattened module, the nets of its module beginning at a position.
#[derive(Clone, Copy)]
struct Slot<'p> {
    start: usize,
    register: &'p Always,
}

/// A flattened module: the widths of its nets, what drives them, its registers in text order, and its outputs.
#[derive(Drop)]
pub struct Machine<'p> {
    widths: Vec<u32>,
    drivers: Vec<Driver<'p>>,
    registers: Vec<Slot<'p>>,
    outputs: Vec<usize>,
}

/// What a step gives.
#[derive(Drop)]
pub struct Stepped {
    /// The words of the outputs, in port order.
    pub outputs: Vec<Bits>,
    /// The words of the registers after the step.
    pub content: Vec<Bits>,
}

// The sum of two positions.
fn sum(a: usize, b: usize) -> Result<usize, Fault> {
    require_some(a.checked_add(b))
}

impl<'p> Machine<'p> {
    /// The flattened module of this name.
    ///
    /// `Unreadable` where there is none, an instance's module or port is missing, or instances nest too deeply.
    pub fn new<'t>(
        alloc: Global,
        modules: &'p [Module<'t>],
        top: &[u8],
    ) -> Result<Machine<'p>, Fault> {
        let module = require_some(find_module(modules, top))?;
        let mut machine = Machine {
            widths: Vec::new(alloc),
            drivers: Vec::new(alloc),
            registers: Vec::new(alloc),
            outputs: Vec::new(alloc),
        };
        machine.nets_of(module.declared.as_slice())?;
        machine.top_ports(module.declared.as_slice())?;
        machine.items(modules, module, 0, MOST_NESTED)?;
        Ok(machine)
    }

    // Puts a net for each declared name after those that are there, and says where they begin.
    fn nets_of(&mut self, declared: &[Declared]) -> Result<usize, Fault> {
        let start = self.widths.len();
        for thing in declared {
            require(self.widths.len() < MOST_NETS)?;
            self.widths.push(thing.width)?;
        }
        Ok(start)
    }

    // The inputs and outputs of the top module.
    fn top_ports(&mut self, declared: &[Declared]) -> Result<(), Fault> {
        let mut inputs: usize = 0;
        for (target, thing) in declared.iter().enumerate() {
            match thing.role {
                Role::Input => {
                    self.drive(target, Source::Input(inputs))?;
                    inputs = sum(inputs, 1)?;
                }
                Role::Output => self.outputs.push(target)?,
                Role::Wire | Role::Reg => (),
            }
        }
        Ok(())
    }

    fn drive(&mut self, target: usize, source: Source<'p>) -> Result<(), Fault> {
        self.drivers.push(Driver { target, source })?;
        Ok(())
    }

    // What the items of a module drive, its nets beginning at a position.
    #[cycle(flattening)]
    fn items<'t>(
        &mut self,
        modules: &'p [Module<'t>],
        module: &'p Module<'t>,
        start: usize,
        room: u32,
    ) -> Result<(), Fault> {
        for item in module.items.as_slice() {
            match item {
                Item::Assign { target, value } => {
                    let target = sum(start, *target)?;
                    self.drive(target, Source::Given { start, value })?;
                }
                Item::Register(register) => self.register(register, start)?,
                Item::Child(child) => self.child(modules, child, start, room)?,
            }
        }
        Ok(())
    }

    // A register.
    fn register(&mut self, register: &'p Always, start: usize) -> Result<(), Fault> {
        let target = sum(start, register.target)?;
        let number = self.registers.len();
        self.drive(target, Source::Held(number))?;
        self.registers.push(Slot { start, register })?;
        Ok(())
    }

    // An instance, of which a module with nets from a position on has the connections.
    #[cycle(flattening)]
    fn child<'t>(
        &mut self,
        modules: &'p [Module<'t>],
        child: &'p Instance<'t>,
        outer: usize,
        room: u32,
    ) -> Result<(), Fault> {
        if room == 0 {
            return Err(Fault::Unreadable);
        }
        let module = require_some(find_module(modules, child.module_name))?;
        let start = self.nets_of(module.declared.as_slice())?;
        for connection in child.connections.as_slice() {
            self.connect(module.declared.as_slice(), connection, outer, start)?;
        }
        self.items(modules, module, start, room - 1)
    }

    // A connection of a port, the nets of the instance beginning at a position.
    fn connect<'t>(
        &mut self,
        declared: &[Declared],
        connection: &'p Connection<'t>,
        outer: usize,
        start: usize,
    ) -> Result<(), Fault> {
        let at = require_some(position_of(declared, connection.port))?;
        let port = require_some(declared.get(at).copied())?;
        let inner = sum(start, at)?;
        match port.role {
            Role::Input => {
                let value = &connection.value;
                let start = outer;
                self.drive(inner, Source::Given { start, value })
            }
            Role::Output => {
                let net = require_some(only_name(&connection.value))?;
                let target = sum(outer, net)?;
                self.drive(target, Source::Net(inner))
            }
            Role::Wire | Role::Reg => Err(Fault::Unreadable),
        }
    }

    /// The first step of a run, before which all inputs are 0.
    pub fn step(&self, alloc: Global, inputs: &[Bits], content: &[Bits]) -> Result<Stepped, Fault> {
        let mut before = Vec::new(alloc);
        for word in inputs {
            before.push(Bits::truncate(word.width(), 0))?;
        }
        self.step_after(alloc, before.as_slice(), inputs, content)
    }

    /// A step, from the inputs of the step before: registers take what second events load, and then the outputs under the
    /// inputs and that content, and the content after the step.
    ///
    /// The inputs stand in port order, and the content in text order, an instance's in its place. `Unreadable` where they
    /// do not fit, or a net depends on itself or has nothing that drives it.
    pub fn step_after(
        &self,
        alloc: Global,
        before: &[Bits],
        inputs: &[Bits],
        content: &[Bits],
    ) -> Result<Stepped, Fault> {
        let earlier = self.net_values(alloc, before, content)?;
        let now = self.net_values(alloc, inputs, content)?;
        let first_phase = self.rise(alloc, earlier.as_slice(), now.as_slice(), content)?;
        self.load(alloc, inputs, first_phase.as_slice())
    }

    // The outputs and the content after a step, whose second events have come.
    fn load(&self, alloc: Global, inputs: &[Bits], content: &[Bits]) -> Result<Stepped, Fault> {
        let nets = self.net_values(alloc, inputs, content)?;
        let mut outputs = Vec::new(alloc);
        for output in self.outputs.as_slice() {
            let scope = Scope {
                nets: nets.as_slice(),
                start: *output,
            };
            outputs.push(require_some(scope.value(0))?)?;
        }
        let content = self.next(alloc, nets.as_slice(), content)?;
        Ok(Stepped { outputs, content })
    }

    // The values of all nets.
    fn net_values(
        &self,
        alloc: Global,
        inputs: &[Bits],
        content: &[Bits],
    ) -> Result<Vec<Option<Bits>>, Fault> {
        let mut nets = vec![in alloc; None; self.widths.len()]?;
        for _ in 0..self.widths.len() {
            if !self.pass(alloc, inputs, content, &mut nets)? {
                break;
            }
        }
        require(nets.iter().all(|net| net.is_some()))?;
        Ok(nets)
    }

    // Gives values to nets whose drivers have theirs, and says whether there were any.
    fn pass(
        &self,
        alloc: Global,
        inputs: &[Bits],
        content: &[Bits],
        nets: &mut Vec<Option<Bits>>,
    ) -> Result<bool, Fault> {
        let mut moved = false;
        for driver in self.drivers.as_slice() {
            if !is_open(nets.as_slice(), driver.target) {
                continue;
            }
            let value = self.driver_value(alloc, inputs, content, nets.as_slice(), driver)?;
            moved = moved || value.is_some();
            if let Some(slot) = nets.get_mut(driver.target) {
                *slot = value;
            }
        }
        Ok(moved)
    }

    // What a driver gives to its net, if all that it reads is known.
    fn driver_value(
        &self,
        alloc: Global,
        inputs: &[Bits],
        content: &[Bits],
        nets: &[Option<Bits>],
        driver: &Driver<'p>,
    ) -> Result<Option<Bits>, Fault> {
        let width = require_some(self.widths.get(driver.target).copied())?;
        match driver.source {
            Source::Input(number) => word_of_width(inputs, number, width),
            Source::Held(number) => word_of_width(content, number, width),
            Source::Net(start) => net_value(&Scope { nets, start }, width),
            Source::Given { start, value } => {
                let scope = Scope { nets, start };
                if !is_known(value, &scope) {
                    return Ok(None);
                }
                let word = assigned_value(alloc, value, width, &scope)?;
                Ok(Some(word))
            }
        }
    }

    // The content once second events have come, from the nets of the step before and of this one.
    fn rise(
        &self,
        alloc: Global,
        earlier: &[Option<Bits>],
        now: &[Option<Bits>],
        content: &[Bits],
    ) -> Result<Vec<Bits>, Fault> {
        require(content.len() == self.registers.len())?;
        let mut all = Vec::new(alloc);
        for (at, slot) in self.registers.as_slice().iter().enumerate() {
            let old = require_some(content.get(at).copied())?;
            let start = slot.start;
            let before = Scope {
                nets: earlier,
                start,
            };
            let word = rise_value(
                alloc,
                slot.register,
                &before,
                &Scope { nets: now, start },
                old,
            )?;
            all.push(word)?;
        }
        Ok(all)
    }

    // The content after a step, all registers at once.
    fn next(
        &self,
        alloc: Global,
        nets: &[Option<Bits>],
        content: &[Bits],
    ) -> Result<Vec<Bits>, Fault> {
        require(content.len() == self.registers.len())?;
        let mut next = Vec::new(alloc);
        for (at, slot) in self.registers.as_slice().iter().enumerate() {
            let old = require_some(content.get(at).copied())?;
            let start = slot.start;
            let word = next_value(alloc, slot.register, &Scope { nets, start }, old)?;
            next.push(word)?;
        }
        Ok(next)
    }
}

// Whether a net is there and has no value yet.
fn is_open(nets: &[Option<Bits>], net: usize) -> bool {
    match nets.get(net) {
        Some(None) => true,
        _ => false,
    }
}

// The word of a number, which has to be there with this width.
fn word_of_width(words: &[Bits], number: usize, width: u32) -> Result<Option<Bits>, Fault> {
    let word = require_some(words.get(number).copied())?;
    require(word.width() == width)?;
    Ok(Some(word))
}

// The value of a net as one of this many bits, if it is known.
fn net_value(scope: &Scope, width: u32) -> Result<Option<Bits>, Fault> {
    let Some(word) = scope.value(0) else {
        return Ok(None);
    };
    let shape = Shape {
        width: width.max(word.width()),
        is_signed: false,
    };
    let wide = require_some(extend(word, shape))?;
    Ok(low_bits(wide, width))
}
