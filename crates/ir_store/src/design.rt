//! Designs: modules in order, found by their symbols.
ghost use Rattle.std.specs.Prelude.{◌≡◌, ℕ, ◌<◌, ◌+◌, ◌^◌, List, length, map, nat_eq, cond, Some, None, OnOk, OnErr};
ghost use Rattle.std.specs.Cmp.Lexicographic.{pointwise};
ghost use Rattle.indexmap.specs.IndexMap.{get_by};
ghost use Rattle.ir_store.specs.Symbols.{symbol_position, first_of};

use crate::body::Body;
use crate::dictionary::Dictionary;
use diag::refusal::Location;
use hw_model::types::Ty;
use indexmap::IndexMap;
use io_edge::byte_text::Text;
use std::alloc::{AllocError, Global};
use std::mem;

/// A port of a module.
#[derive(Drop)]
pub struct Port {
    /// Its name.
    pub name: Text,
    /// Whether it is an output.
    pub out: bool,
    /// Its type.
    pub ty: Ty,
    /// Whether its value name was defined earlier.
    pub again: bool,
}

/// Ports in order.
#[derive(Drop)]
pub struct PortList {
    /// The ports.
    pub ports: Vec<Port>,
}

/// A module.
#[derive(Drop)]
pub struct Module {
    /// Its symbol.
    pub symbol: Text,
    /// Whether it is private.
    pub private: bool,
    /// Its ports.
    pub ports: PortList,
    /// Its dictionary.
    pub dictionary: Dictionary,
    /// Its operations.
    pub body: Body,
    /// Its location in the source.
    pub location: Location,
}

/// A design: modules in order. Contracts see them by `modules_of`.
#[derive(Drop)]
pub struct Design {
    modules: Vec<Module>,
    symbols: IndexMap<Vec<u8>, u32>,
    ghost small: { length modules.items < 2 ^ 32 },
    ghost found: { (q : List ℕ) → get_by (λ (k : _). pointwise nat_eq q k.items) symbols ≡ symbol_position q (map (λ (m : _). m.symbol) modules.items) },
}

impl Port {
    ghost use Rattle.std.specs.Prelude.{◌≡◌, IfOk};
    ghost use Rattle.ir_store.specs.Designs.{port_of};

    /// An equal port with memory of its own.
    pub fn try_clone(&self, alloc: Global) -> Result<Port, AllocError>
        ensures { IfOk result (λ copy. port_of copy ≡ port_of self.now) }
    {
        Ok(Port {
            name: self.name.try_clone(alloc)?,
            out: self.out,
            ty: self.ty.try_clone(alloc)?,
            again: self.again,
        })
    }
}

impl PortList {
    ghost use Rattle.std.specs.Prelude.{◌≡◌, IfOk};
    ghost use Rattle.ir_store.specs.Designs.{ports_in};

    /// Equal ports with memory of their own.
    pub fn try_clone(&self, alloc: Global) -> Result<PortList, AllocError>
        ensures { IfOk result (λ copy. ports_in copy ≡ ports_in self.now) }
    {
        let mut ports = Vec::with_capacity(alloc, self.ports.len())?;
        for port in &self.ports {
            ports.push(port.try_clone(alloc)?)?;
        }
        Ok(PortList { ports })
    }
}

impl Module {
    ghost use Rattle.std.specs.Prelude.{slice_get};
    ghost use Rattle.ir_store.specs.Bodies.{ops_of};
    ghost use Rattle.ir_store.specs.Designs.{module_of, with_ops};

    /// Gives a module another body, and gives the one that it had.
    fn swap_body(modules: &mut Vec<Module>, m: usize, body: Body) -> Body
        requires { m < length modules.old.items }
        ensures count { length modules.new.items ≡ length modules.old.items }
        ensures symbols { map (λ (m : _). m.symbol) modules.new.items ≡ map (λ (m : _). m.symbol) modules.old.items }
        ensures modules { map module_of modules.new.items ≡ with_ops m (ops_of body) (map module_of modules.old.items) }
        ensures taken { Some (ops_of result) ≡ slice_get (map (λ (m : _). ops_of m.body) modules.old.items) m }
    {
        let one = &mut modules[m];
        mem::replace(&mut one.body, body)
    }
}

impl Module {
    ghost use Rattle.std.specs.Prelude.{IfOk};
    ghost use Rattle.ir_store.specs.Designs.{module_of};

    /// An equal module with memory of its own.
    pub fn try_clone(&self, alloc: Global) -> Result<Module, AllocError>
        ensures { IfOk result (λ copy. module_of copy ≡ module_of self.now) }
    {
        Ok(Module {
            symbol: self.symbol.try_clone(alloc)?,
            private: self.private,
            ports: self.ports.try_clone(alloc)?,
            dictionary: self.dictionary.try_clone(alloc)?,
            body: self.body.try_clone(alloc)?,
            location: self.location,
        })
    }
}

impl Design {
    ghost use Rattle.std.specs.Prelude.{◌≡◌, ◌+◌, ◌<◌, ◌^◌, [], ◌∷◌, ◌++◌, map, length, IfOk, OnErr, is_some, option_and_then, slice_get, slice_set, Some};
    ghost use Rattle.hw_model.specs.Design.{find_module};
    ghost use Rattle.ir_store.specs.Symbols.{symbol_position};
    ghost use Rattle.ir_store.specs.Bodies.{ops_of};
    ghost use Rattle.ir_store.specs.Designs.{design_of, modules_of, module_of, with_ops};

    /// The design without modules. It takes no memory.
    pub fn new(alloc: Global) -> Design
        ensures { modules_of result ≡ [] }
    {
        Design {
            modules: Vec::new(alloc),
            symbols: IndexMap::new(alloc),
        }
    }

    /// An equal design with memory of its own.
    pub fn try_clone(&self, alloc: Global) -> Result<Design, AllocError>
        ensures { IfOk result (λ copy. modules_of copy ≡ modules_of self.now) }
    {
        let mut copy = Design::new(alloc);
        for one in &self.modules {
            let _ = copy.add_module(one.try_clone(alloc)?)?;
        }
        Ok(copy)
    }

    /// Puts a module at the end, and gives its number. On an error the modules stay, and the new
    /// one is dropped.
    pub fn add_module(&mut self, added: Module) -> Result<u32, AllocError>
        requires { length (modules_of self.old) + 1 < 2 ^ 32 }
        ensures number { IfOk result (λ m. m ≡ length (modules_of self.old)) }
        ensures ok { IfOk result (λ m. modules_of self.new ≡ modules_of self.old ++ module_of added ∷ []) }
        ensures err { OnErr result (modules_of self.new ≡ modules_of self.old) }
    {
        let count = self.modules.len() as u32;
        let alloc = *self.modules.allocator();
        self.modules.reserve(1)?;
        note_symbol(alloc, &mut self.symbols, added.symbol.as_bytes(), count)?;
        self.modules.push_reserved(added);
        Ok(count)
    }

    /// How many modules there are.
    pub fn module_count(&self) -> u32
        ensures { result ≡ length (modules_of self.now) }
    {
        self.modules.len() as u32
    }

    /// Module `m`.
    pub fn module(&self, m: u32) -> &Module
        requires { m < length (modules_of self.now) }
        ensures { Some (module_of result.now) ≡ slice_get (modules_of self.now) m }
    {
        &self.modules[m as usize]
    }

    /// The number of the first module of a symbol: none exactly where no module has it.
    pub fn find(&self, symbol: &[u8]) -> Option<u32>
        ensures position { result ≡ symbol_position symbol.now (map (λ m. m.symbol) (modules_of self.now)) }
        ensures module { option_and_then (slice_get (design_of self.now)) result ≡ find_module (design_of self.now) symbol.now }
        ensures some { is_some result ≡ is_some (find_module (design_of self.now) symbol.now) }
    {
        self.symbols.get(symbol).copied()
    }

    /// The modules in order, without the design. It takes no memory.
    pub fn into_modules(self) -> Vec<Module>
        ensures { map module_of result.items ≡ modules_of self }
    {
        let Design {
            modules,
            symbols: _,
        } = self;
        modules
    }

    /// Takes the body of module `m`, which has an empty one afterwards.
    pub fn take_body(&mut self, m: u32) -> Body
        requires { m < length (modules_of self.old) }
        ensures body { Some (ops_of result) ≡ slice_get (map (λ one. one.ops) (modules_of self.old)) m }
        ensures modules { modules_of self.new ≡ with_ops m [] (modules_of self.old) }
    {
        let alloc = *self.modules.allocator();
        Module::swap_body(&mut self.modules, m as usize, Body::new(alloc))
    }

    /// Gives module `m` a body in place of the one that it has.
    pub fn put_body(&mut self, m: u32, body: Body)
        requires { m < length (modules_of self.old) }
        ensures { modules_of self.new ≡ with_ops m (ops_of body) (modules_of self.old) }
    {
        let _ = Module::swap_body(&mut self.modules, m as usize, body);
    }
}

/// Notes the number of a module under its symbol, if that is the first of the symbol.
fn note_symbol(
    alloc: Global,
    symbols: &mut IndexMap<Vec<u8>, u32>,
    symbol: &[u8],
    number: u32,
) -> Result<(), AllocError>
    ensures ok { OnOk result ((q : List ℕ) → get_by (λ (k : _). pointwise nat_eq q k.items) symbols.new ≡ first_of (get_by (λ (k : _). pointwise nat_eq q k.items) symbols.old) (cond (pointwise nat_eq q symbol.now) (Some number) None)) }
    ensures err { OnErr result (symbols.new.entries ≡ symbols.old.entries) }
{
    if symbols.get(symbol).is_some() {
        return Ok(());
    }
    let key = Vec::from_slice(alloc, symbol)?;
    symbols.insert(key, number)?;
    Ok(())
}
