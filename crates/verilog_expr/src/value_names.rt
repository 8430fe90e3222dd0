//! The names of a body's values, as they are printed.
ghost use Rattle.std.specs.Prelude.{◌≡◌, option_map};
ghost use Rattle.verilog_expr.specs.Scopes.{scope_ref};
ghost use Rattle.verilog_expr.specs.Named.{name_in, result_name};

use crate::scope::Scope;
use io_edge::byte_text::Text;
use ir_store::operation::Value;
use std::alloc::{AllocError, Global};

/// The names of an operation's results, in order; a result without one has None.
#[derive(Drop)]
pub struct NameList {
    /// The names.
    pub names: Vec<Option<Text>>,
}

/// The names of a body's values: by port, and by operation and result. Contracts see them by
/// `named_of`.
#[derive(Drop)]
pub struct ValueNames {
    // by the ports' positions
    ports: Vec<Option<Text>>,
    // by the operations' positions
    ops: Vec<NameList>,
}

impl ValueNames {
    ghost use Rattle.std.specs.Prelude.{◌≡◌, ◌++◌, ◌∷◌, [], option_map, OnOk, OnErr};
    ghost use Rattle.verilog_expr.specs.Named.{named_of, name_in, result_name};

    /// No names.
    pub fn new(alloc: Global) -> ValueNames
        ensures ports { result.ports.items ≡ [] }
        ensures ops { result.ops.items ≡ [] }
    {
        ValueNames {
            ports: Vec::new(alloc),
            ops: Vec::new(alloc),
        }
    }

    /// Adds the name of the next port. On an error the names stay.
    pub fn push_port(&mut self, name: Option<Text>) -> Result<(), AllocError>
        ensures ports { OnOk result (self.new.ports.items ≡ self.old.ports.items ++ name ∷ []) }
        ensures ops { self.new.ops ≡ self.old.ops }
        ensures err { OnErr result (self.new.ports.items ≡ self.old.ports.items) }
    {
        self.ports.push(name)?;
        Ok(())
    }

    /// Adds the names of the next operation's results. On an error the names stay.
    pub fn push_op(&mut self, names: NameList) -> Result<(), AllocError>
        ensures ops { OnOk result (self.new.ops.items ≡ self.old.ops.items ++ names ∷ []) }
        ensures ports { self.new.ports ≡ self.old.ports }
        ensures err { OnErr result (self.new.ops.items ≡ self.old.ops.items) }
    {
        self.ops.push(names)?;
        Ok(())
    }

    /// The name of a value of a body, where it has one.
    pub fn name(&self, scope: &Scope<'_>, value: Value) -> Option<&[u8]>
        ensures { option_map (λ n. n.now) result ≡ named_of self.now (scope_ref scope.now value) }
    {
        match value {
            Value::Port(port) => name_in(self.ports.as_slice(), port as usize),
            Value::Result(id, number) => {
                result_name(self.ops.get(scope.position(id)), number as usize)
            }
            Value::Undefined => None,
        }
    }
}

// The name at a position, where one is there.
fn name_in(names: &[Option<Text>], position: usize) -> Option<&[u8]>
    ensures { option_map (λ n. n.now) result ≡ name_in names.now position }
{
    match names.get(position) {
        Some(Some(name)) => Some(name.as_bytes()),
        Some(None) | None => None,
    }
}

// The name of a result of an operation, where it has one.
fn result_name<'n>(list: Option<&'n NameList>, number: usize) -> Option<&'n [u8]>
    ensures { option_map (λ n. n.now) result ≡ result_name (option_map (λ l. l.now) list.entry) number }
{
    match list {
        Some(list) => name_in(list.names.as_slice(), number),
        None => None,
    }
}
