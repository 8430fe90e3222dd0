//! A module that is written.
ghost use Rattle.verilog_expr.specs.Scopes.{scope_ports, scope_ops};
ghost use Rattle.verilog_expr.specs.PartTables.{AreWires};
ghost use Rattle.export_verilog.specs.ModuleNames.{AreModuleNames};
ghost use Rattle.export_verilog.specs.ScopeModules.{scope_module};

use crate::module_names::ModuleNames;
use crate::named_design::NamedDesign;
use lowering_options::lowering::Lowering;
use std::alloc::Global;
use verilog_expr::scope::Scope;
use verilog_expr::wires::Wires;

/// A module that is written: its body with its ports, the names of its things, and which values have a wire.
#[derive(Drop)]
pub struct ModuleWriter<'m> {
    /// Where memory is taken from.
    pub alloc: Global,
    /// The design, with the names of its modules and of their ports.
    pub design: &'m NamedDesign<'m>,
    /// How expressions are written.
    pub options: Lowering,
    /// The body, with its ports.
    pub scope: Scope<'m>,
    /// Which values have a wire.
    pub wires: Wires,
    /// The names of the module's things.
    pub names: ModuleNames,
    ghost wires_are: { AreWires (scope_ports scope) (scope_ops scope) wires.wires.items },
    ghost names_are: { AreModuleNames (scope_module scope) names.ports.items names.values names.own.items },
}
