//! The text of a module.
ghost use Rattle.std.specs.Prelude.{◌≡◌, ◌<◌, ◌++◌, [], length, OnOk, Some, slice_get};
ghost use Rattle.hw_model.specs.Design.{Module};
ghost use Rattle.ir_store.specs.Designs.{design_of, modules_of};
ghost use Rattle.verilog_expr.specs.Scopes.{scope_ports};
ghost use Rattle.export_verilog.specs.Exported.{symbol_names, vmodule};
ghost use Rattle.export_verilog.specs.Layout.{module_text};
ghost use Rattle.export_verilog.specs.ModuleTexts.{module_under};
ghost use Rattle.export_verilog.specs.ScopeModules.{scope_module};
ghost use Rattle.export_verilog.specs.WritableDesigns.{IsWritableDesign};
ghost use Rattle.export_verilog.specs.Written.{AreNarrow};

use crate::module_items::push_items;
use crate::module_names::module_names;
use crate::module_writer::ModuleWriter;
use crate::named_design::NamedDesign;
use crate::ports::push_ports;
use io_edge::byte_text::Text;
use lowering_options::lowering::Lowering;
use std::alloc::{AllocError, Global};
use verilog_expr::scope::Scope;
use verilog_expr::wires::Wires;

// Adds the text of a module under a name (IEEE 1364-2005, 12.1: modules).
fn push_under(writer: &ModuleWriter<'_>, out: &mut Text, name: &[u8]) -> Result<(), AllocError>
    requires { AreNarrow (scope_ports writer.now.scope) }
    ensures { OnOk result (out.new ≡ out.old ++ module_text (module_under writer.now.options (design_of writer.now.design.now.design.now) name.now (scope_module writer.now.scope)) []) }
{
    out.push_bytes(b"module ")?;
    out.push_bytes(name)?;
    push_ports(out, writer.names.ports.as_slice(), writer.scope.ports())?;
    push_items(writer, out)?;
    out.push_bytes(b"endmodule\n")?;
    Ok(())
}

// The name of a module of a design, by its number.
fn symbol_at<'n>(all: &'n NamedDesign<'_>, number: u32) -> &'n [u8]
    requires { number < length (modules_of all.now.design.now) }
    ensures { slice_get (symbol_names (design_of all.now.design.now)) number ≡ Some result.now }
{
    let symbols = all.symbols.as_slice();
    symbols[number as usize].as_bytes()
}

/// Adds the text of a module of a design, by its number: its header, its declarations, its statements and its end. The
/// error is out of memory, as with a body of 2^32 operations or more.
pub fn push_module(
    alloc: Global,
    out: &mut Text,
    all: &NamedDesign<'_>,
    number: u32,
    options: Lowering,
) -> Result<(), AllocError>
    requires there { number < length (modules_of all.now.design.now) }
    requires writable { IsWritableDesign (design_of all.now.design.now) }
    ensures { OnOk result ((m : Module) → slice_get (design_of all.now.design.now) number ≡ Some m → out.new ≡ out.old ++ module_text (vmodule options (design_of all.now.design.now) m) []) }
{
    let module = all.design.module(number);
    let ports = module.ports.ports.as_slice();
    let scope = Scope::of(alloc, &module.ports, &module.body)?;
    let wires = Wires::of(alloc, &scope)?;
    let names = module_names(alloc, &scope, &wires, ports)?;
    let writer = ModuleWriter {
        alloc,
        design: all,
        options,
        scope,
        wires,
        names,
    };
    push_under(&writer, out, symbol_at(all, number))?;
    Ok(())
}
