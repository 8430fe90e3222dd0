//! Where zero extensions are written as their operand alone.
ghost use Rattle.std.specs.Prelude.{◌≡◌};
ghost use Rattle.export_verilog.specs.Lowerings.{load_place, own_place};

use lowering_options::lowering::Lowering;
use verilog_expr::extending::Extending;

/// How zero extensions are written on the right side of an assignment or of a load, which has the width of its left side.
pub(crate) fn load_place(options: Lowering) -> Extending
    ensures { result ≡ load_place options }
{
    match options {
        Lowering::Plain => Extending::Off,
        Lowering::ImplicitExtension => Extending::Given,
    }
}

/// How they are written in a condition, and in what a port of an instance is joined to.
pub(crate) fn own_place(options: Lowering) -> Extending
    ensures { result ≡ own_place options }
{
    match options {
        Lowering::Plain => Extending::Off,
        Lowering::ImplicitExtension => Extending::Own,
    }
}
