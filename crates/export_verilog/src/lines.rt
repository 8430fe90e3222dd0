//! Lines of a module that stand alone: declarations and assignments.
ghost use Rattle.std.specs.Prelude.{◌≡◌, ◌++◌, [], OnOk};
ghost use Rattle.verilog_model.specs.Tree.Item.{wire, reg, assign};
ghost use Rattle.verilog_model.specs.Digits.{high_of};
ghost use Rattle.export_verilog.specs.Layout.{range_text, item_text};
ghost use Rattle.export_verilog.specs.Written.{verbatim};

use io_edge::byte_text::Text;
use std::alloc::AllocError;
use verilog_model::{high_of, push_decimal};

/// Adds the range of so many bits, and a name with what stands after it (IEEE 1364-2005, 3.3: vectors).
#[tactic(auto, using(std::proofs::Common::append_assoc), unfolding(crate::specs::Layout::range_text))]
pub fn push_ranged(
    out: &mut Text,
    width: u64,
    name: &[u8],
    following: &[u8],
) -> Result<(), AllocError>
    ensures { OnOk result (out.new ≡ out.old ++ range_text (high_of width) (name.now ++ following.now)) }
{
    push_range(out, width)?;
    out.push_bytes(name)?;
    out.push_bytes(following)?;
    Ok(())
}

// Adds the range of so many bits, or nothing for one bit.
#[tactic(auto, unfolding(crate::specs::Layout::range_text))]
fn push_range(out: &mut Text, width: u64) -> Result<(), AllocError>
    ensures { OnOk result (out.new ≡ out.old ++ range_text (high_of width) []) }
{
    if let Some(high) = high_of(width) {
        out.push_bytes(b"[")?;
        push_decimal(out, u128::from(high))?;
        out.push_bytes(b":0] ")?;
    }
    Ok(())
}

/// Adds the declaration of a wire of so many bits (3.2.1: net declarations).
#[tactic(auto, unfolding(crate::specs::Layout::item_text))]
pub fn push_wire(out: &mut Text, width: u64, name: &[u8]) -> Result<(), AllocError>
    ensures { OnOk result (out.new ≡ out.old ++ item_text (wire (high_of width) name.now) []) }
{
    out.push_bytes(b"  wire ")?;
    push_ranged(out, width, name, b";\n")?;
    Ok(())
}

/// Adds the declaration of a variable of so many bits (3.2.2: variable declarations).
#[tactic(auto, unfolding(crate::specs::Layout::item_text))]
pub fn push_reg(out: &mut Text, width: u64, name: &[u8]) -> Result<(), AllocError>
    ensures { OnOk result (out.new ≡ out.old ++ item_text (reg (high_of width) name.now) []) }
{
    out.push_bytes(b"  reg ")?;
    push_ranged(out, width, name, b";\n")?;
    Ok(())
}

/// Adds an assignment to a net, of an expression that is already written (6.1: continuous assignments).
#[tactic(auto, using(std::proofs::Common::append_assoc), unfolding(crate::specs::Layout::item_text, verilog_model::specs::Text::expr_text))]
pub fn push_assign(out: &mut Text, name: &[u8], value: &[u8]) -> Result<(), AllocError>
    ensures { OnOk result (out.new ≡ out.old ++ item_text (assign name.now (verbatim value.now)) []) }
{
    out.push_bytes(b"  assign ")?;
    out.push_bytes(name)?;
    out.push_bytes(b" = ")?;
    out.push_bytes(value)?;
    out.push_bytes(b";\n")?;
    Ok(())
}
