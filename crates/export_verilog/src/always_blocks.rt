//! The text of `always` blocks, of expressions that are already written.
ghost use Rattle.std.specs.Prelude.{◌≡◌, ◌++◌, [], None, OnOk, codes, option_map};
ghost use Rattle.verilog_model.specs.Tree.Item.{always};
ghost use Rattle.export_verilog.specs.Layout.{load_text, if_text, block_text, item_text};
ghost use Rattle.export_verilog.specs.Written.{verbatim, written_load, written_block, written_async, events_text, otherwise_text};
ghost use Rattle.export_verilog.specs.WrittenViews.{block_held};

use io_edge::byte_text::Text;
use std::alloc::AllocError;

/// What resets a register, and to what, as expressions that are already written.
#[derive(Clone, Copy)]
pub struct Reset<'t> {
    /// What resets it.
    pub signal: &'t [u8],
    /// Its value then.
    pub value: &'t [u8],
}

/// What a register does where its clock rises, as expressions that are already written.
#[derive(Clone, Copy)]
pub struct Clocked<'t> {
    /// The register's name.
    pub target: &'t [u8],
    /// Its next value.
    pub next: &'t [u8],
    /// What enables it, where it has an enable.
    pub enable: Option<&'t [u8]>,
    /// What resets it, where something does: it is asked before the enable.
    pub reset: Option<Reset<'t>>,
}

// Adds `r <= d;` after blanks.
#[tactic(auto, using(std::proofs::Common::append_assoc), unfolding(crate::specs::Layout::load_text, verilog_model::specs::Text::expr_text))]
fn push_load(out: &mut Text, indent: &[u8], target: &[u8], value: &[u8]) -> Result<(), AllocError>
    ensures { OnOk result (out.new ≡ out.old ++ load_text indent.now (written_load target.now value.now) []) }
{
    out.push_bytes(indent)?;
    out.push_bytes(target)?;
    out.push_bytes(b" <= ")?;
    out.push_bytes(value)?;
    out.push_bytes(b";\n")?;
    Ok(())
}

// Adds `if (c)` after what stands before it.
#[tactic(auto, using(std::proofs::Common::append_assoc), unfolding(crate::specs::Layout::if_text, verilog_model::specs::Text::expr_text))]
fn push_condition(out: &mut Text, prefix: &[u8], condition: &[u8]) -> Result<(), AllocError>
    ensures { OnOk result (out.new ≡ out.old ++ if_text prefix.now (verbatim condition.now) []) }
{
    out.push_bytes(prefix)?;
    out.push_bytes(b"if (")?;
    out.push_bytes(condition)?;
    out.push_bytes(b")\n")?;
    Ok(())
}

// Adds a load under a condition.
#[tactic(auto, using(crate::proofs::text::Rests::guarded_parts))]
fn push_guarded(
    out: &mut Text,
    prefix: &[u8],
    condition: &[u8],
    target: &[u8],
    value: &[u8],
) -> Result<(), AllocError>
    ensures { OnOk result (out.new ≡ out.old ++ if_text prefix.now (verbatim condition.now) (load_text (codes "      ") (written_load target.now value.now) [])) }
{
    push_condition(out, prefix, condition)?;
    push_load(out, b"      ", target, value)?;
    Ok(())
}

// Adds the load of the next value, under the enable where there is one.
#[tactic(auto, unfolding(crate::specs::Layout::block_text))]
fn push_next(out: &mut Text, block: &Clocked<'_>) -> Result<(), AllocError>
    ensures { OnOk result (out.new ≡ out.old ++ block_text (written_block block.now.target.now block.now.next.now (option_map (λ e. e.now) block.now.enable) None) []) }
{
    match block.enable {
        None => push_load(out, b"    ", block.target, block.next)?,
        Some(enable) => push_guarded(out, b"    ", enable, block.target, block.next)?,
    }
    Ok(())
}

// Adds what a register that is reset does where nothing resets it.
fn push_otherwise(out: &mut Text, block: &Clocked<'_>) -> Result<(), AllocError>
    ensures { OnOk result (out.new ≡ out.old ++ otherwise_text block.now.target.now block.now.next.now (option_map (λ e. e.now) block.now.enable)) }
{
    match block.enable {
        None => {
            out.push_bytes(b"    else\n")?;
            push_load(out, b"      ", block.target, block.next)?;
        }
        Some(enable) => push_guarded(out, b"    else ", enable, block.target, block.next)?,
    }
    Ok(())
}

// Adds what a register does where its clock rises.
#[tactic(auto, using(crate::proofs::text::Rests::reset_parts), unfolding(crate::specs::Layout::block_text))]
fn push_block(out: &mut Text, block: &Clocked<'_>) -> Result<(), AllocError>
    ensures { OnOk result (out.new ≡ out.old ++ block_text (block_held block.now) []) }
{
    match block.reset {
        None => push_next(out, block)?,
        Some(reset) => {
            push_guarded(out, b"    ", reset.signal, block.target, reset.value)?;
            push_otherwise(out, block)?;
        }
    }
    Ok(())
}

/// Adds the block of a register with a clock (IEEE 1364-2005, 9.7.2: event control).
#[tactic(auto, using(std::proofs::Common::append_assoc), unfolding(crate::specs::Layout::item_text))]
pub fn push_always(out: &mut Text, clock: &[u8], block: &Clocked<'_>) -> Result<(), AllocError>
    ensures { OnOk result (out.new ≡ out.old ++ item_text (always clock.now (block_held block.now)) []) }
{
    out.push_bytes(b"  always @(posedge ")?;
    out.push_bytes(clock)?;
    out.push_bytes(b")\n")?;
    push_block(out, block)?;
    Ok(())
}

// Adds the events of a block that has two.
#[tactic(auto, using(std::proofs::Common::append_assoc), unfolding(crate::specs::Written::events_text))]
fn push_events(out: &mut Text, clock: &[u8], signal: &[u8]) -> Result<(), AllocError>
    ensures { OnOk result (out.new ≡ out.old ++ events_text clock.now signal.now) }
{
    out.push_bytes(b"  always @(posedge ")?;
    out.push_bytes(clock)?;
    out.push_bytes(b" or posedge ")?;
    out.push_bytes(signal)?;
    out.push_bytes(b")\n")?;
    Ok(())
}

/// Adds the block of a register with a clock and an asynchronous reset, whose signal is a name and whose value a literal
/// (IEEE 1364-2005, 9.7.3: event `or`).
#[tactic(auto, unfolding(crate::specs::Layout::item_text))]
pub fn push_async<'t>(
    out: &mut Text,
    clock: &[u8],
    target: &'t [u8],
    next: &'t [u8],
    signal: &'t [u8],
    value: &'t [u8],
) -> Result<(), AllocError>
    ensures { OnOk result (out.new ≡ out.old ++ item_text (always clock.now (written_async target.now next.now (record { signal = signal.now; value = value.now }))) []) }
{
    push_events(out, clock, signal)?;
    let block = Clocked {
        target,
        next,
        enable: None,
        reset: Some(Reset { signal, value }),
    };
    push_block(out, &block)?;
    Ok(())
}
