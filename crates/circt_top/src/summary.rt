//! The summary of a generated design.
ghost use Rattle.std.specs.Prelude.{◌≡◌, ◌++◌, IfOk, OnOk};
ghost use Rattle.circt_top.specs.Summary as summary;
ghost use Rattle.circt_top.specs.Summary.{summary_line, summary_text};
ghost use Rattle.circt_top.specs.SummaryViews.{counts_of, summary_of};
ghost use Rattle.ir_store.specs.Designs.{design_of};

use design_counts::{operation_count, public_count};
use io_edge::byte_text::Text;
use ir_store::design::Design;
use itoa::Buffer;
use std::alloc::{AllocError, Global};

/// The numbers of a design before any pass.
#[derive(Clone, Copy)]
pub(crate) struct Counts {
    /// How many modules there are.
    pub(crate) modules: u32,
    /// How many operations they have in all.
    pub(crate) operations: u128,
    /// How many of them are public.
    pub(crate) public_modules: u32,
}

/// The numbers of a summary.
#[derive(Clone, Copy)]
pub(crate) struct Summary {
    /// Those of the design.
    pub(crate) counts: Counts,
    /// How many registers the public modules have in all, after the passes.
    pub(crate) registers: u128,
    /// How many bytes the Verilog of that has.
    pub(crate) verilog_bytes: usize,
}

/// The numbers of a design.
pub(crate) fn counts_of(design: &Design) -> Counts
    ensures { counts_of result ≡ summary.counts_of (design_of design.now) }
{
    Counts {
        modules: design.module_count(),
        operations: operation_count(design),
        public_modules: public_count(design),
    }
}

/// The five lines of a summary.
#[tactic(auto, unfolding(crate::specs::Summary::summary_text))]
pub(crate) fn summary_text(alloc: Global, summary: &Summary) -> Result<Text, AllocError>
    ensures { IfOk result (λ text. text ≡ summary_text (summary_of summary.now)) }
{
    let mut text = Text::new(alloc);
    push_line(&mut text, b"modules", summary.counts.modules as u128)?;
    push_line(&mut text, b"operations", summary.counts.operations)?;
    push_line(
        &mut text,
        b"public modules",
        summary.counts.public_modules as u128,
    )?;
    push_line(&mut text, b"registers", summary.registers)?;
    push_line(&mut text, b"verilog bytes", summary.verilog_bytes as u128)?;
    Ok(text)
}

/// Adds a line: what is counted, a blank, and how much there is.
fn push_line(text: &mut Text, name: &[u8], number: u128) -> Result<(), AllocError>
    ensures { OnOk result (text.new ≡ text.old ++ summary_line name.now number) }
{
    let mut buffer = Buffer::new();
    text.push_bytes(name)?;
    text.push_bytes(b" ")?;
    text.push_bytes(buffer.format(number).as_bytes())?;
    text.push_bytes(b"\n")?;
    Ok(())
}
