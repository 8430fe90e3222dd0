//! Designs.
ghost use Rattle.std.specs.Prelude.{◌≡◌, ◌≤◌, ◌^◌, length, IfOk};
ghost use Rattle.ir_store.specs.Designs.{design_of, module_of, numbered_module};
ghost use Rattle.aiger_laws.specs.Grammar.{IsAiger};
ghost use Rattle.aiger_design.specs.Built.{imported_module, imported_design};
ghost use Rattle.aiger_reader.specs.Kept.{Knows, tree_of};

use crate::bodies::body_of_text;
use crate::ports::ports_of_text;
use aiger_reader::text::AigerText;
use diag::refusal::Location;
use io_edge::byte_text::Text;
use ir_store::design::{Design, Module};
use ir_store::dictionary::Dictionary;
use std::alloc::{AllocError, Global};

/// The design of what the text `source` says.
pub(crate) fn design_of_text(
    alloc: Global,
    source: &[u8],
    text: &AigerText,
) -> Result<Design, AllocError>
    requires says { IsAiger source.now (tree_of text.now) }
    requires short { length source.now ≤ 2 ^ 26 }
    requires knows { Knows text.now }
    ensures { IfOk result (λ design. design_of design ≡ imported_design (tree_of text.now)) }
{
    let mut design = Design::new(alloc);
    let _ = design.add_module(module_of_text(alloc, source, text)?)?;
    Ok(design)
}

/// Its module.
fn module_of_text(alloc: Global, _source: &[u8], text: &AigerText) -> Result<Module, AllocError>
    requires says { IsAiger _source.now (tree_of text.now) }
    requires short { length _source.now ≤ 2 ^ 26 }
    requires knows { Knows text.now }
    ensures { IfOk result (λ made. numbered_module (module_of made) ≡ imported_module (tree_of text.now)) }
{
    Ok(Module {
        symbol: Text::of(alloc, b"aiger")?,
        private: false,
        ports: ports_of_text(alloc, text)?,
        dictionary: Dictionary::new(alloc),
        body: body_of_text(alloc, text)?,
        location: Location::start(),
    })
}
