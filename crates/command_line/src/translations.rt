//! Which translation is asked for.
ghost use Rattle.std.specs.Prelude.{◌≡◌};
ghost use Rattle.clap.specs.Words.{found_of, rows_of};
ghost use Rattle.command_line.specs.Line.{translation_by, translation_in};

use crate::usage::UsageKind;
use crate::values::is_flagged;
use clap::ArgMatches;

/// What a text is translated to, or from.
#[derive(Clone, Copy)]
pub enum Translation {
    /// To Verilog.
    ToVerilog,
    /// To the AIGER format.
    ToAiger,
    /// From the AIGER format.
    FromAiger,
}

/// The translation that flags name, if they name just one.
pub(crate) fn translation_in(matches: &ArgMatches<'_>) -> Result<Translation, UsageKind>
    ensures { result ≡ translation_in (rows_of (found_of matches.now)) }
{
    translation_by(
        is_flagged(matches, "export-verilog"),
        is_flagged(matches, "export-aiger"),
        is_flagged(matches, "import-aiger"),
    )
}

// The translation that is named, if just one of the three is.
fn translation_by(
    to_verilog: bool,
    to_aiger: bool,
    from_aiger: bool,
) -> Result<Translation, UsageKind>
    ensures { result ≡ translation_by to_verilog to_aiger from_aiger }
{
    match (to_verilog, to_aiger, from_aiger) {
        (false, false, false) => Err(UsageKind::NoTranslation),
        (true, false, false) => Ok(Translation::ToVerilog),
        (false, true, false) => Ok(Translation::ToAiger),
        (false, false, true) => Ok(Translation::FromAiger),
        _ => Err(UsageKind::TwoTranslations),
    }
}
