//! What is wrong with the words.
ghost use Rattle.std.specs.Prelude.{◌≡◌};
ghost use Rattle.command_line.specs.Usage.{usage_text, offset_of};

use pass_pipeline::pipeline::PipelineFail;

/// What is wrong with the words of a command line.
#[derive(Clone, Copy, PartialEq, Eq)]
pub enum UsageKind {
    /// They are no command with its arguments.
    Words,
    /// Passes are given both by flags and by a pipeline.
    TwoPipelines,
    /// No translation is named.
    NoTranslation,
    /// More than one translation is named.
    TwoTranslations,
    /// The text of a pipeline is none. Offsets count its bytes.
    Pipeline(PipelineFail),
    /// No way of writing Verilog has the name that is given.
    Lowering,
    /// Standard input is named twice.
    StdinTwice,
}

impl UsageKind {
    /// What the line on standard error says of it, without an offset.
    #[tactic(auto, unfolding(crate::specs::Usage::usage_text))]
    pub fn text(self) -> &'static [u8]
        ensures { result.now ≡ usage_text self }
    {
        match self {
            UsageKind::Words => b"bad arguments",
            UsageKind::TwoPipelines => b"passes given in two ways",
            UsageKind::NoTranslation => b"no translation named",
            UsageKind::TwoTranslations => b"two translations named",
            UsageKind::Pipeline(PipelineFail::UnknownPass(_)) => b"unknown pass",
            UsageKind::Pipeline(PipelineFail::WrongPlace(_)) => b"pass in the wrong place",
            UsageKind::Pipeline(PipelineFail::BadText(_)) => b"bad pipeline text",
            UsageKind::Lowering => b"unknown lowering option",
            UsageKind::StdinTwice => b"standard input named twice",
        }
    }

    /// Where it is in the text of a pipeline, if it is there.
    pub fn offset(self) -> Option<u64>
        ensures { result ≡ offset_of self }
    {
        match self {
            UsageKind::Words
            | UsageKind::TwoPipelines
            | UsageKind::NoTranslation
            | UsageKind::TwoTranslations => None,
            UsageKind::Pipeline(
                PipelineFail::UnknownPass(at)
                | PipelineFail::WrongPlace(at)
                | PipelineFail::BadText(at),
            ) => Some(at),
            UsageKind::Lowering | UsageKind::StdinTwice => None,
        }
    }
}
