//! What is told of texts in the AIGER format that say no design.
ghost use Rattle.std.specs.Prelude.{◌≡◌};
ghost use Rattle.circt_top.specs.AigerCauses.{aiger_operation, aiger_cause};

use aiger_laws::fault::Fault;
use diag::cause::Cause;
use diag::refusal::OpName;

/// The operation that refuses them.
pub(crate) fn aiger_operation() -> OpName
    ensures { result ≡ aiger_operation }
{
    OpName::Aiger
}

/// The cause of a refusal of a line.
pub(crate) fn aiger_cause(fault: Fault) -> Cause
    ensures { result ≡ aiger_cause fault }
{
    match fault {
        Fault::BadLine => Cause::BadAigerLine,
        Fault::OutOfRange => Cause::LiteralRange,
        Fault::DefinedTwice => Cause::LiteralDefinedTwice,
        Fault::NotDefined => Cause::LiteralNotDefined,
        Fault::GateCycle => Cause::GateCycle,
    }
}
