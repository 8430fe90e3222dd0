//! The arguments of the commands, as the tables list them.
ghost use Rattle.std.specs.Prelude.{◌≡◌, false};
ghost use Rattle.clap.specs.Words.{rule_of};
ghost use Rattle.command_line.specs.Arguments.{rule_in};

use clap::{Arg, ArgAction};
use std::alloc::Global;

/// How an argument stands among the words.
pub(crate) enum Form {
    /// Positional.
    Positional,
    /// As a value after this letter with one dash.
    Letter(char),
    /// As a value after its name with two dashes.
    Named,
    /// As its name with two dashes, without a value.
    Flag,
}

/// An argument of a command.
pub(crate) struct Argument {
    /// Its name, by which its value is found.
    pub(crate) id: &'static str,
    /// How it stands among the words.
    pub(crate) form: Form,
    /// Whether it is asked for.
    pub(crate) is_required: bool,
}

/// The argument, as `clap` takes it.
pub(crate) fn arg_of<'a>(alloc: Global, argument: &Argument) -> Arg<'a>
    ensures rule { rule_of result ≡ rule_in argument.now }
    ensures local { result.global ≡ false }
{
    let arg = Arg::new(alloc, argument.id).required(argument.is_required);
    match argument.form {
        Form::Positional => arg,
        Form::Letter(letter) => arg.short(letter),
        Form::Named => arg.long(argument.id),
        Form::Flag => arg.long(argument.id).action(ArgAction::SetTrue),
    }
}
