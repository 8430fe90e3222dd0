//! The commands and their arguments.
ghost use Rattle.std.specs.Prelude.{IfOk, ◌∷◌, [], codes, map};
ghost use Rattle.clap.specs.Words.{new_app};
ghost use Rattle.command_line.specs.Commands.{circt_app, bare};
ghost use Rattle.command_line.specs.Arguments.{rule_in, app_in};
ghost use Rattle.command_line.specs.Making.{Gathers, Grows, GrowsBy, IsMade};

use crate::arguments::{Argument, Form, arg_of};
use clap::Command;
use std::alloc::{AllocError, Global};

/// A subcommand with its arguments.
pub(crate) struct Subcommand {
    /// Its name.
    pub(crate) name: &'static str,
    /// Its arguments, in order.
    pub(crate) arguments: &'static [Argument],
}

// `[FILE]`
const FILE: Argument = Argument {
    id: "file",
    form: Form::Positional,
    is_required: false,
};

// `[-o FILE]`
const OUTPUT: Argument = Argument {
    id: "output",
    form: Form::Letter('o'),
    is_required: false,
};

// `[--pass-pipeline=TEXT]`
const PIPELINE: Argument = Argument {
    id: "pass-pipeline",
    form: Form::Named,
    is_required: false,
};

// `[--passes=NAMES]`, which stands for the flags of passes.
const PASSES: Argument = Argument {
    id: "passes",
    form: Form::Named,
    is_required: false,
};

// `[--workers N]`
const WORKERS: Argument = Argument {
    id: "workers",
    form: Form::Named,
    is_required: false,
};

// `[--mlir-disable-threading]`
const THREADING: Argument = Argument {
    id: "mlir-disable-threading",
    form: Form::Flag,
    is_required: false,
};

// `[--split-input-file]`
const SPLIT: Argument = Argument {
    id: "split-input-file",
    form: Form::Flag,
    is_required: false,
};

// `[--export-verilog]`
const EXPORT_VERILOG: Argument = Argument {
    id: "export-verilog",
    form: Form::Flag,
    is_required: false,
};

// `[--export-aiger]`
const EXPORT_AIGER: Argument = Argument {
    id: "export-aiger",
    form: Form::Flag,
    is_required: false,
};

// `[--import-aiger]`
const IMPORT_AIGER: Argument = Argument {
    id: "import-aiger",
    form: Form::Flag,
    is_required: false,
};

// `[--lowering-options=TEXT]`
const LOWERING: Argument = Argument {
    id: "lowering-options",
    form: Form::Named,
    is_required: false,
};

// `SEED`
const SEED: Argument = Argument {
    id: "seed",
    form: Form::Positional,
    is_required: true,
};

// `N`, the number of modules.
const COUNT: Argument = Argument {
    id: "count",
    form: Form::Positional,
    is_required: true,
};

// `[--verilog]`
const VERILOG: Argument = Argument {
    id: "verilog",
    form: Form::Flag,
    is_required: false,
};

// `FILE`
const FIRST_FILE: Argument = Argument {
    id: "file",
    form: Form::Positional,
    is_required: true,
};

// A second `[FILE]`.
const SECOND_FILE: Argument = Argument {
    id: "second-file",
    form: Form::Positional,
    is_required: false,
};

// `--c1 NAME`
const LEFT: Argument = Argument {
    id: "c1",
    form: Form::Named,
    is_required: true,
};

// `--c2 NAME`
const RIGHT: Argument = Argument {
    id: "c2",
    form: Form::Named,
    is_required: true,
};

// `[--conflict-limit N]`
const LIMIT: Argument = Argument {
    id: "conflict-limit",
    form: Form::Named,
    is_required: false,
};

// A second `FILE`, which is asked for.
const OTHER_FILE: Argument = Argument {
    id: "second-file",
    form: Form::Positional,
    is_required: true,
};

// `[--proof FILE]`
const PROOF: Argument = Argument {
    id: "proof",
    form: Form::Named,
    is_required: false,
};

// `--top NAME`
const TOP: Argument = Argument {
    id: "top",
    form: Form::Named,
    is_required: true,
};

const SUBCOMMANDS: [Subcommand; 6] = [
    Subcommand {
        name: "opt",
        arguments: &[FILE, OUTPUT, PIPELINE, PASSES, WORKERS, THREADING, SPLIT],
    },
    Subcommand {
        name: "translate",
        arguments: &[
            FILE,
            OUTPUT,
            PIPELINE,
            PASSES,
            WORKERS,
            THREADING,
            EXPORT_VERILOG,
            EXPORT_AIGER,
            IMPORT_AIGER,
            LOWERING,
        ],
    },
    Subcommand {
        name: "gen",
        arguments: &[SEED, COUNT, VERILOG, OUTPUT, WORKERS],
    },
    Subcommand {
        name: "lec",
        arguments: &[FIRST_FILE, SECOND_FILE, LEFT, RIGHT, LIMIT, PROOF],
    },
    Subcommand {
        name: "check",
        arguments: &[FIRST_FILE, OTHER_FILE],
    },
    Subcommand {
        name: "sim",
        arguments: &[FIRST_FILE, OTHER_FILE, TOP],
    },
];

/// The program's command, of which a subcommand is wanted.
pub(crate) fn circt_command<'a>(alloc: Global) -> Result<Command<'a>, AllocError>
    ensures { IfOk result (IsMade circt_app) }
{
    with_subcommands(alloc, bare_command(alloc), &SUBCOMMANDS)
}

fn bare_command<'a>(alloc: Global) -> Command<'a>
    ensures { IsMade (bare (new_app (codes "circt"))) result }
{
    Command::new(alloc, "circt")
        .no_binary_name(true)
        .disable_help_flag(true)
        .disable_help_subcommand(true)
        .subcommand_required(true)
}

/// The command with these subcommands.
fn with_subcommands<'a>(
    alloc: Global,
    start: Command<'a>,
    subcommands: &[Subcommand],
) -> Result<Command<'a>, AllocError>
    ensures { IfOk result (Gathers start.entry (map app_in subcommands.now)) }
{
    let mut command = start;
    for subcommand in subcommands {
        match with_subcommand(alloc, command, subcommand) {
            Ok(more) => command = more,
            Err(error) => return Err(error),
        }
    }
    Ok(command)
}

/// The command with one more subcommand.
fn with_subcommand<'a>(
    alloc: Global,
    command: Command<'a>,
    subcommand: &Subcommand,
) -> Result<Command<'a>, AllocError>
    ensures { IfOk result (Gathers command.entry (app_in subcommand.now ∷ [])) }
{
    match subcommand_of(alloc, subcommand) {
        Ok(added) => command.subcommand(added),
        Err(error) => {
            // By a call, so that its many fields are not dropped here one by one.
            drop(command);
            Err(error)
        }
    }
}

/// A subcommand with its arguments.
fn subcommand_of<'a>(alloc: Global, subcommand: &Subcommand) -> Result<Command<'a>, AllocError>
    ensures { IfOk result (IsMade (app_in subcommand.now)) }
{
    let command = Command::new(alloc, subcommand.name);
    with_arguments(alloc, command, subcommand.arguments)
}

/// The command with these arguments.
fn with_arguments<'a>(
    alloc: Global,
    start: Command<'a>,
    arguments: &[Argument],
) -> Result<Command<'a>, AllocError>
    ensures { IfOk result (GrowsBy start.entry (map rule_in arguments.now)) }
{
    let mut command = start;
    for argument in arguments {
        match with_argument(alloc, command, argument) {
            Ok(more) => command = more,
            Err(error) => return Err(error),
        }
    }
    Ok(command)
}

/// The command with one more argument.
fn with_argument<'a>(
    alloc: Global,
    command: Command<'a>,
    argument: &Argument,
) -> Result<Command<'a>, AllocError>
    ensures { IfOk result (Grows command.entry (rule_in argument.now)) }
{
    command.arg(arg_of(alloc, argument))
}
