// The command as clap reads it.
ghost use Rattle.std.specs.Prelude.{◌≡◌, false, Some, IfOk, fold, codes};
ghost use Rattle.clap.specs.Words.{app_of, new_rule, rule_of, with_rule};
ghost use Rattle.clap.specs.declared.builder.action.ArgAction.TheVariants.{SetTrue};
ghost use Rattle.command_line.specs.Command.{option_rule, slif_app};

use clap::{Arg, ArgAction, Command};
use std::alloc::{AllocError, Global};

/// The options with a value, by their long names.
pub const WITH_VALUE: &[&str] = &[
    "grammar", "input", "first", "rank", "show", "at", "size", "after", "give",
];

// An option with a value, by its long name.
fn option<'a>(alloc: Global, name: &'a str) -> Arg<'a>
    ensures rule { rule_of result ≡ record (new_rule name.now) { long = Some name.now } }
    ensures local { result.global ≡ false }
{
    Arg::new(alloc, name).long(name)
}

// A flag, by its long name.
fn flag<'a>(alloc: Global, name: &'a str) -> Arg<'a>
    ensures rule { rule_of result ≡ record (new_rule name.now) { long = Some name.now; action = Some SetTrue } }
    ensures local { result.global ≡ false }
{
    Arg::new(alloc, name).long(name).action(ArgAction::SetTrue)
}

fn operand<'a>(alloc: Global, name: &'a str) -> Arg<'a>
    ensures rule { rule_of result ≡ new_rule name.now }
    ensures local { result.global ≡ false }
{
    Arg::new(alloc, name)
}

// Adds an option with a value for each of the names.
fn with_options<'a>(
    alloc: Global,
    command: Command<'a>,
    names: &[&'a str],
) -> Result<Command<'a>, AllocError>
    ensures { IfOk result (λ r. app_of r ≡ fold (λ app name. with_rule app (option_rule name.now)) (app_of command.entry) names.now) }
{
    let mut command = command;
    for name in names {
        command = command.arg(option(alloc, *name))?;
    }
    Ok(command)
}

/// The operand JOB, and the options of all jobs.
pub fn slif_command<'a>(alloc: Global) -> Result<Command<'a>, AllocError>
    ensures { IfOk result (λ command. app_of command ≡ slif_app) }
{
    with_options(
        alloc,
        Command::new(alloc, "slif")
            .no_binary_name(true)
            .disable_help_flag(true),
        WITH_VALUE,
    )?
    .arg(flag(alloc, "stats"))?
    .arg(operand(alloc, "JOB"))
}
