//! The commands, as the parser of words has them.

ghost use Rattle.std.specs.Prelude.{◌≡◌, codes, IfOk};
ghost use Rattle.clap.specs.Words.{app_of, AddsSubcommand, with_subcommand};
ghost use Rattle.clap.specs.declared.Command.{Command};
ghost use Rattle.dsm_command.specs.Parser.{names_command, run_command, check_command, program};

use clap::{Arg, ArgAction, Command};
use std::alloc::{AllocError, Global};

fn run_command<'a>(alloc: Global) -> Result<Command<'a>, AllocError>
    ensures { IfOk result (λ command. (old new : Command) → AddsSubcommand old command new
        → app_of new ≡ with_subcommand (app_of old) run_command.top) }
{
    let names = Arg::new(alloc, "names").action(ArgAction::Append);
    let trace = Arg::new(alloc, "trace")
        .long("trace")
        .action(ArgAction::SetTrue);
    let state = Arg::new(alloc, "state")
        .long("state")
        .action(ArgAction::SetTrue);
    Command::new(alloc, "run")
        .arg(names)?
        .arg(trace)?
        .arg(state)
}

fn check_command<'a>(alloc: Global) -> Result<Command<'a>, AllocError>
    ensures { IfOk result (λ command. (old new : Command) → AddsSubcommand old command new
        → app_of new ≡ with_subcommand (app_of old) check_command.top) }
{
    let names = Arg::new(alloc, "names").action(ArgAction::Append);
    let procs = Arg::new(alloc, "procs")
        .long("procs")
        .action(ArgAction::Append);
    Command::new(alloc, "check").arg(names)?.arg(procs)
}

/// A command that takes names alone.
fn names_command<'a>(alloc: Global, name: &'a str) -> Result<Command<'a>, AllocError>
    ensures { IfOk result (λ command. (old new : Command) → AddsSubcommand old command new
        → app_of new ≡ with_subcommand (app_of old) (names_command name.entry.now).top) }
{
    let names = Arg::new(alloc, "names").action(ArgAction::Append);
    Command::new(alloc, name).arg(names)
}

/// The parser of the whole command line.
pub(crate) fn parser<'a>(alloc: Global) -> Result<Command<'a>, AllocError>
    ensures { IfOk result (λ command. app_of command ≡ program) }
{
    let run = run_command(alloc)?;
    let check = check_command(alloc)?;
    let plain = names_command(alloc, "plain")?;
    let load = names_command(alloc, "load")?;
    Command::new(alloc, "dsm")
        .no_binary_name(true)
        .disable_help_flag(true)
        .disable_version_flag(true)
        .disable_help_subcommand(true)
        .subcommand_required(true)
        .subcommand(run)?
        .subcommand(check)?
        .subcommand(plain)?
        .subcommand(load)
}
