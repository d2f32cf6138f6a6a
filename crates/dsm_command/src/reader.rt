//! The reader of words.

ghost use Rattle.std.specs.Prelude.{◌≡◌, ◌≤◌, codes, None, Some, List, IfOk, IfSome, map, string_bytes, option_map};
ghost use Rattle.std.specs.Str.{bytes_eq};
ghost use Rattle.clap.specs.Words.{rows_of, found_of};
ghost use Rattle.dsm_command.specs.Commands.{number_in, run_of, check_of, plain_of, load_of, other_of, command_with, command_of};
ghost use Rattle.dsm_command.specs.InCode.{command_in, texts_in, one_of, two_of, bounded, Answers};
ghost use Rattle.dsm_command.specs.Parser.{Parts, Says};

use crate::command::{Command, WordsErr};
use crate::parser::parser;
use clap::ArgMatches;
use clap::error::ErrorKind;
use std::alloc::Global;
use std::num::ParseIntError;

/// The text that there is, where there is one.
fn one<'a>(texts: Option<&[&'a str]>) -> Option<&'a str>
    ensures { option_map (λ text. text.now) result ≡ one_of (texts_in texts.entry) }
{
    match texts {
        Some(texts) if texts.len() == 1 => Some(texts[0]),
        _ => None,
    }
}

/// The texts that there are, where there are two.
fn two<'a>(texts: Option<&[&'a str]>) -> Option<(&'a str, &'a str)>
    ensures { option_map (λ pair. (pair.0.now, pair.1.now)) result ≡ two_of (texts_in texts.entry) }
{
    match texts {
        Some(texts) if texts.len() == 2 => Some((texts[0], texts[1])),
        _ => None,
    }
}

/// A number that was read, where it is in a range.
fn bounded(parsed: Result<u32, ParseIntError>, least: u32, most: u32) -> Option<u32>
    ensures { result ≡ bounded least most parsed }
{
    match parsed {
        Ok(number) if least <= number && number <= most => Some(number),
        _ => None,
    }
}

/// The number that a text stands for in decimal, with no zero in front, where it is in a range.
fn number(text: &str, least: u32, most: u32) -> Option<u32>
    ensures { result ≡ number_in least most text.now }
{
    let bytes = text.as_bytes();
    if bytes.len() == 0 || bytes[0] == b'+' {
        return None;
    }
    if bytes[0] == b'0' && bytes.len() > 1 {
        return None;
    }
    let parsed = text.parse::<u32>();
    bounded(parsed, least, most)
}

fn run(alloc: Global, trace: bool, state: bool, names: Option<&[&str]>) -> Result<Command, WordsErr>
    ensures { Answers (run_of trace state (texts_in names.entry)) result }
{
    let (program, schedule) = two(names).ok_or(WordsErr::Refused)?;
    Ok(Command::Run {
        program: String::from_str(alloc, program)?,
        schedule: String::from_str(alloc, schedule)?,
        trace,
        state,
    })
}

fn check(
    alloc: Global,
    names: Option<&[&str]>,
    numbers: Option<&[&str]>,
) -> Result<Command, WordsErr>
    ensures { Answers (check_of (texts_in names.entry) (texts_in numbers.entry)) result }
{
    let program = one(names).ok_or(WordsErr::Refused)?;
    let text = one(numbers).ok_or(WordsErr::Refused)?;
    let procs = number(text, 2, 16).ok_or(WordsErr::Refused)?;
    Ok(Command::Check {
        program: String::from_str(alloc, program)?,
        procs: procs as u8,
    })
}

fn plain(alloc: Global, names: Option<&[&str]>) -> Result<Command, WordsErr>
    ensures { Answers (plain_of (texts_in names.entry)) result }
{
    let (program, picks) = two(names).ok_or(WordsErr::Refused)?;
    Ok(Command::Plain {
        program: String::from_str(alloc, program)?,
        picks: String::from_str(alloc, picks)?,
    })
}

fn load(names: Option<&[&str]>) -> Result<Command, WordsErr>
    ensures { Answers (load_of (texts_in names.entry)) result }
{
    let text = one(names).ok_or(WordsErr::Refused)?;
    let seed = number(text, 0, 999_999).ok_or(WordsErr::Refused)?;
    Ok(Command::Load { seed })
}

/// A command that has no flags.
fn other(
    alloc: Global,
    command: &str,
    names: Option<&[&str]>,
    numbers: Option<&[&str]>,
) -> Result<Command, WordsErr>
    ensures { Answers (other_of command.now (texts_in names.entry) (texts_in numbers.entry)) result }
{
    match command {
        "check" => check(alloc, names, numbers),
        "plain" => plain(alloc, names),
        "load" => load(names),
        _ => Err(WordsErr::Refused),
    }
}

/// The command of this name, with its flags, its positionals and its numbers of processors.
fn command_with(
    alloc: Global,
    command: &str,
    flags: (bool, bool),
    names: Option<&[&str]>,
    numbers: Option<&[&str]>,
) -> Result<Command, WordsErr>
    ensures { Answers (command_with command.now flags.0 flags.1
        (texts_in names.entry) (texts_in numbers.entry)) result }
{
    if command == "run" {
        return run(alloc, flags.0, flags.1, names);
    }
    other(alloc, command, names, numbers)
}

/// The command of this name, by what was found in its words.
fn command_found(alloc: Global, command: &str, found: &ArgMatches<'_>) -> Result<Command, WordsErr>
    ensures { (parts : Parts)
        → Says (bytes_eq (codes "run") command.now) (rows_of (found_of found.now)) parts
        → Answers (command_with command.now parts.trace parts.state parts.names parts.numbers) result }
{
    let trace = found.get_flag("trace");
    let state = found.get_flag("state");
    let names = found.get_strs("names");
    let numbers = found.get_strs("procs");
    command_with(alloc, command, (trace, state), names, numbers)
}

/// Reads the words behind a program's name. `Refused` where they are those of no command; `Memory` where
/// there is no memory for what they ask for.
pub fn read_command(alloc: Global, words: &Vec<String>) -> Result<Command, WordsErr>
    ensures command { IfOk result (λ command.
        command_of (map string_bytes words.now.items) ≡ Some (command_in command)) }
    ensures refused { result ≡ Err WordsErr.Refused
        → command_of (map string_bytes words.now.items) ≡ None }
{
    let parser = parser(alloc)?;
    let matches = match parser.try_get_matches_from(words.as_slice()) {
        Ok(matches) => matches,
        Err(error) => {
            if error.kind() == ErrorKind::OutOfMemory {
                return Err(WordsErr::Memory);
            }
            return Err(WordsErr::Refused);
        }
    };
    match matches.subcommand() {
        Some((command, found)) => command_found(alloc, command, found),
        None => Err(WordsErr::Refused),
    }
}
