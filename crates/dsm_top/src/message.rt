//! The messages of refusals.

ghost use Rattle.std.specs.Prelude.{◌≡◌, [], ◌++◌, get_or, string_bytes, MatchOption, OnOk, IfOk};
ghost use Rattle.std.specs.Fmt.{decimal};
ghost use Rattle.dsm_syntax.specs.declared.errors.ProgErr.{ProgErr};
ghost use Rattle.dsm_command.specs.InCode.{command_in};
ghost use Rattle.dsm_top.specs.Command.{files_of};
ghost use Rattle.dsm_top.specs.CommandInCode.{told_command};
ghost use Rattle.dsm_top.specs.Messages.{numbered, at_line, named, limit_name, program_text, schedule_text, file_name, refusal_text, message_line};

use crate::status::Status;
use dsm_base::{MemFault, SchedErr, Text};
use dsm_command::Command;
use dsm_syntax::{ProgErr, Which};
use std::alloc::Global;
use std::marker::Model;

/// A text that is being put together.
#[derive(Drop)]
pub(crate) struct Line {
    bytes: Vec<u8>,
}

impl Model for Line {
    ghost use Rattle.std.specs.Prelude.{List, ℕ};

    ghost Value = { List ℕ };

    ghost view = { λ line. line.bytes.items };
}

impl Line {
    pub fn new(alloc: Global) -> Line
        ensures { result ≡ [] }
    {
        Line {
            bytes: Vec::new(alloc),
        }
    }

    pub fn text(&mut self, text: &str) -> Result<(), MemFault>
        ensures { OnOk result (self.new ≡ self.old ++ text.now) }
    {
        self.bytes.extend_from_slice(text.as_bytes())?;
        Ok(())
    }

    pub fn bytes(&mut self, bytes: &[u8]) -> Result<(), MemFault>
        ensures { OnOk result (self.new ≡ self.old ++ bytes.now) }
    {
        self.bytes.extend_from_slice(bytes)?;
        Ok(())
    }

    pub fn number(&mut self, alloc: Global, number: u32) -> Result<(), MemFault>
        ensures { OnOk result (self.new ≡ self.old ++ decimal number) }
    {
        let digits = number.to_string(alloc)?;
        self.bytes.extend_from_slice(digits.as_bytes())?;
        Ok(())
    }

    pub fn count(&mut self, alloc: Global, count: u64) -> Result<(), MemFault>
        ensures { OnOk result (self.new ≡ self.old ++ decimal count) }
    {
        let digits = count.to_string(alloc)?;
        self.bytes.extend_from_slice(digits.as_bytes())?;
        Ok(())
    }

    pub fn as_slice(&self) -> &[u8]
        ensures { result.now ≡ self.now }
    {
        self.bytes.as_slice()
    }
}

/// A text with a number behind it.
fn write_number(out: &mut Line, alloc: Global, text: &str, number: u32) -> Result<(), MemFault>
    ensures { OnOk result (out.new ≡ out.old ++ numbered text.now number) }
{
    out.text(text)?;
    out.number(alloc, number)
}

/// A text with a count behind it.
fn write_count(out: &mut Line, alloc: Global, text: &str, count: u64) -> Result<(), MemFault>
    ensures { OnOk result (out.new ≡ out.old ++ numbered text.now count) }
{
    out.text(text)?;
    out.count(alloc, count)
}

/// A text with a line of the source behind it.
fn write_at(out: &mut Line, alloc: Global, text: &str, line: u32) -> Result<(), MemFault>
    ensures { OnOk result (out.new ≡ out.old ++ (text.now ++ at_line line)) }
{
    out.text(text)?;
    write_number(out, alloc, ", line ", line)
}

/// A name between two texts, with a line of the source behind it.
fn write_named(
    out: &mut Line,
    alloc: Global,
    before: &str,
    name: &Text,
    after: &str,
    line: u32,
) -> Result<(), MemFault>
    ensures { OnOk result (out.new ≡ out.old ++ named before.now name.now after.now line) }
{
    out.text(before)?;
    out.bytes(name.as_slice())?;
    write_at(out, alloc, after, line)
}

fn limit_name(which: Which) -> &'static str
    ensures { result.now ≡ limit_name which }
{
    match which {
        Which::Text => "Text",
        Which::Name => "Name",
        Which::Tokens => "Tokens",
        Which::Nesting => "Nesting",
        Which::Functions => "Functions",
        Which::Params => "Params",
        Which::Slots => "Slots",
        Which::PrintParts => "PrintParts",
        Which::PrintText => "PrintText",
        Which::SharedCells => "SharedCells",
        Which::PrivateCells => "PrivateCells",
        Which::Locks => "Locks",
        Which::Barriers => "Barriers",
    }
}

fn write_limit(out: &mut Line, alloc: Global, which: Which, count: u32) -> Result<(), MemFault>
    ensures { OnOk result (out.new ≡ out.old ++ program_text (ProgErr.Limit which count)) }
{
    out.text("limit ")?;
    out.text(limit_name(which))?;
    out.text(", count ")?;
    out.number(alloc, count)
}

fn write_arguments(
    out: &mut Line,
    alloc: Global,
    name: &Text,
    given: u32,
    wanted: u32,
    line: u32,
) -> Result<(), MemFault>
    ensures { OnOk result
        (out.new ≡ out.old ++ program_text (ProgErr.ArgCount name.now line given wanted)) }
{
    out.bytes(name.as_slice())?;
    out.text(" takes ")?;
    out.number(alloc, wanted)?;
    out.text(", given ")?;
    out.number(alloc, given)?;
    write_at(out, alloc, "", line)
}

fn write_overlap(out: &mut Line, alloc: Global, cell: u32, line: u32) -> Result<(), MemFault>
    ensures { OnOk result (out.new ≡ out.old ++ program_text (ProgErr.BindOverlap cell line)) }
{
    out.text("cell ")?;
    out.number(alloc, cell)?;
    write_at(out, alloc, " bound twice", line)
}

fn write_owner(out: &mut Line, alloc: Global, owner: u32, procs: u8) -> Result<(), MemFault>
    ensures { OnOk result (out.new ≡ out.old ++ program_text (ProgErr.BindOwner owner procs)) }
{
    write_number(out, alloc, "owner ", owner)?;
    write_number(out, alloc, " with ", u32::from(procs))?;
    out.text(" processors")
}

/// Why a program is refused.
fn write_program_error(out: &mut Line, alloc: Global, error: &ProgErr) -> Result<(), MemFault>
    ensures { OnOk result (out.new ≡ out.old ++ program_text error.now) }
{
    match error {
        ProgErr::BadByte { line } => write_at(out, alloc, "bad byte", *line),
        ProgErr::LiteralTooLarge { line } => write_at(out, alloc, "literal too large", *line),
        ProgErr::Limit { which, count } => write_limit(out, alloc, *which, *count),
        ProgErr::Unexpected { line } => write_at(out, alloc, "unexpected token", *line),
        ProgErr::Unknown { name, line } => {
            write_named(out, alloc, "unknown name ", name, "", *line)
        }
        ProgErr::Twice { name, line } => write_named(out, alloc, "name ", name, " twice", *line),
        ProgErr::WrongKind { name, line } => write_named(
            out,
            alloc,
            "wrong kind ",
            name,
            "",
            *line,
        ),
        ProgErr::ArgCount {
            name,
            line,
            given,
            wanted,
        } => write_arguments(out, alloc, name, *given, *wanted, *line),
        ProgErr::NoMain => out.text("no main"),
        ProgErr::BindRange { line } => write_at(out, alloc, "binding out of range", *line),
        ProgErr::BindOverlap { cell, line } => write_overlap(out, alloc, *cell, *line),
        ProgErr::BindOwner { owner, procs } => write_owner(out, alloc, *owner, *procs),
        ProgErr::OutsideLoop { line } => write_at(out, alloc, "outside a loop", *line),
        ProgErr::NotBuilt { line } => write_at(out, alloc, "not built", *line),
        ProgErr::Memory => out.text("out of memory"),
    }
}

/// Why a schedule is refused.
fn write_schedule_error(out: &mut Line, alloc: Global, error: SchedErr) -> Result<(), MemFault>
    ensures { OnOk result (out.new ≡ out.old ++ schedule_text error) }
{
    match error {
        SchedErr::NoProcs => out.text("no procs"),
        SchedErr::BadEntry { line } => write_at(out, alloc, "bad entry", line),
        SchedErr::OutOfRange { line } => write_at(out, alloc, "out of range", line),
        SchedErr::SecondCrash { line } => write_at(out, alloc, "second crash", line),
        SchedErr::NoCrash { line } => write_at(out, alloc, "no crash", line),
        SchedErr::TooMany { count } => write_count(out, alloc, "too many units, ", count),
        SchedErr::TooLong { bytes } => write_number(out, alloc, "too long, ", bytes),
        SchedErr::NotBuilt { line } => write_at(out, alloc, "not built", line),
        SchedErr::Memory => out.text("out of memory"),
    }
}

/// The file with this number: 0 is the first that the command names.
fn file_of(command: &Command, number: u8) -> Option<&String>
    ensures { MatchOption result (get_or (files_of (command_in command.now)) number [] ≡ [])
        (λ name. get_or (files_of (command_in command.now)) number [] ≡ string_bytes name.now) }
{
    match (command, number) {
        (Command::Run { program, .. }, 0) => Some(program),
        (Command::Check { program, .. }, 0) => Some(program),
        (Command::Plain { program, .. }, 0) => Some(program),
        (Command::Run { schedule, .. }, 1) => Some(schedule),
        (Command::Plain { picks, .. }, 1) => Some(picks),
        _ => None,
    }
}

/// The name of the file that could not be read, by its number.
fn write_file_name(out: &mut Line, command: Option<&Command>, file: u8) -> Result<(), MemFault>
    ensures { OnOk result (out.new ≡ out.old ++ file_name (told_command command.entry) file) }
{
    let Some(command) = command else {
        return Ok(());
    };
    match file_of(command, file) {
        Some(name) => out.text(name.as_str()),
        None => Ok(()),
    }
}

/// Why a status refuses, where it does.
fn write_refusal(
    out: &mut Line,
    alloc: Global,
    command: Option<&Command>,
    status: &Status,
) -> Result<(), MemFault>
    ensures { OnOk result
        (out.new ≡ out.old ++ refusal_text (told_command command.entry) status.now) }
{
    match status {
        Status::ProgramRefused(error) => {
            out.text("program refused: ")?;
            write_program_error(out, alloc, error)
        }
        Status::ScheduleRefused(error) => {
            out.text("schedule refused: ")?;
            write_schedule_error(out, alloc, *error)
        }
        Status::WordsRefused => out.text("words refused"),
        Status::ReadFault(file) => {
            out.text("cannot read ")?;
            write_file_name(out, command, *file)
        }
        _ => Ok(()),
    }
}

/// The message of a refusal: one line.
pub(crate) fn message(
    alloc: Global,
    command: Option<&Command>,
    status: &Status,
) -> Result<Line, MemFault>
    ensures { IfOk result (λ line.
        line ≡ message_line (refusal_text (told_command command.entry) status.now)) }
{
    let mut line = Line::new(alloc);
    line.text("dsm: ")?;
    write_refusal(&mut line, alloc, command, status)?;
    line.text("\n")?;
    Ok(line)
}
