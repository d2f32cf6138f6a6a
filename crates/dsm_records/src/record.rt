//! The texts of records, each without its newline.

ghost use Rattle.std.specs.Prelude.{◌≡◌, ◌++◌, IfOk, string_bytes};
ghost use Rattle.dsm_records.specs.Texts.{mode_name, lines_text, label_text, body_text, image_text, record_text};

use dsm_base::{Label, MemFault, Mode, Text, fault_name};
use dsm_lines::LineList;
use dsm_msg::Body;
use dsm_net::Rec;
use std::alloc::Global;

fn mode_name(mode: Mode) -> &'static str
    ensures { result.now ≡ mode_name mode }
{
    match mode {
        Mode::Shared => "shared",
        Mode::Excl => "excl",
    }
}

fn as_text(text: String) -> Text
    ensures { result ≡ string_bytes text }
{
    Text::from_vec(text.into_bytes())
}

/// Some bytes behind a text.
fn with_bytes(text: String, bytes: &[u8]) -> Result<Text, MemFault>
    ensures { IfOk result (λ whole. whole ≡ string_bytes text ++ bytes.now) }
{
    let mut whole = text.into_bytes();
    whole.extend_from_slice(bytes)?;
    Ok(Text::from_vec(whole))
}

/// Lines by their numbers.
fn lines_text(alloc: Global, lines: &LineList) -> Result<String, MemFault>
    ensures { IfOk result (λ text. string_bytes text ≡ lines_text lines.now) }
{
    let mut text = String::from_str(alloc, "lines")?;
    for line in lines.as_slice() {
        let number = line.number;
        let one = format!(in alloc; " {number}")?;
        text.push_str(&one)?;
    }
    Ok(text)
}

/// What a turn showed, with the lines that it brought.
fn label_text(alloc: Global, label: &Label, lines: &LineList) -> Result<Text, MemFault>
    ensures { IfOk result (λ text. text ≡ label_text label.now lines.now) }
{
    match label {
        Label::Quiet => Ok(Text::from_slice(alloc, b"quiet")?),
        Label::Load(cell, value) => {
            let (cell, value) = (cell.0, *value);
            Ok(as_text(format!(in alloc; "load {cell} {value}")?))
        }
        Label::Store(cell, value) => {
            let (cell, value) = (cell.0, *value);
            Ok(as_text(format!(in alloc; "store {cell} {value}")?))
        }
        Label::Ask(lock, mode) => {
            let (lock, mode) = (lock.0, mode_name(*mode));
            Ok(as_text(format!(in alloc; "ask {lock} {mode}")?))
        }
        Label::Take(lock, mode, version) => {
            let (lock, mode, version) = (lock.0, mode_name(*mode), *version);
            let lines = lines_text(alloc, lines)?;
            Ok(as_text(format!(in alloc; "take {lock} {mode} {version} {lines}")?))
        }
        Label::Give(lock) => {
            let lock = lock.0;
            Ok(as_text(format!(in alloc; "give {lock}")?))
        }
        Label::Arrive(bar) => {
            let bar = bar.0;
            Ok(as_text(format!(in alloc; "arrive {bar}")?))
        }
        Label::Cross(bar, epoch) => {
            let (bar, epoch) = (bar.0, *epoch);
            let lines = lines_text(alloc, lines)?;
            Ok(as_text(format!(in alloc; "cross {bar} {epoch} {lines}")?))
        }
        Label::Line(text) => with_bytes(String::from_str(alloc, "line ")?, text.as_slice()),
        Label::End => Ok(Text::from_slice(alloc, b"end")?),
        Label::Stop(fault, line) => {
            let (fault, line) = (fault_name(*fault), *line);
            Ok(as_text(format!(in alloc; "stop {fault} {line}")?))
        }
    }
}

/// What a message said.
fn body_text(alloc: Global, body: &Body) -> Result<String, MemFault>
    ensures { IfOk result (λ text. string_bytes text ≡ body_text body.now) }
{
    match body {
        Body::Req { lock, mode, have } => {
            let (lock, mode, have) = (lock.0, mode_name(*mode), *have);
            Ok(format!(in alloc; "req {lock} {mode} {have}")?)
        }
        Body::Grant {
            lock,
            mode,
            version,
            lines,
            ..
        } => {
            let (lock, mode, version) = (lock.0, mode_name(*mode), *version);
            let lines = lines_text(alloc, lines)?;
            Ok(format!(in alloc; "grant {lock} {mode} {version} {lines}")?)
        }
        Body::Release {
            lock,
            mode,
            version,
            lines,
        } => {
            let (lock, mode, version) = (lock.0, mode_name(*mode), *version);
            let lines = lines_text(alloc, lines)?;
            Ok(format!(in alloc; "release {lock} {mode} {version} {lines}")?)
        }
        Body::Arrive { bar, epoch, lines } => {
            let (bar, epoch) = (bar.0, *epoch);
            let lines = lines_text(alloc, lines)?;
            Ok(format!(in alloc; "arrive {bar} {epoch} {lines}")?)
        }
        Body::Opened { bar, epoch, lines } => {
            let (bar, epoch) = (bar.0, *epoch);
            let lines = lines_text(alloc, lines)?;
            Ok(format!(in alloc; "open {bar} {epoch} {lines}")?)
        }
        Body::Note => Ok(String::from_str(alloc, "note")?),
        Body::Ack => Ok(String::from_str(alloc, "ack")?),
        Body::Resync { bodies } => {
            let count = bodies.len();
            Ok(format!(in alloc; "resync {count}")?)
        }
        Body::Report(_) => Ok(String::from_str(alloc, "report")?),
        Body::Pruned { .. } => Ok(String::from_str(alloc, "pruned")?),
    }
}

/// What happened to an image, or to a processor with its image.
fn image_text(alloc: Global, one: &Rec) -> Result<Text, MemFault>
    ensures { IfOk result (λ text. text ≡ image_text one.now) }
{
    match one {
        Rec::Begun { proc, turn, blocks } => {
            let (proc, turn, blocks) = (proc.0, *turn, *blocks);
            Ok(as_text(format!(in alloc; "begun {proc} {turn} {blocks}")?))
        }
        Rec::Wrote { proc, block } => {
            let (proc, block) = (proc.0, *block);
            Ok(as_text(format!(in alloc; "wrote {proc} {block}")?))
        }
        Rec::Torn { proc, block, kept } => {
            let (proc, block, kept) = (proc.0, *block, *kept);
            Ok(as_text(format!(in alloc; "torn {proc} {block} {kept}")?))
        }
        Rec::Marked { proc, turn } => {
            let (proc, turn) = (proc.0, *turn);
            Ok(as_text(format!(in alloc; "marked {proc} {turn}")?))
        }
        Rec::GaveUp { proc } => {
            let proc = proc.0;
            Ok(as_text(format!(in alloc; "gaveup {proc}")?))
        }
        Rec::Crashed { proc } => {
            let proc = proc.0;
            Ok(as_text(format!(in alloc; "crashed {proc}")?))
        }
        Rec::Reloaded { proc, turn } => {
            let (proc, turn) = (proc.0, *turn);
            Ok(as_text(format!(in alloc; "reloaded {proc} {turn}")?))
        }
        Rec::Replayed { proc, turn } => {
            let (proc, turn) = (proc.0, *turn);
            Ok(as_text(format!(in alloc; "replayed {proc} {turn}")?))
        }
        _ => Ok(Text::from_vec(Vec::new(alloc))),
    }
}

/// What happened. `MemFault` comes out of memory.
pub(crate) fn record_text(alloc: Global, one: &Rec) -> Result<Text, MemFault>
    ensures { IfOk result (λ text. text ≡ record_text one.now) }
{
    match one {
        Rec::Turn {
            proc,
            turn,
            label,
            lines,
        } => {
            let (proc, turn) = (proc.0, *turn);
            let label = label_text(alloc, label, lines)?;
            with_bytes(format!(in alloc; "turn {proc} {turn} ")?, label.as_slice())
        }
        Rec::Sent { number, msg } => {
            let (number, from, to) = (*number, msg.from.0, msg.to.0);
            let body = body_text(alloc, &msg.body)?;
            Ok(as_text(format!(in alloc; "sent {number} {from} {to} {body}")?))
        }
        Rec::Delivered { number } => {
            let number = *number;
            Ok(as_text(format!(in alloc; "delivered {number}")?))
        }
        Rec::Dropped { number } => {
            let number = *number;
            Ok(as_text(format!(in alloc; "dropped {number}")?))
        }
        Rec::Out { proc, turn, .. } => {
            let (proc, turn) = (proc.0, *turn);
            Ok(as_text(format!(in alloc; "out {proc} {turn}")?))
        }
        _ => image_text(alloc, one),
    }
}
