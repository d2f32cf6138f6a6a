//! The texts of lines.

ghost use Rattle.std.specs.Prelude.{◌≡◌, ◌++◌, map, IfOk, OnOk};
ghost use Rattle.dsm_check.specs.Views.{view_part};
ghost use Rattle.dsm_semantics.specs.States.{top, below};
ghost use Rattle.dsm_semantics.specs.Semantics.{parts_text, text_at};
ghost use Rattle.dsm_semantics.specs.Within.{Extent, ArePartsWithin, most_bytes, IsStateWithin};
ghost use Rattle.dsm_base.specs.Output.{IsLine};
ghost use Rattle.dsm_interpreter.specs.Lines.{Grows};
ghost use Rattle.dsm_interpreter.specs.Threads.{state_in};

use crate::execution::Execution;
use crate::finish::values_in;
use crate::item::Item;
use dsm_base::{MemFault, Text};
use dsm_check::Part;
use itoa::Buffer;
use std::alloc::Global;
use std::marker::Model;

/// The values that are left, which contracts see as a list.
#[derive(Drop)]
struct ValuesLeft<'a> {
    left: &'a [i64],
}

impl<'a> Model for ValuesLeft<'a> {
    ghost use Rattle.std.specs.Prelude.{List, ℤ};

    ghost Value = { List ℤ };

    ghost view = { λ values. values.left.now };
}

impl<'a> ValuesLeft<'a> {
    fn new(values: &'a [i64]) -> ValuesLeft<'a>
        ensures { result ≡ values.now }
    {
        ValuesLeft { left: values }
    }

    /// The next value; 0 where there is none.
    fn next(&mut self) -> i64
        ensures value { result ≡ top self.old }
        ensures left { self.new ≡ below self.old }
    {
        match self.left.split_first() {
            None => 0,
            Some((value, left)) => {
                self.left = left;
                *value
            }
        }
    }
}

/// Appends the texts of the parts of a print, with nothing between: strings as they are, and values in
/// decimal.
fn write_parts(line: &mut Vec<u8>, parts: &[Part], values: &[i64]) -> Result<(), MemFault>
    ensures text { OnOk result (line.new.items ≡
        line.old.items ++ parts_text (map view_part parts.now) values.now) }
    ensures grows { OnOk result ((extent : Extent) →
        ArePartsWithin extent (map view_part parts.now) →
        Grows (most_bytes (map view_part parts.now)) line.old.items line.new.items) }
{
    let mut values = ValuesLeft::new(values);
    for part in parts {
        match part {
            Part::Text(text) => line.extend_from_slice(text.as_slice())?,
            Part::Value(_) => {
                let value = values.next();
                line.extend_from_slice(Buffer::new().format(value).as_bytes())?;
            }
        }
    }
    Ok(())
}

impl Execution<'_> {
    /// The text of the line that is wanted: at most 256 bytes, each from 0x20 to 0x7E. `MemFault` comes
    /// for want of memory.
    pub fn text(&self, alloc: Global) -> Result<Text, MemFault>
        ensures text { IfOk result (λ text.
            text ≡ text_at (state_in self.now).todo (state_in self.now).operands) }
        ensures line { (extent : Extent) → IsStateWithin extent (state_in self.now) →
            IfOk result IsLine }
    {
        let mut line = Vec::new(alloc);
        if let Some(item) = self.frame.todo.top() {
            if let Item::Print(parts) = item {
                let values = self.frame.operands.topmost(values_in(parts));
                write_parts(&mut line, parts, values)?;
            }
        }
        Ok(Text::from_vec(line))
    }
}
