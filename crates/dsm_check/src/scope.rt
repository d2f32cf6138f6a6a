//! The names that are known at a place of a body.

ghost use Rattle.std.specs.Prelude.{◌≡◌, ◌+◌, ◌≤◌, [], OnOk, IfOk};
ghost use Rattle.dsm_check.specs.Environments.{meaning, is_here, closed};
ghost use Rattle.dsm_check.specs.Checks.{used};
ghost use Rattle.dsm_check.specs.Bodies.{open_block, with_variable};
ghost use Rattle.dsm_check.specs.FileTables.{names_of};
ghost use Rattle.dsm_check.specs.Answers.{Gives};

use crate::limits::within;
use crate::names::{Named, Names};
use crate::refusal::{twice, unknown};
use dsm_base::{MemFault, Stack, Text};
use dsm_syntax::{Name, ProgErr, Which};
use sqlite_items::Items;
use std::alloc::Global;

/// Where a block begins, or a variable with its slot.
#[derive(Clone, Copy)]
pub enum Known<'a> {
    Opened,
    Variable(&'a [u8], u8),
}

impl<'a> Known<'a> {
    ghost use Rattle.dsm_check.specs.BodyTables.{is_opened};

    fn is_opened(self) -> bool
        ensures { result ≡ is_opened self.entry }
    {
        matches!(self, Known::Opened)
    }
}

/// The names of a function up to a place of its body, over those of the file; and those of all its
/// variables up to there, by slot.
#[derive(Drop)]
pub struct Scope<'a> {
    pub alloc: Global,
    pub file: &'a Names,
    pub locals: Stack<Known<'a>>,
    pub variables: Items<Text>,
    pub slots: u8,
}

impl<'a> Scope<'a> {
    ghost use Rattle.dsm_check.specs.BodyTables.{scope_of, blocks_in};

    /// The names of a file, and none of a function.
    pub fn new(alloc: Global, file: &'a Names) -> Scope<'a>
        ensures value { scope_of result ≡
            record { names = names_of file.now; variables = []; slots = 0 } }
        ensures slots { result.slots ≡ 0 }
    {
        Scope {
            alloc,
            file,
            locals: Stack::new(alloc),
            variables: Items::new(alloc),
            slots: 0,
        }
    }

    /// What a name stands for. Of its declarations the newest counts.
    fn meaning(&self, name: &[u8]) -> Option<Named>
        ensures { result ≡ meaning (scope_of self.now).names name.now }
    {
        let mut found = self.file.get(name);
        let oldest_first = self.locals.oldest_first();
        for known in oldest_first {
            if let Known::Variable(other, slot) = known
                && name == *other
            {
                found = Some(Named::Variable(*slot));
            }
        }
        found
    }

    /// Whether a name is declared in the innermost block.
    fn is_here(&self, name: &[u8]) -> bool
        requires { 1 ≤ blocks_in self.now.locals }
        ensures { result ≡ is_here (scope_of self.now).names name.now }
    {
        let mut here = false;
        let oldest_first = self.locals.oldest_first();
        for known in oldest_first {
            here = match known {
                Known::Opened => false,
                Known::Variable(other, _) => here || name == *other,
            };
        }
        here
    }

    /// What a name that is used stands for.
    pub fn used(&self, name: &Name) -> Result<Named, ProgErr>
        ensures { Gives (λ named. named) result (used (scope_of self.now).names name.now) }
    {
        match self.meaning(name.text.as_slice()) {
            Some(named) => Ok(named),
            None => Err(unknown(self.alloc, name)),
        }
    }

    /// Declares a variable, and gives its slot.
    pub fn declare(&mut self, name: &'a Name) -> Result<u8, ProgErr>
        requires { 1 ≤ blocks_in self.old.locals }
        ensures value { Gives (λ _. scope_of self.new) result
            (with_variable (scope_of self.old) name.now) }
        ensures slot { IfOk result (λ slot. slot ≡ self.old.slots) }
        ensures blocks { OnOk result (blocks_in self.new.locals ≡ blocks_in self.old.locals) }
    {
        if self.is_here(name.text.as_slice()) {
            return Err(twice(self.alloc, name));
        }
        let slot = self.slots;
        let slots = within(Which::Slots, 192, u64::from(slot) + 1)?;
        self.variables
            .push(Text::from_slice(self.alloc, name.text.as_slice())?)?;
        self.locals
            .push(Known::Variable(name.text.as_slice(), slot))?;
        self.slots = slots as u8;
        Ok(slot)
    }

    /// Opens a block.
    pub fn open(&mut self) -> Result<(), MemFault>
        ensures value { OnOk result (scope_of self.new ≡ open_block (scope_of self.old)) }
        ensures blocks { OnOk result (blocks_in self.new.locals ≡ blocks_in self.old.locals + 1) }
    {
        self.locals.push(Known::Opened)
    }

    /// Closes the innermost block.
    pub fn close(&mut self)
        requires { 1 ≤ blocks_in self.old.locals }
        ensures value { scope_of self.new ≡
            record (scope_of self.old) { names = closed (scope_of self.old).names } }
        ensures blocks { blocks_in self.new.locals + 1 ≡ blocks_in self.old.locals }
    {
        while let Some(known) = self.locals.pop() {
            if known.is_opened() {
                return;
            }
        }
    }
}
