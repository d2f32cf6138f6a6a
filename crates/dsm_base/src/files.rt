//! Files that are read whole.

ghost use Rattle.std.specs.Prelude.{◌≡◌, ◌≤◌, Some, None, [], ◌∷◌, ◌++◌, OnOk, ◌↔◌, MatchOption};
ghost use Rattle.dsm_base.specs.Files.{contents_of};

use crate::errors::{MemFault, ReadErr};
use crate::plan::{CallKind, FaultPlan};
use crate::text::Text;
use sqlite_items::Items;
use std::alloc::Global;

/// Reads files by their names. What they hold is known only where it tells.
pub trait Files {
    ghost use Rattle.std.specs.Prelude.{List, ℕ, Option, string_bytes};
    ghost use Rattle.dsm_base.specs.Causes.{HasCause};
    ghost use Rattle.dsm_base.specs.Files.{Reads};

    /// The contents of each name, where it tells; a name may have none.
    ghost files_hold: { Self → Option (List ℕ → Option (List ℕ)) };

    /// How often it has failed.
    ghost files_faults: { Self → ℕ };

    /// Appends the file's bytes, of a longer file the first `most + 1`. No read changes what the files
    /// hold. `Failed` comes only where the count of failures rose.
    fn read(&mut self, name: &String, most: usize, into: &mut Vec<u8>) -> Result<(), ReadErr>
        ensures read { OnOk result (Reads (files_hold self.old) (string_bytes name.now) most
            into.old.items into.new.items) }
        ensures same { files_hold self.new ≡ files_hold self.old }
        ensures cause { HasCause (files_faults self.old) (files_faults self.new) result };

    /// How often it has failed.
    fn faults(&self) -> u64
        ensures { result ≡ files_faults self.now };
}

/// A file's name and its contents.
#[derive(Debug, Drop)]
pub struct NamedFile {
    pub name: Text,
    pub contents: Text,
}

/// Files by their names. Of a name that stands more than once the first contents count.
pub type NamedFiles = Items<NamedFile>;

/// The contents of the first file of a name.
fn contents_of<'a>(files: &'a [NamedFile], name: &[u8]) -> Option<&'a [u8]>
    ensures { MatchOption result (contents_of files.now name.now ≡ None)
        (λ contents. contents_of files.now name.now ≡ Some contents.now) }
{
    for file in files {
        if file.name.as_slice() == name {
            return Some(file.contents.as_slice());
        }
    }
    None
}

/// Files in memory, which always tell.
#[derive(Debug, Drop)]
pub struct MemFiles {
    files: NamedFiles,
    plan: FaultPlan,
    faults: u64,
}

impl MemFiles {
    ghost use Rattle.dsm_base.specs.declared.plan.CallKind.{CallKind};

    /// These files.
    pub fn new(alloc: Global, files: NamedFiles) -> MemFiles
        ensures files { result.files ≡ files }
        ensures plan { result.plan ≡ [] }
        ensures faults { result.faults ≡ 0 }
    {
        MemFiles {
            files,
            plan: FaultPlan::new(alloc),
            faults: 0,
        }
    }

    /// The nth call of this kind from now on fails.
    pub fn fail(&mut self, call: CallKind, nth: u32) -> Result<(), MemFault>
        requires { 1 ≤ nth }
        ensures plan { OnOk result (self.new.plan ≡ self.old.plan ++
            record { call = call; left = nth } ∷ []) }
        ensures same { self.new ≡ record self.old { plan = self.new.plan } }
    {
        self.plan.add(call, nth)
    }
}

impl Files for MemFiles {
    ghost use Rattle.std.specs.Prelude.{◌≡◌, ◌↔◌, ◌⊎◌, Some, None, IsErrOf, true, OnOk, string_bytes};
    ghost use Rattle.dsm_base.specs.declared.plan.CallKind.{CallKind};
    ghost use Rattle.dsm_base.specs.declared.errors.ReadErr.{ReadErr};
    ghost use Rattle.dsm_base.specs.Causes.{HasCause};
    ghost use Rattle.dsm_base.specs.Files.{Reads, contents_of};
    ghost use Rattle.dsm_base.specs.Plan.{is_due, counted};

    ghost files_hold = { λ files. Some (contents_of files.files) };

    ghost files_faults = { λ files. files.faults };

    fn read(&mut self, name: &String, most: usize, into: &mut Vec<u8>) -> Result<(), ReadErr>
        ensures read { OnOk result (Reads (Some (contents_of self.old.files))
            (string_bytes name.now) most into.old.items into.new.items) }
        ensures same { Some (contents_of self.new.files) ≡ Some (contents_of self.old.files) }
        ensures cause { HasCause self.old.faults self.new.faults result }
        ensures failed { IsErrOf result ReadErr.Failed ↔
            ((is_due CallKind.Read self.old.plan ≡ true) ⊎
            (contents_of self.old.files (string_bytes name.now) ≡ None)) }
        ensures counted { self.new.plan ≡ counted CallKind.Read self.old.plan }
        ensures calm { OnOk result (self.new.faults ≡ self.old.faults) }
    {
        let due = self.plan.count(CallKind::Read);
        let contents = match contents_of(self.files.as_slice(), name.as_bytes()) {
            Some(contents) if !due => contents,
            _ => {
                self.faults = self.faults.saturating_add(1);
                return Err(ReadErr::Failed);
            }
        };
        let taken = contents.len().min(most.saturating_add(1));
        into.extend_from_slice(&contents[..taken])?;
        Ok(())
    }

    fn faults(&self) -> u64 {
        self.faults
    }
}
