//! Traces.

ghost use Rattle.std.specs.Prelude.{◌≡◌, ◌≢◌, [], ◌∷◌, ◌++◌, OnOk, OnErr};

use crate::text::put_groups;
use dsm_base::MemFault;
use dsm_net::Group;
use std::alloc::Global;
use std::marker::Model;

/// Groups of records in the order of their units; a unit in which nothing happened has none.
#[derive(Debug, Drop)]
pub struct Trace {
    groups: Vec<Group>,
}

impl Model for Trace {
    ghost use Rattle.std.specs.Prelude.{List};
    ghost use Rattle.std.specs.Coded.{coded_list};
    ghost use Rattle.dsm_net.specs.declared.trace.Group.{Group};
    ghost use Rattle.dsm_net.specs.contracts.trace.Group.{the_row};
    ghost use Rattle.dsm_records.specs.Groups.{AreSome};

    ghost Value = { List Group };

    ghost coded = { coded_list the_row.coded };

    ghost view = { λ trace. trace.groups.items };

    ghost invariant = { λ trace. AreSome trace.groups.items };
}

impl Trace {
    ghost use Rattle.dsm_records.specs.Groups.{AreSome};
    ghost use Rattle.dsm_records.specs.Texts.{trace_text};

    /// The trace of no unit.
    pub fn new(alloc: Global) -> Trace
        ensures { result ≡ [] }
    {
        Trace {
            groups: Vec::new(alloc),
        }
    }

    /// Adds what happened in the next unit in which something did. `MemFault` comes out of memory, and
    /// the trace is then as before.
    pub fn push(&mut self, group: Group) -> Result<(), MemFault>
        requires { group.records ≢ [] }
        ensures ok { OnOk result (self.new ≡ self.old ++ group ∷ []) }
        ensures err { OnErr result (self.new ≡ self.old) }
    {
        self.groups.push(group)?;
        Ok(())
    }

    /// The groups, none of them empty.
    pub fn groups(&self) -> &[Group]
        ensures groups { result.now ≡ self.now }
        ensures some { AreSome self.now }
    {
        self.groups.as_slice()
    }

    /// Appends the trace's text: for each unit a line `unit K`, and a line for each of its records.
    /// `MemFault` comes out of memory.
    pub fn text(&self, alloc: Global, out: &mut Vec<u8>) -> Result<(), MemFault>
        ensures { OnOk result (out.new.items ≡ out.old.items ++ trace_text self.now) }
    {
        put_groups(alloc, self.groups.as_slice(), out)
    }
}
