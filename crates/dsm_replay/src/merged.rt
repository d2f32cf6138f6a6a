//! Lines of several lists, of each number the first that came.

ghost use Rattle.std.specs.Prelude.{◌≡◌, [], ◌∷◌, IfOk, OnOk};
ghost use Rattle.dsm_barrier.specs.Joined.{with_line, with_lines};

use dsm_base::MemFault;
use dsm_lines::{Line, LineList, LineValues};
use std::alloc::Global;
use std::collections::BTreeMap;
use std::marker::Model;

/// Values by the numbers of lines. Contracts see them as lines in order.
#[derive(Drop)]
pub(crate) struct Merged {
    values: BTreeMap<u32, LineValues>,
}

impl Model for Merged {
    ghost use Rattle.std.specs.Prelude.{List, map};
    ghost use Rattle.std.specs.Ordering.{nat_cmp};
    ghost use Rattle.std.specs.BTreeMap.{IsOrdered};
    ghost use Rattle.dsm_lines.specs.declared.list.Line.{Line};
    ghost use Rattle.dsm_replay.specs.Merging.{line_of};

    ghost Value = { List Line };

    ghost view = { λ it. map line_of it.values.entries };

    ghost invariant = { λ it. IsOrdered nat_cmp it.values };
}

impl Merged {
    /// No lines.
    pub(crate) fn new(alloc: Global) -> Merged
        ensures { result ≡ [] }
    {
        Merged {
            values: BTreeMap::new(alloc),
        }
    }

    /// Puts a line in its place, where there is none of its number.
    fn add_line(&mut self, line: &Line) -> Result<(), MemFault>
        ensures { OnOk result (self.new ≡ with_line self.old line.now) }
    {
        if !self.values.contains_key(&line.number) {
            let values = LineValues::from_slice(line.values.as_slice());
            self.values.insert(line.number, values)?;
        }
        Ok(())
    }

    /// Puts lines in their places, one after another.
    pub(crate) fn add(&mut self, lines: &[Line]) -> Result<(), MemFault>
        ensures { OnOk result (self.new ≡ with_lines self.old lines.now) }
    {
        for line in lines {
            self.add_line(line)?;
        }
        Ok(())
    }

    /// The lines in order.
    pub(crate) fn into_lines(self, alloc: Global) -> Result<LineList, MemFault>
        ensures { IfOk result (λ lines. lines ≡ self) }
    {
        let lines = self
            .values
            .into_iter()
            .map(|(number, values)| Line { number, values })
            .collect(alloc)?;
        Ok(LineList::from_vec(lines))
    }
}
