//! Lines with the values of their cells, and lists of them.

ghost use Rattle.std.specs.Prelude.{◌≡◌, ◌==◌, ◌<◌, ◌≤◌, ◌++◌, [], ◌∷◌, length, slice_get, IfOk, OnOk, OnErr};
ghost use Rattle.std.specs.Option.{option_copied};
ghost use Rattle.std.specs.Slice.Iter.{iter_rest};

use arrayvec::ArrayVec;
use dsm_base::MemFault;
use std::alloc::Global;
use std::marker::Model;
use std::slice::Iter;

/// The values of a line's cells in their order, at most eight. They take no memory of their own.
#[derive(Debug, Drop)]
pub struct LineValues {
    values: ArrayVec<i64, 8>,
}

impl Model for LineValues {
    ghost use Rattle.std.specs.Prelude.{List, ℤ};

    ghost Value = { List ℤ };

    ghost view = { λ line. line.values.items };
}

impl LineValues {
    /// No values yet.
    pub fn new() -> LineValues
        ensures { result ≡ [] }
    {
        LineValues {
            values: ArrayVec::new(),
        }
    }

    /// A copy of these values.
    pub fn from_slice(values: &[i64]) -> LineValues
        requires { length values.now ≤ 8 }
        ensures { result ≡ values.now }
    {
        let mut copy = LineValues::new();
        for value in values {
            copy.push(*value);
        }
        copy
    }

    /// Adds one value at the end.
    pub fn push(&mut self, value: i64)
        requires { length self.old < 8 }
        ensures { self.new ≡ self.old ++ value ∷ [] }
    {
        self.values.push(value);
    }

    pub fn as_slice(&self) -> &[i64]
        ensures value { result.now ≡ self.now }
        ensures fits { length self.now ≤ 8 }
    {
        self.values.as_slice()
    }

    pub fn len(&self) -> usize
        ensures value { result ≡ length self.now }
        ensures fits { length self.now ≤ 8 }
    {
        self.values.len()
    }

    pub fn is_empty(&self) -> bool
        ensures { result ≡ (length self.now == 0) }
    {
        self.values.is_empty()
    }
}

/// A line by its number, with the values of its cells.
#[derive(Debug, Drop)]
pub struct Line {
    pub number: u32,
    pub values: LineValues,
}

/// Lines in order, which contracts see as a list.
#[derive(Debug, Drop)]
pub struct LineList {
    lines: Vec<Line>,
}

impl Model for LineList {
    ghost use Rattle.std.specs.Prelude.{List};
    ghost use Rattle.dsm_lines.specs.declared.list.Line.{Line};

    ghost Value = { List Line };

    ghost view = { λ list. list.lines.items };
}

impl LineList {
    /// No lines yet. It takes memory only when one is added.
    pub fn new(alloc: Global) -> LineList
        ensures { result ≡ [] }
    {
        LineList {
            lines: Vec::new(alloc),
        }
    }

    /// These lines, with no copy.
    pub fn from_vec(lines: Vec<Line>) -> LineList
        ensures { result ≡ lines.items }
    {
        LineList { lines }
    }

    /// The lines, with no copy.
    pub fn into_vec(self) -> Vec<Line>
        ensures { result.items ≡ self }
    {
        let LineList { lines } = self;
        lines
    }

    /// Adds a line at the end. Out of memory leaves the list as it was.
    pub fn push(&mut self, line: Line) -> Result<(), MemFault>
        ensures ok { OnOk result (self.new ≡ self.old ++ line ∷ []) }
        ensures err { OnErr result (self.new ≡ self.old) }
    {
        self.lines.push(line)?;
        Ok(())
    }

    pub fn as_slice(&self) -> &[Line]
        ensures { result.now ≡ self.now }
    {
        self.lines.as_slice()
    }

    pub fn iter(&self) -> Iter<'_, Line>
        ensures { iter_rest result ≡ self.now }
    {
        self.lines.iter()
    }

    pub fn get(&self, index: usize) -> Option<&Line>
        ensures { option_copied result ≡ slice_get self.now index }
    {
        self.lines.get(index)
    }

    pub fn len(&self) -> usize
        ensures { result ≡ length self.now }
    {
        self.lines.len()
    }

    pub fn is_empty(&self) -> bool
        ensures { result ≡ (length self.now == 0) }
    {
        self.lines.is_empty()
    }

    /// Another list of the same lines.
    pub fn copy(&self, alloc: Global) -> Result<LineList, MemFault>
        ensures { IfOk result (λ list. list ≡ self.now) }
    {
        let mut lines = Vec::with_capacity(alloc, self.lines.len())?;
        for line in self.as_slice() {
            lines.push(Line {
                number: line.number,
                values: LineValues::from_slice(line.values.as_slice()),
            })?;
        }
        Ok(LineList { lines })
    }
}
