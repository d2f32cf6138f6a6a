//! Tables, lists and marks of lines.

ghost use Rattle.std.specs.Prelude.{◌≡◌};
ghost use Rattle.dsm_lines.specs.OwnCopies.{copy_pieces};

use dsm_base::{Cell, Lock, MemFault, Object, Piece, Setup};
use dsm_lines::{BindTable, DirtyBits, Line, LineImage, LineList, LineValues, OwnCopy};
use sqlite_items::Items;
use std::alloc::Global;
use std::rc::Rc;
use std::test::Fail;

/// One piece of a lock, of nine cells from cell 0.
fn nine_cells(alloc: Global) -> Result<Setup, MemFault> {
    let piece = Piece {
        object: Object::Lock(Lock(0)),
        first: Cell(0),
        count: 9,
        owner: 0,
        phase: 0,
        period: 0,
    };
    Ok(Setup {
        procs: 2,
        locks: 1,
        bars: 0,
        cells: 9,
        bindings: Items::from_slice(alloc, &[piece])?,
    })
}

/// One piece of a lock, of 600 cells from cell 0.
fn six_hundred_cells(alloc: Global) -> Result<Setup, MemFault> {
    let piece = Piece {
        object: Object::Lock(Lock(0)),
        first: Cell(0),
        count: 600,
        owner: 0,
        phase: 0,
        period: 0,
    };
    Ok(Setup {
        procs: 2,
        locks: 1,
        bars: 0,
        cells: 600,
        bindings: Items::from_slice(alloc, &[piece])?,
    })
}

#[test]
fn nine_cells_are_two_lines(rt: HostRuntime) -> Result<(), Fail> {
    let setup = nine_cells(rt.alloc())?;
    let table = BindTable::new(rt.alloc(), &setup)?;
    assert_eq!(rt; table.line_of(Cell(7)), Some((0, 7)));
    assert_eq!(rt; table.line_of(Cell(8)), Some((1, 0)));
    assert_eq!(rt; table.line_of(Cell(9)), None);
    assert_eq!(rt; table.lines(), 2);
    assert_eq!(rt; table.cells_in(0), 8);
    assert_eq!(rt; table.cells_in(1), 1);
    assert_eq!(rt; table.object_of(Cell(8)), Some(Object::Lock(Lock(0))));
    let first = table.piece_of(Cell(8)).map(|piece| piece.first.0);
    assert_eq!(rt; first, Some(0));
    assert_eq!(rt; table.spans_of(Object::Lock(Lock(0))).len(), 1);
    assert_eq!(rt; table.spans_of(Object::Lock(Lock(1))).len(), 0);
    Ok(())
}

#[test]
fn marked_lines_rise(rt: HostRuntime) -> Result<(), Fail> {
    let mut bits = DirtyBits::new(rt.alloc(), 75)?;
    bits.mark(74);
    bits.mark(0);
    let marked = bits.to_list(rt.alloc())?;
    assert_eq!(rt; marked.as_slice(), [0, 74].as_slice());
    assert_eq!(rt; bits.first_from(1), Some(74));
    if bits.is_marked(74) {
        bits.unmark(74);
    }
    assert_eq!(rt; bits.first_from(1), None);
    Ok(())
}

#[test]
fn lists_keep_their_lines(rt: HostRuntime) -> Result<(), Fail> {
    let mut lines = LineList::new(rt.alloc());
    lines.push(Line {
        number: 5,
        values: LineValues::from_slice(&[-1, 2]),
    })?;
    let copy = LineList::from_vec(lines.copy(rt.alloc())?.into_vec());
    assert_eq!(rt; copy.len(), 1);
    for line in copy.iter() {
        assert_eq!(rt; line.number, 5);
        assert_eq!(rt; line.values.as_slice(), [-1, 2].as_slice());
    }
    assert_eq!(rt; lines.get(1).is_some(), false);
    Ok(())
}

/// Stores a value where the cell is bound.
fn store(copy: &mut OwnCopy, table: &BindTable, cell: u32, value: i64)
    requires { copy_pieces copy.old ≡ table.now }
    ensures { copy_pieces copy.new ≡ copy_pieces copy.old }
{
    let cell = Cell(cell);
    if table.piece_of(cell).is_some() {
        copy.store(cell, value);
    }
}

#[test]
fn a_copy_gives_the_lines_stored_to_once(rt: HostRuntime) -> Result<(), Fail> {
    let setup = six_hundred_cells(rt.alloc())?;
    let table = Rc::new(rt.alloc(), BindTable::new(rt.alloc(), &setup)?)?;
    let mut copy = OwnCopy::new(rt.alloc(), table.clone()?)?;
    store(&mut copy, &table, 599, 5);
    store(&mut copy, &table, 0, 0);
    let marked = copy.marks().to_list(rt.alloc())?;
    assert_eq!(rt; marked.as_slice(), [0, 74].as_slice());
    let taken = copy.take_dirty(rt.alloc(), Object::Lock(Lock(0)))?;
    assert_eq!(rt; taken.len(), 2);
    for line in taken.iter() {
        if line.number == 0 {
            assert_eq!(rt; line.values.as_slice(), [0, 0, 0, 0, 0, 0, 0, 0].as_slice());
        } else {
            assert_eq!(rt; line.number, 74);
            assert_eq!(rt; line.values.as_slice(), [0, 0, 0, 0, 0, 0, 0, 5].as_slice());
        }
    }
    let again = copy.take_dirty(rt.alloc(), Object::Lock(Lock(0)))?;
    assert_eq!(rt; again.len(), 0);
    assert_eq!(rt; copy.load(Cell(599)), 5);
    Ok(())
}

#[test]
fn lines_that_come_set_their_cells_and_no_marks(rt: HostRuntime) -> Result<(), Fail> {
    let setup = nine_cells(rt.alloc())?;
    let table = Rc::new(rt.alloc(), BindTable::new(rt.alloc(), &setup)?)?;
    let mut copy = OwnCopy::new(rt.alloc(), table)?;
    let mut lines = LineList::new(rt.alloc());
    lines.push(Line {
        number: 1,
        values: LineValues::from_slice(&[-7, 3]),
    })?;
    copy.apply(&lines);
    for (cell, value) in [(7, 0), (8, -7), (9, 0)] {
        assert_eq!(rt; copy.load(Cell(cell)), value);
    }
    assert_eq!(rt; copy.is_marked(1), false);
    Ok(())
}

#[test]
fn an_image_tells_newer_lines(rt: HostRuntime) -> Result<(), Fail> {
    let setup = nine_cells(rt.alloc())?;
    let table = Rc::new(rt.alloc(), BindTable::new(rt.alloc(), &setup)?)?;
    let mut image = LineImage::new(rt.alloc(), table.clone()?)?;
    if table.lines() > 1 {
        image.set(1, 3, &[9]);
    }
    assert_eq!(rt; image.stamp(0), 0);
    assert_eq!(rt; image.stamp(1), 3);
    assert_eq!(rt; image.values(1), [9].as_slice());
    let newer = image.newer(rt.alloc(), Lock(0), 2)?;
    assert_eq!(rt; newer.len(), 1);
    for line in newer.iter() {
        assert_eq!(rt; line.number, 1);
        assert_eq!(rt; line.values.as_slice(), [9].as_slice());
    }
    assert_eq!(rt; image.newer(rt.alloc(), Lock(0), 3)?.len(), 0);
    assert_eq!(rt; image.newer(rt.alloc(), Lock(1), 0)?.len(), 0);
    Ok(())
}
