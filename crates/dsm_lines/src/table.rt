//! The table of where cells are bound.

ghost use Rattle.std.specs.Prelude.{◌≡◌, ◌<◌, ◌≤◌, ◌+◌, ◌*◌, ◌^◌, ◌-◌, ◌++◌, ℕ, [], true, None, Some, IfOk, OnOk, IsTrue, length, slice_index_or, map, min, if◌then◌else◌};
ghost use Rattle.std.specs.List.{range_with_len, All};
ghost use Rattle.dsm_base.specs.Access.{piece_of, has_cell};
ghost use Rattle.dsm_base.specs.Setups.{are_apart};
ghost use Rattle.dsm_base.specs.declared.setup.Object.{Object};
ghost use Rattle.dsm_lines.specs.Places.{lines, line_count, line_of, object_of, place_of, place_from, cells_in, spans_from, same_object};
ghost use Rattle.dsm_lines.specs.Building.{AreWithin, noted, widths_of, piece_widths};

use crate::place::{Place, Places, Span, Spans};
use dsm_base::{Bar, Bindings, Cell, Lock, MemFault, Object, Piece, Setup};
use sqlite_items::Items;
use std::alloc::Global;
use std::marker::Model;

/// Where the cells of a setup are bound, which contracts see as the list of its pieces. A look-up
/// takes the same time however many pieces there are.
#[derive(Debug, Drop)]
pub struct BindTable {
    bindings: Bindings,
    places: Places,
    widths: Items<u8>,
    lock_spans: Items<Spans>,
    bar_spans: Items<Spans>,
}

impl Model for BindTable {
    ghost use Rattle.std.specs.Prelude.{List};
    ghost use Rattle.dsm_base.specs.declared.setup.Piece.{Piece};
    ghost use Rattle.dsm_lines.specs.Tables.{IsTable};

    ghost Value = { List Piece };

    ghost view = { λ table. table.bindings };

    ghost invariant = { λ table. IsTable table.bindings table.places table.widths
        table.lock_spans table.bar_spans };
}

fn line_count(piece: Piece) -> u32
    requires { piece.count ≤ 65536 }
    ensures { result ≡ line_count piece }
{
    (piece.count + 7) / 8
}

/// Notes the places of a piece's cells; its lines begin with `start`.
fn note_piece(places: &mut Places, piece: Piece, start: u32)
    requires within { piece.first.0 + piece.count ≤ length places.old }
    requires small { length places.old ≤ 65536 }
    requires few { start + line_count piece < 2 ^ 32 }
    ensures length { length places.new ≡ length places.old }
    ensures noted { (cell : ℕ) → slice_index_or places.new cell None ≡
        noted start piece (slice_index_or places.old cell None) cell }
{
    let first = piece.first.0;
    for offset in 0..piece.count {
        let place = Place {
            piece,
            line: start + offset / 8,
            at: (offset % 8) as u8,
        };
        places.set((first + offset) as usize, Some(place));
    }
}

/// The place of each cell.
fn places_of(alloc: Global, pieces: &[Piece], cells: usize, total: u32) -> Result<Places, MemFault>
    requires within { AreWithin cells pieces.now }
    requires small { cells ≤ 65536 }
    requires all { total ≡ lines pieces.now }
    ensures { IfOk result (λ places. (cell : ℕ) →
        slice_index_or places cell None ≡ place_of pieces.now cell) }
{
    let mut places = Items::from_vec(vec![in alloc; None; cells]?);
    let mut start = total;
    for at in (0..pieces.len()).rev() {
        start -= line_count(pieces[at]);
        note_piece(&mut places, pieces[at], start);
    }
    Ok(places)
}

/// Adds how many cells each line of a piece has.
fn push_widths(widths: &mut Items<u8>, piece: Piece) -> Result<(), MemFault>
    requires { piece.count ≤ 65536 }
    ensures { OnOk result (widths.new ≡ widths.old ++ piece_widths piece) }
{
    for line in 0..line_count(piece) {
        widths.push(8u32.min(piece.count - 8 * line) as u8)?;
    }
    Ok(())
}

/// How many cells each line has.
fn widths_of(alloc: Global, pieces: &[Piece]) -> Result<Items<u8>, MemFault>
    requires { All (λ piece. piece.count ≤ 65536) pieces.now }
    ensures { IfOk result (λ widths. widths ≡ widths_of pieces.now) }
{
    let mut widths = Items::new(alloc);
    for piece in pieces {
        push_widths(&mut widths, *piece)?;
    }
    Ok(widths)
}

fn same_object(object: Object, other: Object) -> bool
    ensures { result ≡ same_object object other }
{
    match object {
        Object::Lock(lock) => match other {
            Object::Lock(other) => lock.0 == other.0,
            Object::Bar(_) => false,
        },
        Object::Bar(bar) => match other {
            Object::Lock(_) => false,
            Object::Bar(other) => bar.0 == other.0,
        },
    }
}

/// The lines of an object.
fn spans_of(alloc: Global, pieces: &[Piece], object: Object) -> Result<Spans, MemFault>
    requires few { lines pieces.now < 2 ^ 32 }
    requires small { All (λ piece. piece.count ≤ 65536) pieces.now }
    ensures { IfOk result (λ spans. spans ≡ spans_from 0 pieces.now object) }
{
    let mut spans = Items::new(alloc);
    let mut first = 0;
    for piece in pieces {
        let count = line_count(*piece);
        if same_object(piece.object, object) {
            spans.push(Span { first, count })?;
        }
        first += count;
    }
    Ok(spans)
}

/// The lines of each lock.
fn spans_of_locks(alloc: Global, pieces: &[Piece], locks: u16) -> Result<Items<Spans>, MemFault>
    requires few { lines pieces.now < 2 ^ 32 }
    requires small { All (λ piece. piece.count ≤ 65536) pieces.now }
    ensures { IfOk result (λ spans. spans ≡
        map (λ lock. spans_from 0 pieces.now (Object.Lock record { 0 = lock }))
        (range_with_len 0 locks)) }
{
    let mut all = Items::new(alloc);
    for lock in 0..locks {
        all.push(spans_of(alloc, pieces, Object::Lock(Lock(lock)))?)?;
    }
    Ok(all)
}

/// The lines of each barrier.
fn spans_of_bars(alloc: Global, pieces: &[Piece], bars: u8) -> Result<Items<Spans>, MemFault>
    requires few { lines pieces.now < 2 ^ 32 }
    requires small { All (λ piece. piece.count ≤ 65536) pieces.now }
    ensures { IfOk result (λ spans. spans ≡
        map (λ bar. spans_from 0 pieces.now (Object.Bar record { 0 = bar }))
        (range_with_len 0 bars)) }
{
    let mut all = Items::new(alloc);
    for bar in 0..bars {
        all.push(spans_of(alloc, pieces, Object::Bar(Bar(bar)))?)?;
    }
    Ok(all)
}

/// The spans of one number, none past the end.
fn spans_at(all: &[Spans], number: usize) -> &[Span]
    ensures { result.now ≡ slice_index_or all.now number [] }
{
    if number < all.len() {
        all[number].as_slice()
    } else {
        &[]
    }
}

impl BindTable {
    /// The table of a setup.
    pub fn new(alloc: Global, setup: &Setup) -> Result<BindTable, MemFault>
        ensures { IfOk result (λ table. table ≡ setup.now.bindings) }
    {
        let pieces = setup.bindings.as_slice();
        let widths = widths_of(alloc, pieces)?;
        let places = places_of(alloc, pieces, setup.cells as usize, widths.len() as u32)?;
        let lock_spans = spans_of_locks(alloc, pieces, setup.locks)?;
        let bar_spans = spans_of_bars(alloc, pieces, setup.bars)?;
        Ok(BindTable {
            bindings: Items::from_slice(alloc, pieces)?,
            places,
            widths,
            lock_spans,
            bar_spans,
        })
    }

    /// The place of a cell, where it is in a piece.
    pub fn place_of(&self, cell: Cell) -> Option<Place>
        ensures { result ≡ place_of self.now cell.0 }
    {
        let places = self.places.as_slice();
        let at = cell.0 as usize;
        if at < places.len() { places[at] } else { None }
    }

    /// The lock or barrier that a cell is bound to.
    pub fn object_of(&self, cell: Cell) -> Option<Object>
        ensures { result ≡ object_of self.now cell.0 }
    {
        self.place_of(cell).map(|place| place.piece.object)
    }

    /// The line of a cell, and its place in it from 0.
    pub fn line_of(&self, cell: Cell) -> Option<(u32, u8)>
        ensures { result ≡ line_of self.now cell.0 }
    {
        self.place_of(cell).map(|place| (place.line, place.at))
    }

    /// The piece of a cell.
    pub fn piece_of(&self, cell: Cell) -> Option<Piece>
        ensures { result ≡ piece_of self.now cell.0 }
    {
        self.place_of(cell).map(|place| place.piece)
    }

    /// How many lines there are. No cell is in two pieces.
    pub fn lines(&self) -> u32
        ensures count { result ≡ lines self.now }
        ensures apart { are_apart self.now ≡ true }
    {
        self.widths.len() as u32
    }

    /// How many cells a line has: 1 to 8, and 0 where there is no such line.
    pub fn cells_in(&self, line: u32) -> usize
        ensures { result ≡ length (cells_in self.now line) }
    {
        let widths = self.widths.as_slice();
        let at = line as usize;
        if at < widths.len() {
            widths[at] as usize
        } else {
            0
        }
    }

    /// The lines of a lock or barrier, a span a piece.
    pub fn spans_of(&self, object: Object) -> &[Span]
        ensures { result.now ≡ spans_from 0 self.now object }
    {
        match object {
            Object::Lock(lock) => spans_at(self.lock_spans.as_slice(), lock.0 as usize),
            Object::Bar(bar) => spans_at(self.bar_spans.as_slice(), bar.0 as usize),
        }
    }
}
