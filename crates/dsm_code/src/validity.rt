//! Whether the parts of a program are code.

ghost use Rattle.std.specs.Prelude.{◌≡◌, ◌<◌, ◌≤◌, ◌^◌, ◌+◌, nat_le, sum_by, length, slice_get};
ghost use Rattle.std.specs.List.{list_all};
ghost use Rattle.dsm_code.specs.Instructions.{is_below, same_target, same_mode, is_free, is_take, is_cross, is_stop};
ghost use Rattle.dsm_code.specs.Programs.{program_of, function_of, values_in, print_at};
ghost use Rattle.dsm_code.specs.Valid;
ghost use Rattle.dsm_code.specs.Valid.{is_such, is_there, is_printable, is_print_part, part_bytes, is_slot_name};

use crate::instruction::{Instr, Target};
use crate::parts::{Function, Parts, PrintPart, Row, SlotNames};
use dsm_base::{Bar, Mode};

/// As many bytes as a line can have.
const MOST_LINE: usize = 256;

/// As many bytes as a value in decimal can have.
const MOST_VALUE: usize = 20;

/// Whether a target has numbers below a bound alone.
fn is_below(bound: u32, target: Target) -> bool
    ensures { result ≡ is_below bound target }
{
    match target {
        Target::One(number) => number < bound,
        Target::Member(array) => {
            u64::from(array.first) + u64::from(array.size) < u64::from(bound) + 1
        }
    }
}

fn is_same_target(target: Target, other: Target) -> bool
    ensures { result ≡ same_target target other }
{
    match target {
        Target::One(number) => match other {
            Target::One(another) => number == another,
            Target::Member(_) => false,
        },
        Target::Member(array) => match other {
            Target::One(_) => false,
            Target::Member(another) => array.first == another.first && array.size == another.size,
        },
    }
}

fn is_same_mode(mode: Mode, other: Mode) -> bool
    ensures { result ≡ same_mode mode other }
{
    match mode {
        Mode::Shared => match other {
            Mode::Shared => true,
            Mode::Excl => false,
        },
        Mode::Excl => match other {
            Mode::Shared => false,
            Mode::Excl => true,
        },
    }
}

impl Instr {
    /// Neither a take nor a crossing.
    fn is_free(self) -> bool
        ensures { result ≡ is_free self }
    {
        !matches!(self, Instr::Take(_, _, _) | Instr::Cross(_))
    }

    /// Whether it is the take of this target in this mode.
    fn is_take(self, target: Target, mode: Mode) -> bool
        ensures { result ≡ is_take target mode self }
    {
        match self {
            Instr::Take(other, way, _) => {
                is_same_target(target, other) && is_same_mode(mode, way)
            }
            _ => false,
        }
    }

    /// Whether it is the crossing of this barrier.
    fn is_cross(self, bar: Bar) -> bool
        ensures { result ≡ is_cross bar self }
    {
        match self {
            Instr::Cross(other) => bar.0 == other.0,
            _ => false,
        }
    }

    /// Whether its step has a label.
    fn is_stop(self) -> bool
        ensures { result ≡ is_stop self }
    {
        matches!(
            self,
            Instr::Load(_, _, _)
                | Instr::Store(_, _, _)
                | Instr::GoBack(_)
                | Instr::Enter(_, _)
                | Instr::Leave
                | Instr::Ask(_, _, _)
                | Instr::Take(_, _, _)
                | Instr::Give(_, _)
                | Instr::Arrive(_)
                | Instr::Cross(_)
                | Instr::Print(_)
        )
    }

    /// How many operands it leaves in place of those that it takes.
    fn gives(self) -> usize
        ensures count { result ≡ Valid.gives self }
        ensures few { result ≤ 3 }
    {
        match self {
            Instr::LoadSlot(_, way) => way.loaded_count(0),
            Instr::LoadOwn(target, way, _) | Instr::Load(target, way, _) => {
                way.loaded_count(target.indexes())
            }
            Instr::Push(_)
            | Instr::StoreSlot(_)
            | Instr::TestIndex(_, _)
            | Instr::StoreOwn(_, _)
            | Instr::Store(_, _, _)
            | Instr::Unary(_, _)
            | Instr::StepBy(_, _)
            | Instr::Binary(_, _)
            | Instr::ToTruth
            | Instr::Enter(_, _) => 1,
            Instr::Ask(target, _, _) => target.indexes(),
            Instr::Discard
            | Instr::GoOn(_)
            | Instr::SkipIfZero(_)
            | Instr::GoBack(_)
            | Instr::Leave
            | Instr::Take(_, _, _)
            | Instr::Give(_, _)
            | Instr::Arrive(_)
            | Instr::Cross(_)
            | Instr::Print(_) => 0,
        }
    }
}

/// How many values a print has.
pub fn values_in(parts: &[PrintPart]) -> usize
    ensures { result ≡ values_in parts.now }
{
    let mut count = 0;
    for part in parts {
        if let PrintPart::Value = part {
            count += 1;
        }
    }
    count
}

fn are_printable(text: &[u8]) -> bool
    ensures { result ≡ list_all is_printable text.now }
{
    text.iter().all(|byte| 0x20 <= *byte && *byte <= 0x7E)
}

impl PrintPart {
    fn is_printable(&self) -> bool
        ensures { result ≡ is_print_part self.now }
    {
        match self {
            PrintPart::Text(text) => are_printable(text.as_slice()),
            PrintPart::Value => true,
        }
    }

    /// How many bytes it makes at most.
    fn most_bytes(&self) -> usize
        ensures { result ≡ part_bytes self.now }
    {
        match self {
            PrintPart::Text(text) => text.len(),
            PrintPart::Value => MOST_VALUE,
        }
    }
}

fn have_short_texts(parts: &[PrintPart]) -> bool
    ensures { result ≡ nat_le (sum_by part_bytes parts.now) 256 }
{
    let mut left = MOST_LINE;
    for part in parts {
        let more = part.most_bytes();
        if left < more {
            return false;
        }
        left -= more;
    }
    true
}

fn are_all_printable(parts: &[PrintPart]) -> bool
    ensures { result ≡ list_all is_print_part parts.now }
{
    parts.iter().all(|part| part.is_printable())
}

/// Whether the parts of a print make a line.
fn is_print(parts: &[PrintPart]) -> bool
    ensures { result ≡ Valid.is_print parts.now }
{
    have_short_texts(parts) && are_all_printable(parts)
}

fn are_below(names: &SlotNames, slots: u8) -> bool
    ensures { result ≡ list_all (is_slot_name slots) names.now }
{
    names.as_slice().iter().all(|name| name.slot < slots)
}

impl Function {
    /// Whether the names at a place are there exactly where a step has a label, and are those of slots.
    fn are_known(&self, place: usize, instr: Instr) -> bool
        ensures { result ≡ Valid.are_known (function_of self.now) place instr }
    {
        match self.names.get(place) {
            Some(Some(names)) => instr.is_stop() && are_below(names, self.slots),
            _ => !instr.is_stop(),
        }
    }
}

impl Parts {
    /// How many parameters a function has.
    fn params(&self, number: u16) -> usize
        ensures { result ≡ Valid.takes (program_of self.now) (Instr.Enter number 0) }
    {
        match self.functions.get(usize::from(number)) {
            Some(function) => usize::from(function.params),
            None => 0,
        }
    }

    /// How many values a print has.
    fn values_at(&self, number: u32) -> usize
        ensures { result ≡ values_in (print_at (program_of self.now) number) }
    {
        match self.prints.get(number as usize) {
            Some(print) => values_in(print.as_slice()),
            None => 0,
        }
    }

    /// How many operands an instruction takes.
    fn takes(&self, instr: Instr) -> usize
        ensures { result ≡ Valid.takes (program_of self.now) instr }
    {
        match instr {
            Instr::Push(_)
            | Instr::LoadSlot(_, _)
            | Instr::GoOn(_)
            | Instr::GoBack(_)
            | Instr::Arrive(_)
            | Instr::Cross(_) => 0,
            Instr::Discard
            | Instr::StoreSlot(_)
            | Instr::TestIndex(_, _)
            | Instr::Unary(_, _)
            | Instr::StepBy(_, _)
            | Instr::ToTruth
            | Instr::SkipIfZero(_)
            | Instr::Leave => 1,
            Instr::Binary(_, _) => 2,
            Instr::LoadOwn(target, _, _)
            | Instr::Load(target, _, _)
            | Instr::Ask(target, _, _)
            | Instr::Take(target, _, _)
            | Instr::Give(target, _) => target.indexes(),
            Instr::StoreOwn(target, _) | Instr::Store(target, _, _) => 1 + target.indexes(),
            Instr::Enter(number, _) => self.params(number),
            Instr::Print(number) => self.values_at(number),
        }
    }

    /// Whether an instruction names only what there is.
    fn has_names(&self, f: &Function, instr: Instr) -> bool
        ensures { result ≡ Valid.has_names (program_of self.now) (function_of f.now) instr }
    {
        match instr {
            Instr::LoadSlot(slot, _) | Instr::StoreSlot(slot) => slot < f.slots,
            Instr::LoadOwn(target, _, _) | Instr::StoreOwn(target, _) => {
                is_below(self.private_cells, target)
            }
            Instr::Load(target, _, _) | Instr::Store(target, _, _) => is_below(self.cells, target),
            Instr::Enter(number, _) => usize::from(number) < self.functions.len(),
            Instr::Ask(target, _, _) | Instr::Take(target, _, _) | Instr::Give(target, _) => {
                is_below(u32::from(self.locks), target)
            }
            Instr::Arrive(bar) | Instr::Cross(bar) => bar.0 < self.bars,
            Instr::Print(number) => (number as usize) < self.prints.len(),
            _ => true,
        }
    }

    /// Whether a row has so many operands, within what the program has.
    fn has_depth(&self, depth: usize, place: usize, row: Row) -> bool
        ensures { result ≡ Valid.has_depth (program_of self.now) depth place row }
    {
        row.depth as usize == depth && depth <= self.deepest as usize && place < 0x1_0000_0000
    }

    /// Whether at a place there is an instruction that is no take and no crossing, with so many operands.
    fn leads(&self, f: &Function, depth: usize, place: usize) -> bool
        ensures { result ≡ is_there is_free (program_of self.now) (function_of f.now) depth place }
    {
        match f.rows.get(place) {
            Some(row) => row.instr.is_free() && self.has_depth(depth, place, *row),
            None => false,
        }
    }

    /// The same, of the take of a target.
    fn leads_to_take(
        &self,
        f: &Function,
        depth: usize,
        place: usize,
        target: Target,
        mode: Mode,
    ) -> bool
        ensures { result ≡
            is_there (is_take target mode) (program_of self.now) (function_of f.now) depth place }
    {
        match f.rows.get(place) {
            Some(row) => row.instr.is_take(target, mode) && self.has_depth(depth, place, *row),
            None => false,
        }
    }

    /// The same, of the crossing of a barrier.
    fn leads_to_crossing(&self, f: &Function, depth: usize, place: usize, bar: Bar) -> bool
        ensures { result ≡
            is_there (is_cross bar) (program_of self.now) (function_of f.now) depth place }
    {
        match f.rows.get(place) {
            Some(row) => row.instr.is_cross(bar) && self.has_depth(depth, place, *row),
            None => false,
        }
    }

    /// Whether where an instruction leads there is one with the operands that it leaves.
    fn leads_on(&self, f: &Function, place: usize, depth: usize, instr: Instr) -> bool
        requires { place < 2 ^ 63 }
        ensures { result ≡
            Valid.leads_on (program_of self.now) (function_of f.now) place depth instr }
    {
        match instr {
            Instr::GoOn(count) => self.leads(f, depth, place + 1 + count as usize),
            Instr::SkipIfZero(count) => {
                self.leads(f, depth, place + 1) && self.leads(f, depth, place + 1 + count as usize)
            }
            Instr::GoBack(count) => {
                count as usize <= place && self.leads(f, depth, place - count as usize)
            }
            Instr::Leave => true,
            Instr::Ask(target, mode, _) => self.leads_to_take(f, depth, place + 1, target, mode),
            Instr::Arrive(bar) => self.leads_to_crossing(f, depth, place + 1, bar),
            _ => self.leads(f, depth, place + 1),
        }
    }

    /// Whether an instruction finds its operands and what it names, and leads on.
    fn is_fine(&self, f: &Function, place: usize, row: Row) -> bool
        requires { place < 2 ^ 63 }
        ensures { result ≡ Valid.is_fine (program_of self.now) (function_of f.now) place row }
    {
        let taken = self.takes(row.instr);
        let depth = row.depth as usize;
        if depth < taken {
            return false;
        }
        let after = depth - taken + row.instr.gives();
        after <= self.deepest as usize
            && self.has_names(f, row.instr)
            && self.leads_on(f, place, after, row.instr)
            && f.are_known(place, row.instr)
    }

    /// Whether the instructions of a function are fine; `rows` is its code.
    #[tactic(auto, using(crate::proofs::Counting::fine_fails, crate::proofs::Counting::fine_goes_on))]
    fn all_fine(&self, f: &Function, rows: &[Row]) -> bool
        ensures { result ≡ Valid.all_fine_from (program_of self.now) (function_of f.now) 0 rows.now }
    {
        for (place, row) in rows.iter().enumerate() {
            if !self.is_fine(f, place, *row) {
                return false;
            }
        }
        true
    }

    /// Whether a function begins without operands, and each of its instructions is fine.
    fn is_sound(&self, f: &Function) -> bool
        ensures { result ≡ Valid.is_sound (program_of self.now) (function_of f.now) }
    {
        self.leads(f, 0, 0)
            && f.params <= f.slots
            && f.slots <= self.widest
            && self.all_fine(f, f.rows.as_slice())
    }

    fn all_sound(&self) -> bool
        ensures { result ≡ list_all (λ f. Valid.is_sound (program_of self.now) (function_of f))
            self.now.functions.items }
    {
        self.functions.iter().all(|f| self.is_sound(f))
    }

    fn are_prints(&self) -> bool
        ensures { result ≡ list_all Valid.is_print self.now.prints.items }
    {
        self.prints.iter().all(|print| is_print(print.as_slice()))
    }

    fn are_sound(&self) -> bool
        ensures { result ≡ Valid.all_sound (program_of self.now) }
    {
        self.all_sound()
    }

    fn has_main(&self) -> bool
        ensures { result ≡ Valid.has_main (program_of self.now) }
    {
        usize::from(self.main) < self.functions.len() && self.params(self.main) == 2
    }

    fn are_few(&self) -> bool
        ensures { result ≡ Valid.are_few (program_of self.now) }
    {
        self.cells <= 65_536 && self.locks <= 256 && self.bars <= 64
    }

    /// Whether the parts are code.
    pub fn is_valid(&self) -> bool
        ensures { result ≡ Valid.is_valid (program_of self.now) }
    {
        self.has_main() && self.are_few() && self.are_prints() && self.are_sound()
    }
}
