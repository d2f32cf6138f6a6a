//! Steps that load and store cells.

ghost use Rattle.std.specs.Prelude.{◌≡◌, ◌+◌, ◌-◌, ◌<◌, ◌≤◌, ◌^◌, ℤ, [], ◌∷◌, pos, get_or, set, length, Some};
ghost use Rattle.dsm_base.specs.Steps.{goes, asks};
ghost use Rattle.dsm_base.specs.declared.label.Want.{Want};
ghost use Rattle.dsm_code.specs.declared.instruction.Target.{Target};
ghost use Rattle.dsm_code.specs.declared.instruction.Use.{Use};
ghost use Rattle.dsm_code.specs.declared.instruction.Bound.{Bound};
ghost use Rattle.dsm_code.specs.declared.instruction.Instr.{Instr};
ghost use Rattle.dsm_code.specs.Instructions.{top, below, number_at, index_count, index_of, below_index, loaded, loaded_count, stored};
ghost use Rattle.dsm_code.specs.Machine as m;
ghost use Rattle.dsm_machine.specs.States.{state_in, Steps, Becomes, IsRoomy, CanDo};

use crate::machine::Machine;
use dsm_base::{Cell, Fault, Want};
use dsm_code::{Array, Target, Use};

/// The value of a private cell; 0 past the last.
fn value_at(values: &[i64], number: u64) -> i64
    ensures { result ≡ get_or values.now number (pos 0) }
{
    match values.get(number as usize) {
        Some(value) => *value,
        None => 0,
    }
}

/// Sets a private cell; past the last nothing changes.
fn set_at(values: &mut Vec<i64>, number: u64, value: i64)
    ensures { values.new.items ≡ set values.old.items number value }
{
    if let Some(place) = values.get_mut(number as usize) {
        *place = value;
    }
}

impl Machine {
    /// Tests the index on top.
    pub fn test_index(&mut self, array: Array, line: u32) -> Option<Want>
        requires { CanDo self.old (Instr.TestIndex array line) }
        ensures makes { Steps self.old self.new (λ s.
            m.at_number s line (number_at (Target.Member array) (top s.operands))
            (λ n. goes (m.onward s s.operands))) result }
        ensures roomy { IsRoomy self.old → IsRoomy self.new }
    {
        match Target::Member(array).number(self.frame.operands.value()) {
            Some(_) => {
                self.frame.place += 1;
                None
            }
            None => Some(Want::Stop(Fault::Index, line)),
        }
    }

    /// Leaves a value in place of the index on top, if there is one.
    pub fn leave(&mut self, target: Target, way: Use, value: i64)
        requires enough { index_count target ≤ length self.old.frame.operands.values }
        requires room { length self.old.frame.operands.values - index_count target +
            loaded_count way (index_count target) ≤ self.old.frame.operands.room }
        requires place { self.old.frame.place < 2 ^ 32 }
        ensures state { Becomes self.old self.new (λ s. m.after_load s target way value) }
        ensures roomy { IsRoomy self.old → IsRoomy self.new }
    {
        self.frame.place += 1;
        match target {
            Target::One(_) => self.leave_loaded(way, value),
            Target::Member(_) => self.leave_loaded_member(way, value),
        }
    }

    /// Leaves the value of a member, whose index is on top.
    fn leave_loaded_member(&mut self, way: Use, value: i64)
        requires enough { 1 ≤ length self.old.frame.operands.values }
        requires room { length self.old.frame.operands.values - 1 + loaded_count way 1 ≤
            self.old.frame.operands.room }
        ensures state { Becomes self.old self.new (λ s.
            record s {
              operands = loaded way (top s.operands ∷ []) (below s.operands) value;
            }) }
        ensures roomy { IsRoomy self.old → IsRoomy self.new }
    {
        let operands = &mut self.frame.operands;
        let index = operands.pop_value();
        match way {
            Use::Value => operands.push(value),
            Use::Change => {
                operands.push(index);
                operands.push(value);
            }
            Use::StepBehind => {
                operands.push(value);
                operands.push(index);
                operands.push(value);
            }
        }
    }

    /// Loads a private cell.
    pub fn load_own(&mut self, target: Target, way: Use, line: u32) -> Option<Want>
        requires { CanDo self.old (Instr.LoadOwn target way line) }
        ensures makes { Steps self.old self.new (λ s.
            m.at_number s line (number_at target (top s.operands))
            (λ n. goes (m.after_load s target way (get_or s.own n (pos 0))))) result }
        ensures roomy { IsRoomy self.old → IsRoomy self.new }
    {
        let Some(number) = target.number(self.frame.operands.value()) else {
            return Some(Want::Stop(Fault::Index, line));
        };
        let value = value_at(self.own.as_slice(), number);
        self.leave(target, way, value);
        None
    }

    /// Wants to load a shared cell.
    pub fn load(&self, target: Target, way: Use, line: u32) -> Want
        requires { CanDo self.now (Instr.Load target way line) }
        ensures { Steps self.now self.now (λ s.
            m.at_number s line (number_at target (top s.operands))
            (λ n. asks (Want.Load (record { 0 = n }) line) (m.after_load s target way)))
            (Some result) }
    {
        match target.small_number(self.frame.operands.value()) {
            Some(number) => Want::Load(Cell(u32::from(number)), line),
            None => Want::Stop(Fault::Index, line),
        }
    }

    /// Drops the index below the value on top, if there is one, and goes on.
    pub fn drop_index_below(&mut self, target: Target)
        requires enough { 1 + index_count target ≤ length self.old.frame.operands.values }
        requires room { length self.old.frame.operands.values - index_count target ≤
            self.old.frame.operands.room }
        requires place { self.old.frame.place < 2 ^ 32 }
        ensures state { Becomes self.old self.new (λ s. m.onward s (stored target s.operands)) }
        ensures roomy { IsRoomy self.old → IsRoomy self.new }
    {
        self.frame.place += 1;
        if let Target::Member(_) = target {
            let value = self.frame.operands.pop_value();
            self.frame.operands.pop_value();
            self.frame.operands.push(value);
        }
    }

    /// Stores the value on top in a private cell.
    pub fn store_own(&mut self, target: Target, line: u32) -> Option<Want>
        requires { CanDo self.old (Instr.StoreOwn target line) }
        ensures makes { Steps self.old self.new (λ s.
            m.at_number s line (number_at target (top (below s.operands)))
            (λ n. goes (record (m.onward s (stored target s.operands)) {
              own = set s.own n (top s.operands);
            }))) result }
        ensures roomy { IsRoomy self.old → IsRoomy self.new }
    {
        let Some(number) = target.number(self.frame.operands.value_below()) else {
            return Some(Want::Stop(Fault::Index, line));
        };
        set_at(&mut self.own, number, self.frame.operands.value());
        self.drop_index_below(target);
        None
    }

    /// Wants to store the value on top in a shared cell.
    pub fn store(&self, target: Target, line: u32) -> Want
        requires { (bound : Bound) × CanDo self.now (Instr.Store target bound line) }
        ensures { Steps self.now self.now (λ s.
            m.at_number s line (number_at target (top (below s.operands)))
            (λ n. asks (Want.Store (record { 0 = n }) (top s.operands) line)
            (λ answer. m.onward s (stored target s.operands)))) (Some result) }
    {
        let operands = &self.frame.operands;
        match target.small_number(operands.value_below()) {
            Some(number) => Want::Store(Cell(u32::from(number)), operands.value(), line),
            None => Want::Stop(Fault::Index, line),
        }
    }
}
