//! Schedules.

ghost use Rattle.std.specs.Prelude.{IsTrue, ◌≡◌};
ghost use Rattle.dsm_sched.specs.Schedules.{is_schedule, ends_of};

mod crashes;
mod form;
mod reader;
mod units;

use dsm_base::Act;
pub use reader::read_schedule;
use sqlite_items::Items;

/// An entry of a schedule.
#[derive(Clone, Copy, Debug, PartialEq, Eq)]
pub enum Entry {
    /// So many units of one kind.
    Unit(Act, u32),
    /// So many rounds, in each of which every processor in order makes a turn and then its oldest message
    /// to each other processor, in order, is delivered.
    Finish(u32),
}

/// Entries in the order of the text.
pub type Entries = Items<Entry>;

/// How many processors run, and which unit comes after which. Each processor of an entry is below
/// `procs`, which is 2 to 16, each number of an entry is in its range, and there are at most 500,000
/// units.
#[derive(Debug, Drop)]
pub struct Schedule {
    pub procs: u8,
    pub entries: Entries,
    /// For each entry how many units there are up to its end.
    ends: Items<u32>,
    pub ghost kept: { IsTrue (is_schedule procs entries) },
    pub ghost are_ends: { ends ≡ ends_of procs entries },
}
