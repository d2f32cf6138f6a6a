//! Lists of picks.

ghost use Rattle.std.specs.Prelude.{IsTrue, ◌≡◌};
ghost use Rattle.dsm_sched.specs.Picks.{is_picks, picked_by};

mod entry;
mod reader;
mod unrolled;

use dsm_base::Proc;
pub use reader::read_picks;
use sqlite_items::Items;
pub(crate) use unrolled::count;

/// An entry of a list of picks.
#[derive(Clone, Copy, Debug, PartialEq, Eq)]
pub enum PickEntry {
    /// So many picks of one processor.
    Pick(Proc, u32),
    /// So many rounds, in each of which every processor is picked once, in order.
    All(u32),
}

/// Entries in the order of the text.
pub type PickEntries = Items<PickEntry>;

/// How many processors there are, and which of them is picked, pick by pick. Each processor of an entry
/// is below `procs`, which is 2 to 16, each number of an entry is 1 to 500,000, and there are at most
/// 500,000 picks.
#[derive(Debug, Drop)]
pub struct Picks {
    pub procs: u8,
    pub entries: PickEntries,
    /// The picks one by one.
    all: Items<Proc>,
    pub ghost kept: { IsTrue (is_picks procs entries) },
    pub ghost are_all: { all ≡ picked_by procs entries },
}
