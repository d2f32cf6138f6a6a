//! Who holds a lock.

ghost use Rattle.std.specs.Prelude.{◌≡◌};
ghost use Rattle.dsm_base.specs.Holders.{are_compatible};

use crate::names::{Mode, Proc};
use sqlite_items::Items;

/// A processor that holds a lock, and how.
#[derive(Clone, Copy, Debug, PartialEq, Eq)]
pub struct Holder {
    pub proc: Proc,
    pub mode: Mode,
}

/// The holders of a lock.
pub type Holders = Items<Holder>;

/// Whether two may hold one lock at once in these modes.
pub fn are_compatible(mode: Mode, other: Mode) -> bool
    ensures { result ≡ are_compatible mode other }
{
    mode == Mode::Shared && other == Mode::Shared
}
