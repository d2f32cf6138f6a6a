//! The versions of the locks that the own copy has.

ghost use Rattle.std.specs.Prelude.{◌≡◌, ◌<◌, length, IfOk, OnOk};
ghost use Rattle.dsm_base.specs.Labels.{TakesLocks};
ghost use Rattle.dsm_base.specs.Rights.{held_of};
ghost use Rattle.dsm_net.specs.Turns.{own_versions_after};
ghost use Rattle.dsm_processor.specs.Versions.{versions_of};

use dsm_base::{Label, MemFault, Mode, Numbers, Rights};
use sqlite_items::Items;
use std::alloc::Global;

/// A zero for each lock.
#[tactic(auto, using(dsm_base::proofs::Families::family_of_replicate))]
pub fn zero_versions(alloc: Global, count: usize) -> Result<Numbers, MemFault>
    ensures zeros { IfOk result (λ versions. versions_of versions ≡ (λ lock. 0)) }
    ensures length { IfOk result (λ versions. length versions ≡ count) }
{
    Ok(Items::from_vec(vec![in alloc; 0; count]?))
}

/// What a turn of one with these rights leaves of the versions. `MemFault` comes where a version doesn't
/// fit its number.
#[tactic(auto, using(dsm_base::proofs::Families::family_of_set))]
pub fn change_versions(
    versions: &mut Numbers,
    rights: &Rights,
    label: &Label,
) -> Result<(), MemFault>
    requires { TakesLocks (length versions.old) label.now }
    ensures versions { OnOk result (versions_of versions.new ≡
        own_versions_after (versions_of versions.old) (held_of rights.now) label.now) }
    ensures length { length versions.new ≡ length versions.old }
{
    match label {
        Label::Take(lock, _, version) => versions.set(lock.index(), *version),
        Label::Give(lock) => {
            if rights.mode_at(*lock) == Some(Mode::Excl) {
                let made = versions.as_slice()[lock.index()].checked_add(1);
                versions.set(lock.index(), made.ok_or(MemFault)?);
            }
        }
        _ => {}
    }
    Ok(())
}
