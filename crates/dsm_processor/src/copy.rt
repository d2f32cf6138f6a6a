//! The own copy of the cells in a turn.

ghost use Rattle.std.specs.Prelude.{◌≡◌, [], IfOk, OnOk};
ghost use Rattle.dsm_base.specs.Plain.{memory_after};
ghost use Rattle.dsm_lines.specs.Copies.{overlaid};
ghost use Rattle.dsm_lines.specs.OwnCopies.{copy_pieces, copy_memory, copy_marks};
ghost use Rattle.dsm_net.specs.Turns.{dirty_after};
ghost use Rattle.dsm_processor.specs.Copy.{StoresBound, given_lines};

use dsm_base::{Label, MemFault, Object};
use dsm_lines::{LineList, OwnCopy};
use std::alloc::Global;

/// What the label of a turn does to the copy. Answers the lines that it gives to others.
fn label_copy(alloc: Global, copy: &mut OwnCopy, label: &Label) -> Result<LineList, MemFault>
    requires { StoresBound (copy_pieces copy.old) label.now }
    ensures given { IfOk result (λ given. given ≡
        given_lines (copy_pieces copy.old) (copy_marks copy.old) (copy_memory copy.old) label.now) }
    ensures memory { OnOk result (copy_memory copy.new ≡
        memory_after (copy_memory copy.old) label.now) }
    ensures marks { OnOk result (copy_marks copy.new ≡
        dirty_after (copy_pieces copy.old) (copy_marks copy.old) label.now) }
    ensures pieces { OnOk result (copy_pieces copy.new ≡ copy_pieces copy.old) }
{
    match label {
        Label::Store(cell, value) => {
            copy.store(*cell, *value);
            Ok(LineList::new(alloc))
        }
        Label::Give(lock) => copy.take_dirty(alloc, Object::Lock(*lock)),
        Label::Arrive(bar) => copy.take_dirty(alloc, Object::Bar(*bar)),
        _ => Ok(LineList::new(alloc)),
    }
}

/// What a turn that brings these lines leaves of the copy: a store sets its cell and marks its line, and
/// the lines are laid over it. Answers the lines that it gives to others, those of the lock that it gives
/// back or of the barrier that it comes to; their marks go. `MemFault` comes out of memory.
pub fn change_copy(
    alloc: Global,
    copy: &mut OwnCopy,
    label: &Label,
    lines: &LineList,
) -> Result<LineList, MemFault>
    requires { StoresBound (copy_pieces copy.old) label.now }
    ensures given { IfOk result (λ given. given ≡
        given_lines (copy_pieces copy.old) (copy_marks copy.old) (copy_memory copy.old) label.now) }
    ensures memory { OnOk result (copy_memory copy.new ≡
        overlaid (copy_pieces copy.old) (memory_after (copy_memory copy.old) label.now) lines.now) }
    ensures marks { OnOk result (copy_marks copy.new ≡
        dirty_after (copy_pieces copy.old) (copy_marks copy.old) label.now) }
    ensures pieces { OnOk result (copy_pieces copy.new ≡ copy_pieces copy.old) }
{
    let given = label_copy(alloc, copy, label)?;
    copy.apply(lines);
    Ok(given)
}
