//! The rules, and which numbers of processors fit a program.

ghost use Rattle.std.specs.Prelude.{◌≡◌, ◌⊎◌, Ok, Err, IfOk, IfErr, MatchResult};
ghost use Rattle.dsm_syntax.specs.declared.errors.ProgErr.{ProgErr};
ghost use Rattle.dsm_syntax.specs.declared.errors.ProgErr.TheVariants.{Memory};
ghost use Rattle.dsm_syntax.specs.Programs.{view_tree};
ghost use Rattle.dsm_check.specs.Environments.{meaning};
ghost use Rattle.dsm_check.specs.FileNames.{main_name, main_of};
ghost use Rattle.dsm_check.specs.Programs.{Program, checked};
ghost use Rattle.dsm_check.specs.Setups.{fitting};
ghost use Rattle.dsm_check.specs.FileTables.{names_of};
ghost use Rattle.dsm_check.specs.CheckedViews.{program_of};

use crate::bindings::pieces_of;
use crate::body::functions_of;
use crate::checked::Checked;
use crate::items::Declared;
use crate::names::{Named, Names};
use dsm_syntax::{ProgErr, Returns, Tree};
use std::alloc::Global;

/// The number of `main`. `NoMain` comes where there is no function `main` with a value and two parameters.
fn main_of(names: &Names) -> Result<u16, ProgErr>
    ensures { result ≡ main_of (meaning (names_of names.now) main_name) }
{
    match names.get(b"main".as_slice()) {
        Some(
            Named::Function {
                number,
                returns: Returns::Int,
                params: 2,
            },
        ) => Ok(number),
        _ => Err(ProgErr::NoMain),
    }
}

/// A program with every name resolved, where the rules accept it. Of several faults the first is answered: first
/// those of the names of the file, in the order of the text, then `NoMain`, then those of bindings, then those of bodies.
///
/// - `Twice` comes for a name that is declared in the same block already, with its line.
/// - `Unknown` comes for a name that is used and isn't known there, with its line.
/// - `WrongKind` comes for a name that is used as what it isn't, with its line.
/// - `ArgCount` comes for a call with another number of arguments, with the numbers.
/// - `Limit` comes for more than may be, with the number.
/// - `NoMain` comes where there is no function `main` with a value and two parameters.
/// - `BindRange` comes for a binding outside of what it names, with the binding's line.
/// - `BindOverlap` comes for a binding of a cell that is bound already, with the first such cell and the binding's line.
/// - `OutsideLoop` comes for `break` or `continue` outside a loop, with its line.
/// - `Memory` comes where memory runs out.
pub fn check(alloc: Global, tree: &Tree) -> Result<Checked, ProgErr>
    ensures accepted { IfOk result (λ c. checked (view_tree tree.now) ≡ Ok (program_of c)) }
    ensures refused { IfErr result (λ e. (e ≡ Memory) ⊎ (checked (view_tree tree.now) ≡ Err e)) }
    ensures each_program { (program : Program) → checked (view_tree tree.now) ≡ Ok program →
        MatchResult result (λ c. program_of c ≡ program) (λ e. e ≡ Memory) }
    ensures each_fault { (e : ProgErr) → checked (view_tree tree.now) ≡ Err e →
        MatchResult result (λ c. ⊥) (λ f. (f ≡ e) ⊎ (f ≡ Memory)) }
{
    let items = tree.items();
    let declared = Declared::from_items(alloc, items)?;
    let main = main_of(&declared.names)?;
    let pieces = pieces_of(alloc, &declared.names, items)?;
    let functions = functions_of(alloc, &declared.names, items)?;
    Ok(Checked {
        names: declared.names,
        main,
        shared_cells: declared.shared_cells,
        private_cells: declared.private_cells,
        locks: declared.locks,
        barriers: declared.barriers,
        pieces,
        functions,
    })
}

/// Tests that each owner is one of so many processors. `BindOwner` comes for the first piece, in the order of the
/// text, whose owner isn't.
pub fn fit(checked: &Checked, procs: u8) -> Result<(), ProgErr>
    ensures { result ≡ fitting (program_of checked.now) procs }
{
    for piece in checked.pieces.as_slice() {
        if u32::from(procs) <= piece.owner {
            return Err(ProgErr::BindOwner {
                owner: piece.owner,
                procs,
            });
        }
    }
    Ok(())
}
