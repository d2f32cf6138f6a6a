//! What a processor that was restarted learns from the reports of the others: up to which turn it
//! makes its turns again, and what answers each of them.
#![tactic(auto)]

ghost use Rattle.std.specs.Prelude.{◌≡◌, ◌<◌, ◌≤◌, ℕ, List, Some, None, true};
ghost use Rattle.std.specs.List.{list_all};
ghost use Rattle.dsm_lines.specs.declared.list.Line.{Line};
ghost use Rattle.dsm_lines.specs.LineLists.{is_line, are_lines};
ghost use Rattle.dsm_replay.specs.Newest.{line_numbered, newest_lines};

mod gather;
mod indexed;
mod merged;
mod places;
mod replay;

pub use gather::Gather;
pub use replay::{Input, Replay, Waited};

/// The lines of versions over one and up to another, whatever lines these have: of each number they
/// have the line of the greatest version among those that has one (`newest`), and none where none
/// of them has one (`none`). They are a list of lines, with rising numbers (`rising`).
pub fn newest_of_each_line()
    ensures newest { (lines_of : ℕ → List Line) (over upto number version : ℕ) (line : Line) →
        over < version → version ≤ upto → line_numbered number (lines_of version) ≡ Some line →
        ((later : ℕ) → version < later → later ≤ upto →
        line_numbered number (lines_of later) ≡ None) →
        line_numbered number (newest_lines lines_of over upto) ≡ Some line }
    ensures none { (lines_of : ℕ → List Line) (over upto number : ℕ) →
        ((version : ℕ) → over < version → version ≤ upto →
        line_numbered number (lines_of version) ≡ None) →
        line_numbered number (newest_lines lines_of over upto) ≡ None }
    ensures rising { (lines_of : ℕ → List Line) (over upto : ℕ) →
        ((version : ℕ) → list_all is_line (lines_of version) ≡ true) →
        are_lines (newest_lines lines_of over upto) ≡ true }
{}
