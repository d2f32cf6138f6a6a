//! Barriers at their managers: who has come, when a barrier opens, and the lines that each
//! processor gets.
#![tactic(auto)]

ghost use Rattle.std.specs.Prelude.{◌≡◌, ◌==◌, ◌<◌, ◌≤◌, ℕ, List, true, false, find, drop, length, nat_lt};
ghost use Rattle.std.specs.List.{list_all};
ghost use Rattle.dsm_lines.specs.declared.list.Line.{Line};
ghost use Rattle.dsm_lines.specs.LineLists.{is_line, are_lines};
ghost use Rattle.dsm_base.specs.Family.{all_below};
ghost use Rattle.dsm_barrier.specs.Joined.{in_order};
ghost use Rattle.dsm_barrier.specs.Histories.{Coming, barrier_after, arrivals_by};

mod arrived;
mod barrier;
mod joined;
mod manager;

pub use arrived::{Arrived, Waiting};
pub use manager::Manager;

/// Lines in order are a list of lines (`rising`), in which each number has the line that came first
/// among them (`first`).
pub fn lines_in_order()
    ensures rising { (lines : List Line) → list_all is_line lines ≡ true →
        are_lines (in_order lines) ≡ true }
    ensures first { (lines : List Line) (number : ℕ) →
        find (λ line. line.number == number) (in_order lines) ≡
        find (λ line. line.number == number) lines }
{}

/// Whatever arrivals count at a barrier of so many processors, it has opened no more often than
/// each has come (`no_early`), and it isn't so that all have come more often (`no_late`). What
/// waits of a processor is what it brought since the barrier opened last (`waiting`).
pub fn openings_by_arrivals()
    ensures no_early { (procs : ℕ) (comings : List Coming) (p : ℕ) → p < procs →
        (barrier_after procs comings).opened ≤ length (arrivals_by p comings) }
    ensures no_late { (procs : ℕ) (comings : List Coming) → 0 < procs →
        all_below procs (λ p. nat_lt (barrier_after procs comings).opened
        (length (arrivals_by p comings))) ≡ false }
    ensures waiting { (procs : ℕ) (comings : List Coming) (p : ℕ) → p < procs →
        (barrier_after procs comings).waiting p ≡
        drop (barrier_after procs comings).opened (arrivals_by p comings) }
{}
