//! What a processor has sent and what it keeps of others, and its own last turns as far as others may
//! not know of them.
#![tactic(auto)]

ghost use Rattle.std.specs.Prelude.{◌≡◌, ℕ, List, [], ◌∷◌, ◌++◌, Some};
ghost use Rattle.dsm_base.specs.declared.lists.Record.{Record};
ghost use Rattle.dsm_segments.specs.Entries.{IsRising};
ghost use Rattle.dsm_acqlog.specs.Logs.{AreOnce, last_turn, records_behind, records_over, with_records};
ghost use Rattle.dsm_acqlog.specs.Tails.{safe_lines, unsafe_lines};
ghost use Rattle.dsm_acqlog.specs.Histories.{TailEvent, told, IsInOrder, answered, held_by, lines_of, tail_after, unheld, waiting};

mod log;
mod tail;

pub use log::AcquireLog;
pub use tail::Tail;

/// Whatever calls a tail gets, in any order: known as held is the greatest turn that it was told
/// (`known`), it has the takes beyond that (`records`), and the lines that weren't safe whenever it
/// was told something since they were printed (`lines`). Where no take and no line is of a smaller
/// turn than a line before it: each line has been answered once, in order, or is still there
/// (`once`); once it is told something, what it has answered is all that is safe (`out`); and what
/// it carries is all that isn't (`carried`).
pub fn tail_by_events()
    ensures known { (events : List TailEvent) → (tail_after events).known ≡ held_by events }
    ensures records { (events : List TailEvent) → (tail_after events).records ≡ unheld events }
    ensures lines { (events : List TailEvent) → (tail_after events).lines ≡ waiting events }
    ensures once { (events : List TailEvent) → IsInOrder events →
        answered events ++ (tail_after events).lines ≡ lines_of events }
    ensures out { (turn : ℕ) (before : List TailEvent) → IsInOrder before →
        answered (told turn ∷ before) ≡
        safe_lines (unheld (told turn ∷ before)) (lines_of before) }
    ensures carried { (events : List TailEvent) → IsInOrder events →
        unsafe_lines (tail_after events).records (tail_after events).lines ≡
        unsafe_lines (unheld events) (lines_of events) }
{}

/// Records that are kept stand once, each of a turn over that before it (`kept`), also when some are
/// pruned (`pruned`). So a prune lets all of them go that are not over a turn (`rising`). Where those
/// that come stand once too, all are kept by an empty log (`all`), and by another those over the
/// turn of its last one (`more`).
pub fn records_once()
    ensures kept { (kept records : List Record) → AreOnce kept →
        AreOnce (with_records kept records) }
    ensures pruned { (upto : ℕ) (kept : List Record) → AreOnce kept →
        AreOnce (records_behind upto kept) }
    ensures rising { (kept : List Record) → AreOnce kept → IsRising (λ taken. taken.turn) kept }
    ensures all { (records : List Record) → AreOnce records → with_records [] records ≡ records }
    ensures more { (kept : List Record) (last : ℕ) (records : List Record) → AreOnce records →
        last_turn kept ≡ Some last → with_records kept records ≡ kept ++ records_over last records }
{}
