//! Laws of runs over one memory: who may hold a lock, what its versions are, what a copy is worth
//! that takes bring up to date, and which turns may change places.
#![tactic(auto)]

ghost use Rattle.std.specs.Prelude.{◌≡◌, ◌≢◌, ℕ, ℤ, ◌+◌, nat_lt, ◌<◌, ◌≤◌, Option, Some, true, false, List, ◌∷◌, ◌++◌};
ghost use Rattle.dsm_base.specs.declared.names.Bar.{Bar};
ghost use Rattle.dsm_base.specs.declared.names.Lock.{Lock};
ghost use Rattle.dsm_base.specs.declared.names.Mode.{Mode};
ghost use Rattle.dsm_base.specs.declared.setup.Setup.{Setup};
ghost use Rattle.dsm_base.specs.Threads.{state_after};
ghost use Rattle.dsm_base.specs.declared.label.Label.{Label};
ghost use Rattle.dsm_base.specs.Plain.{PlainState, Turn, IsPlainRun, IsPlainTurn, after_run, labels_of, plain_turn};
ghost use Rattle.dsm_laws_runs.specs.OwnPart.{held_of, arrived_of, crossed_of};
ghost use Rattle.dsm_laws_runs.specs.Versions.{AllAskFirst, IsCellOf, SameAt, memory_at, versions_made};
ghost use Rattle.dsm_base.specs.Access.{piece_of, is_exclusive, is_phase};
ghost use Rattle.dsm_base.specs.declared.setup.Piece.{Piece};
ghost use Rattle.dsm_base.specs.Agrees.{AgreesWith};
ghost use Rattle.dsm_laws_runs.specs.Barriers.{is_owned, stored_by, until_arrival, memory_in};
ghost use Rattle.dsm_laws_runs.specs.Newer.{is_newer, stamp_of, is_stored_in, with_newer, is_brought, is_arrived};
ghost use Rattle.dsm_laws_runs.specs.Pieces.{is_bar};
ghost use Rattle.dsm_laws_runs.specs.Copies.{OwnTurn, own_labels, newest_copy, memories_of, Renews, HasCopies, CopyAgrees};
ghost use Rattle.dsm_laws_runs.specs.Epochs.{IsInStep};
ghost use Rattle.dsm_laws_runs.specs.Commuting.{TouchNothingInCommon, Commute};
ghost use Rattle.dsm_laws_runs.specs.Swap.{clashes, AreNeighbours, IsFree, IsRunLike};

use dsm_base::Task;

/// A processor's labels alone tell its thread, its holds, its arrivals and its crossings.
pub fn own_part<T: Task>()
    ensures thread { (first : ℕ → T.State) (run : List Turn) (p : ℕ) →
        (after_run first T.kind.semantics run).threads p ≡ state_after T.kind.semantics (first p)
        (labels_of p run) }
    ensures held { (first : ℕ → T.State) (run : List Turn) (p : ℕ) →
        (after_run first T.kind.semantics run).held p ≡ held_of (labels_of p run) }
    ensures arrived { (first : ℕ → T.State) (run : List Turn) (p : ℕ) →
        (after_run first T.kind.semantics run).arrived p ≡ arrived_of (labels_of p run) }
    ensures crossed { (first : ℕ → T.State) (run : List Turn) (p : ℕ) →
        (after_run first T.kind.semantics run).crossed p ≡ crossed_of (labels_of p run) }
{}

/// Two processors hold one lock only where both hold it shared.
pub fn exclusive_holds<T: Task>()
    ensures { (setup : Setup) (first : ℕ → T.State) (run : List Turn) →
        IsPlainRun setup first T.kind.semantics run →
        let s = after_run first T.kind.semantics run in (p q lock : ℕ) (one other : Mode) → p ≢ q →
        s.held p lock ≡ Some one → s.held q lock ≡ Some other → (one ≡ Mode.Shared) ×
        (other ≡ Mode.Shared) }
{}

/// The version of a lock is the number of its exclusive holds that were given back, and where
/// nobody holds it exclusively its cells are as they were when that version was made.
pub fn lock_versions<T: Task>()
    ensures count { (first : ℕ → T.State) (run : List Turn) (lock : ℕ) →
        (after_run first T.kind.semantics run).versions lock ≡ versions_made first
        T.kind.semantics run lock }
    ensures memory { (setup : Setup) (first : ℕ → T.State) (run : List Turn) →
        AllAskFirst setup first T.kind.semantics → IsPlainRun setup first T.kind.semantics run →
        let s = after_run first T.kind.semantics run in (lock : ℕ) →
        ((q : ℕ) → is_exclusive (s.held q lock) ≡ false) →
        SameAt setup lock s.memory (memory_at first T.kind.semantics run lock (s.versions lock)) }
{}

/// The memory of a barrier's cell is what its owner has stored there. What the owner had stored
/// when it came to the barrier for an epoch stays, and is what the memory has through an epoch that
/// is none of its phases.
pub fn barrier_cells<T: Task>()
    ensures memory { (setup : Setup) (first : ℕ → T.State) (run : List Turn) →
        IsPlainRun setup first T.kind.semantics run → (bar owner cell : ℕ) →
        is_owned bar owner (piece_of setup.bindings cell) ≡ true →
        (after_run first T.kind.semantics run).memory cell ≡ stored_by (labels_of owner run) cell }
    ensures kept { (bar epoch : ℕ) (newer labels : List Label) → epoch ≤ arrived_of labels bar →
        until_arrival bar epoch (newer ++ labels) ≡ until_arrival bar epoch labels }
    ensures quiet { (setup : Setup) (first : ℕ → T.State) (run : List Turn) →
        AllAskFirst setup first T.kind.semantics → IsPlainRun setup first T.kind.semantics run →
        (bar epoch cell owner : ℕ) (piece : Piece) → piece_of setup.bindings cell ≡ Some piece →
        is_bar bar piece.object ≡ true → is_phase piece epoch ≡ false →
        crossed_of (labels_of owner run) bar ≤ epoch →
        stored_by (labels_of owner run) cell ≡ stored_by
        (until_arrival bar epoch (labels_of owner run)) cell }
{}

/// Where each take gives a processor's copy its lock's cells as they were when its version was
/// made, and each crossing the cells of others as they were when these had come to the barrier for
/// its epoch, its copy is at each lock and barrier what it should be (`worth`), and so the
/// processor agrees with the run (`agrees`).
pub fn own_copies<T: Task>()
    ensures worth { (setup : Setup) (first : ℕ → T.State) (run : List Turn) (p : ℕ)
        (turns : List OwnTurn) → HasCopies setup first T.kind.semantics run p turns →
        CopyAgrees setup first T.kind.semantics run p (newest_copy turns) }
    ensures agrees { (setup : Setup) (first : ℕ → T.State) (run : List Turn) (p : ℕ)
        (turns : List OwnTurn) → HasCopies setup first T.kind.semantics run p turns →
        AgreesWith setup first T.kind.semantics run p (own_labels turns) (newest_copy turns) }
{}

/// A processor's copies stay what they should be in a run that is like it, and with one turn more:
/// another's, or an own one that makes of the copy what it should by the run before it.
pub fn copies_go_on<T: Task>()
    ensures alike { (setup : Setup) (first : ℕ → T.State) (run other : List Turn) (p : ℕ)
        (turns : List OwnTurn) → HasCopies setup first T.kind.semantics run p turns →
        IsRunLike setup first T.kind.semantics other run →
        HasCopies setup first T.kind.semantics other p turns }
    ensures other { (setup : Setup) (first : ℕ → T.State) (run : List Turn) (p : ℕ)
        (turns : List OwnTurn) →
        HasCopies setup first T.kind.semantics run p turns → (turn : Turn) →
        IsPlainTurn setup T.kind.semantics (after_run first T.kind.semantics run) turn →
        turn.proc ≢ p → HasCopies setup first T.kind.semantics (turn ∷ run) p turns }
    ensures own { (setup : Setup) (first : ℕ → T.State) (run : List Turn) (p : ℕ)
        (turns : List OwnTurn) →
        HasCopies setup first T.kind.semantics run p turns → (turn : Turn) →
        IsPlainTurn setup T.kind.semantics (after_run first T.kind.semantics run) turn →
        turn.proc ≡ p → (now : ℕ → ℤ) →
        Renews setup (memories_of setup first T.kind.semantics run) p turn.label (newest_copy turns)
        now →
        HasCopies setup first T.kind.semantics (turn ∷ run) p
        (record { label = turn.label; copy = now } ∷ turns) }
{}

/// However cells are put into lines: a line that isn't newer than a version, up to another, has the
/// same cells at both (`unchanged`), which is settled once the versions are made (`later`) and can
/// be told by a stamp (`stamps`). A take that brings only the newer lines of its lock makes of the
/// copy what it should (`take`).
pub fn newer_lines<T: Task>()
    ensures unchanged { (line_at : ℕ → ℕ) (setup : Setup) (first : ℕ → T.State) (run : List Turn)
        (lock from to cell : ℕ) → IsCellOf setup lock cell → from ≤ to →
        to ≤ (after_run first T.kind.semantics run).versions lock →
        is_newer line_at setup first T.kind.semantics run lock from to (line_at cell) ≡ false →
        memory_at first T.kind.semantics run lock from cell ≡ memory_at first T.kind.semantics run
        lock to cell }
    ensures later { (line_at : ℕ → ℕ) (setup : Setup) (first : ℕ → T.State) (turn : Turn)
        (before : List Turn)
        (lock from to line : ℕ) → to ≤ (after_run first T.kind.semantics before).versions lock →
        is_newer line_at setup first T.kind.semantics (turn ∷ before) lock from to line ≡ is_newer
        line_at setup first T.kind.semantics before lock from to line }
    ensures stamps { (line_at : ℕ → ℕ) (setup : Setup) (first : ℕ → T.State) (run : List Turn)
        (lock from to line : ℕ) →
        is_newer line_at setup first T.kind.semantics run lock from to line ≡ nat_lt from
        (stamp_of line_at setup first T.kind.semantics run lock to line) }
    ensures take { (line_at : ℕ → ℕ) (setup : Setup) (first : ℕ → T.State) (run : List Turn) (p : ℕ)
        (turns : List OwnTurn) → HasCopies setup first T.kind.semantics run p turns →
        (lock : Lock) (mode : Mode) (version : ℕ) →
        IsPlainTurn setup T.kind.semantics (after_run first T.kind.semantics run)
        (record { proc = p; label = Label.Take lock mode version }) → (now : ℕ → ℤ) →
        ((cell : ℕ) → now cell ≡ with_newer (is_brought line_at setup first T.kind.semantics run p
        lock.0 version) (memory_at first T.kind.semantics run lock.0 version) (newest_copy
        turns) cell) →
        Renews setup (memories_of setup first T.kind.semantics run) p
        (Label.Take lock mode version) (newest_copy turns) now }
{}

/// The same of barriers: a line to which its owner didn't store in an epoch has the same cells in
/// the next one (`unchanged`), and a crossing that brings only the lines of others to which they
/// stored in the epoch before makes of the copy what it should (`cross`).
pub fn arrival_lines<T: Task>()
    ensures unchanged { (line_at : ℕ → ℕ) (setup : Setup) (first : ℕ → T.State) (run : List Turn) →
        AllAskFirst setup first T.kind.semantics → IsPlainRun setup first T.kind.semantics run →
        (bar owner epoch cell : ℕ) → is_owned bar owner (piece_of setup.bindings cell) ≡ true →
        is_stored_in line_at setup bar owner epoch (labels_of owner run) (line_at cell) ≡ false →
        stored_by (until_arrival bar (epoch + 1) (labels_of owner run)) cell ≡ stored_by
        (until_arrival bar epoch (labels_of owner run)) cell }
    ensures cross { (line_at : ℕ → ℕ) (setup : Setup) (first : ℕ → T.State) (run : List Turn)
        (p : ℕ) (turns : List OwnTurn) → HasCopies setup first T.kind.semantics run p turns →
        (bar : Bar) (epoch : ℕ) →
        IsPlainTurn setup T.kind.semantics (after_run first T.kind.semantics run)
        (record { proc = p; label = Label.Cross bar (epoch + 1) }) → (now : ℕ → ℤ) →
        ((cell : ℕ) → now cell ≡ with_newer (is_arrived line_at setup run p bar.0 epoch) (memory_in
        setup (λ q. labels_of q run) bar.0 (epoch + 1)) (newest_copy turns) cell) →
        Renews setup (memories_of setup first T.kind.semantics run) p
        (Label.Cross bar (epoch + 1)) (newest_copy turns) now }
{}

/// Nobody crosses a barrier more often than each processor has come to it, and each has come to it
/// once more than it has crossed it where it wants to cross it, and else as often.
pub fn crossings<T: Task>()
    ensures came { (setup : Setup) (first : ℕ → T.State) (run : List Turn) →
        IsPlainRun setup first T.kind.semantics run →
        let s = after_run first T.kind.semantics run in (p q bar : ℕ) → q < setup.procs →
        s.crossed p bar ≤ s.arrived q bar }
    ensures in_step { (setup : Setup) (first : ℕ → T.State) (run : List Turn) →
        AllAskFirst setup first T.kind.semantics → IsPlainRun setup first T.kind.semantics run →
        (p : ℕ) → p < setup.procs → (bar : ℕ) →
        IsInStep T.kind.semantics (after_run first T.kind.semantics run) p bar }
{}

/// Two processors never use one cell at once or one right after the other where one of both stores
/// to it.
pub fn no_clashes<T: Task>()
    ensures at_once { (setup : Setup) (first : ℕ → T.State) (run : List Turn) →
        AllAskFirst setup first T.kind.semantics → IsPlainRun setup first T.kind.semantics run →
        let s = after_run first T.kind.semantics run in (p q : ℕ) → p < setup.procs →
        q < setup.procs → p ≢ q → (one other : Label) →
        plain_turn setup T.kind.semantics s p ≡ Some one →
        plain_turn setup T.kind.semantics s q ≡ Some other → clashes one other ≡ false }
    ensures in_turn { (setup : Setup) (first : ℕ → T.State) (before : List Turn)
        (earlier later : Turn) → AreNeighbours setup first T.kind.semantics before earlier later →
        clashes earlier.label later.label ≡ false }
{}

/// Two neighbouring turns of different processors may change places where the later one doesn't
/// rest on the earlier one, and only there.
pub fn change_places<T: Task>()
    ensures free { (setup : Setup) (first : ℕ → T.State) (before : List Turn) (earlier later : Turn)
        → AreNeighbours setup first T.kind.semantics before earlier later →
        IsFree first T.kind.semantics before earlier later →
        IsRunLike setup first T.kind.semantics (earlier ∷ later ∷ before)
        (later ∷ earlier ∷ before) }
    ensures bound { (setup : Setup) (first : ℕ → T.State) (before : List Turn)
        (earlier later : Turn) → earlier.proc ≢ later.proc →
        IsPlainRun setup first T.kind.semantics (earlier ∷ later ∷ before) →
        IsFree first T.kind.semantics before earlier later }
{}

/// Turns of two threads that touch no lock, no barrier and no cell in common may be made in either
/// order, and leave the same, in any state.
pub fn turns_commute<T: Task>()
    ensures { (setup : Setup) (s : PlainState T.State) (p q : ℕ) (one other : Label) → p ≢ q →
        plain_turn setup T.kind.semantics s p ≡ Some one →
        plain_turn setup T.kind.semantics s q ≡ Some other → TouchNothingInCommon one other →
        Commute setup T.kind.semantics s p q one other }
{}
