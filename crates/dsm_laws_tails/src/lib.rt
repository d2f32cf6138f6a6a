//! Laws of unsettled turns: which turns after a settled run may come in any order, and how a
//! history goes on.
#![tactic(auto)]

ghost use Rattle.std.specs.Prelude.{◌≡◌, ◌≢◌, ℕ, ◌≤◌, List, [], ◌∷◌, ◌++◌, length};
ghost use Rattle.dsm_base.specs.declared.label.Label.{Label};
ghost use Rattle.dsm_base.specs.declared.setup.Setup.{Setup};
ghost use Rattle.dsm_base.specs.Plain.{Turn, IsPlainRun, IsPlainTurn, after_run, labels_of};
ghost use Rattle.dsm_laws_runs.specs.Versions.{AllAskFirst, SameAt, memory_at};
ghost use Rattle.dsm_laws_runs.specs.Swap.{IsRunLike};
ghost use Rattle.dsm_laws_runs.specs.Copies.{OwnTurn, HasCopies};
ghost use Rattle.dsm_laws_runs.specs.Newer.{is_newer};
ghost use Rattle.dsm_laws_tails.specs.Shuffles.{IsShuffle, AreApart, AreIndependent, CanShuffle};
ghost use Rattle.dsm_laws_tails.specs.Fronts.{upto, past, turns_by, AreWith};
ghost use Rattle.dsm_laws_tails.specs.Histories.{whole_of, IsHistory, IsHistoryLike};

use dsm_base::Task;

/// Where tails are independent over settled turns, and one order of them after these is a plain
/// run, every order is one and leaves the same.
pub fn any_order<T: Task>()
    ensures tails { (setup : Setup) (first : ℕ → T.State) (settled : List Turn)
        (tails : ℕ → List Label) (turns others : List Turn) →
        CanShuffle setup first T.kind.semantics settled tails turns → IsShuffle tails others →
        IsRunLike setup first T.kind.semantics (others ++ settled) (turns ++ settled) }
    ensures history { (setup : Setup) (first : ℕ → T.State) (settled : List Turn)
        (tails : ℕ → List Label)
        (turns : List Turn) → CanShuffle setup first T.kind.semantics settled tails turns →
        IsHistoryLike setup first T.kind.semantics settled tails (turns ++ settled) }
    ensures whole { (setup : Setup) (first : ℕ → T.State) (settled : List Turn)
        (tails : ℕ → List Label) →
        IsHistory setup first T.kind.semantics settled tails → (turns : List Turn) →
        IsShuffle tails turns →
        IsRunLike setup first T.kind.semantics (turns ++ settled) (whole_of setup settled tails) }
{}

/// Tails that are apart are independent.
pub fn independent()
    ensures { (setup : Setup) (settled : List Turn) (tails : ℕ → List Label) →
        AreApart setup settled tails → AreIndependent setup settled tails }
{}

/// Any tail of a history may come last or first, so the settled turns with it alone are a plain
/// run, which has the versions that are made in it as the whole history has them (these also where
/// threads don't ask first).
pub fn one_tail<T: Task>()
    ensures last { (setup : Setup) (first : ℕ → T.State) (settled : List Turn)
        (tails : ℕ → List Label) →
        IsHistory setup first T.kind.semantics settled tails → (p : ℕ) (others : ℕ → List Label) →
        AreWith tails p [] others →
        IsRunLike setup first T.kind.semantics
        (turns_by p (tails p) ++ whole_of setup settled others) (whole_of setup settled tails) }
    ensures first { (setup : Setup) (first : ℕ → T.State) (settled : List Turn)
        (tails : ℕ → List Label) →
        IsHistory setup first T.kind.semantics settled tails → (p : ℕ) (others : ℕ → List Label) →
        AreWith tails p [] others →
        IsRunLike setup first T.kind.semantics
        (whole_of setup (turns_by p (tails p) ++ settled) others)
        (whole_of setup settled tails) }
    ensures alone { (setup : Setup) (first : ℕ → T.State) (settled : List Turn)
        (tails : ℕ → List Label) → IsHistory setup first T.kind.semantics settled tails → (p : ℕ) →
        IsPlainRun setup first T.kind.semantics (turns_by p (tails p) ++ settled) }
    ensures versions { (setup : Setup) (first : ℕ → T.State) (settled : List Turn)
        (tails : ℕ → List Label) → AreIndependent setup settled tails →
        IsPlainRun setup first T.kind.semantics (whole_of setup settled tails) →
        (p : ℕ) → (setup.procs ≤ p → tails p ≡ []) → (lock version : ℕ) →
        version ≤ (after_run first T.kind.semantics (turns_by p (tails p) ++ settled)).versions lock
        →
        SameAt setup lock
        (memory_at first T.kind.semantics (turns_by p (tails p) ++ settled) lock version)
        (memory_at first T.kind.semantics (whole_of setup settled tails) lock version) }
{}

/// Two plain runs in which each processor makes the same turns leave the same.
pub fn one_state<T: Task>()
    ensures { (setup : Setup) (first : ℕ → T.State) (run other : List Turn) →
        AllAskFirst setup first T.kind.semantics → IsPlainRun setup first T.kind.semantics run →
        IsPlainRun setup first T.kind.semantics other →
        ((p : ℕ) → labels_of p run ≡ labels_of p other) →
        IsRunLike setup first T.kind.semantics other run }
{}

/// A history begins with no turns. It goes on by a turn of a processor, which leaves what the
/// machine leaves, where the tails stay independent; by the oldest turns of a tail, which settle
/// and leave the same; and by the loss of all but the oldest turns of a tail. In it a processor
/// makes its settled turns and its tail.
pub fn history_goes_on<T: Task>()
    ensures starts { (setup : Setup) (first : ℕ → T.State) →
        AllAskFirst setup first T.kind.semantics →
        IsHistory setup first T.kind.semantics [] (λ p. []) }
    ensures goes_on { (setup : Setup) (first : ℕ → T.State) (settled : List Turn)
        (tails : ℕ → List Label) → IsHistory setup first T.kind.semantics settled tails →
        (p : ℕ) (label : Label) (others : ℕ → List Label) →
        AreWith tails p (label ∷ tails p) others →
        IsPlainTurn setup T.kind.semantics
        (after_run first T.kind.semantics (whole_of setup settled tails))
        (record { proc = p; label = label }) → AreIndependent setup settled others →
        IsHistoryLike setup first T.kind.semantics settled others
        (record { proc = p; label = label } ∷ whole_of setup settled tails) }
    ensures settles { (setup : Setup) (first : ℕ → T.State) (settled : List Turn)
        (tails : ℕ → List Label) →
        IsHistory setup first T.kind.semantics settled tails → (p k : ℕ) (others : ℕ → List Label) →
        AreWith tails p (past k (tails p)) others →
        IsHistoryLike setup first T.kind.semantics (turns_by p (upto k (tails p)) ++ settled)
        others (whole_of setup settled tails) }
    ensures loses { (setup : Setup) (first : ℕ → T.State) (settled : List Turn)
        (tails : ℕ → List Label) →
        IsHistory setup first T.kind.semantics settled tails → (p k : ℕ) (others : ℕ → List Label) →
        AreWith tails p (upto k (tails p)) others →
        IsHistory setup first T.kind.semantics settled others }
    ensures versions_left { (setup : Setup) (first : ℕ → T.State) (settled : List Turn)
        (tails : ℕ → List Label) → AreIndependent setup settled tails →
        IsPlainRun setup first T.kind.semantics (whole_of setup settled tails) →
        (p k : ℕ) (others : ℕ → List Label) →
        AreWith tails p (upto k (tails p)) others → (lock version : ℕ) →
        version ≤ (after_run first T.kind.semantics (whole_of setup settled others)).versions lock →
        SameAt setup lock
        (memory_at first T.kind.semantics (whole_of setup settled others) lock version)
        (memory_at first T.kind.semantics (whole_of setup settled tails) lock version) }
    ensures course { (setup : Setup) (settled : List Turn) (tails : ℕ → List Label) (p : ℕ) →
        (setup.procs ≤ p → tails p ≡ []) →
        labels_of p (whole_of setup settled tails) ≡ tails p ++ labels_of p settled }
{}

/// Where turns of a history are lost, the copies of the others stay what they should be, and so do
/// the copies of the one that loses them up to there. (Where a history goes on or turns settle,
/// `copies_go_on` says so.)
pub fn copies_left<T: Task>()
    ensures others { (setup : Setup) (first : ℕ → T.State) (settled : List Turn)
        (tails : ℕ → List Label) →
        AreIndependent setup settled tails → (p k : ℕ) (others : ℕ → List Label) →
        AreWith tails p (upto k (tails p)) others → (q : ℕ) → p ≢ q → (turns : List OwnTurn) →
        HasCopies setup first T.kind.semantics (whole_of setup settled tails) q turns →
        HasCopies setup first T.kind.semantics (whole_of setup settled others) q turns }
    ensures own { (setup : Setup) (first : ℕ → T.State) (settled : List Turn)
        (tails : ℕ → List Label) →
        AreIndependent setup settled tails → (p k : ℕ) (others : ℕ → List Label) →
        AreWith tails p (upto k (tails p)) others → (newest oldest : List OwnTurn) →
        length newest ≡ length (past k (tails p)) →
        HasCopies setup first T.kind.semantics (whole_of setup settled tails) p (newest ++ oldest) →
        HasCopies setup first T.kind.semantics (whole_of setup settled others) p oldest }
{}

/// Which lines of a lock are newer than a version, up to another, is the same in all plain runs in
/// which each processor makes the same turns. Once the later version is made it is the same with
/// one tail alone, and where turns are lost. Threads need not ask first.
pub fn newer_alike<T: Task>()
    ensures alike { (line_at : ℕ → ℕ) (setup : Setup) (first : ℕ → T.State) (run other : List Turn)
        →
        IsPlainRun setup first T.kind.semantics run →
        IsPlainRun setup first T.kind.semantics other →
        ((p : ℕ) → labels_of p run ≡ labels_of p other) → (lock from to line : ℕ) →
        is_newer line_at setup first T.kind.semantics run lock from to line ≡ is_newer line_at setup
        first T.kind.semantics other lock from to line }
    ensures alone { (line_at : ℕ → ℕ) (setup : Setup) (first : ℕ → T.State) (settled : List Turn)
        (tails : ℕ → List Label) → AreIndependent setup settled tails →
        IsPlainRun setup first T.kind.semantics (whole_of setup settled tails) →
        (p : ℕ) → (setup.procs ≤ p → tails p ≡ []) → (lock from to line : ℕ) →
        to ≤ (after_run first T.kind.semantics (turns_by p (tails p) ++ settled)).versions lock →
        is_newer line_at setup first T.kind.semantics (turns_by p (tails p) ++ settled) lock from to
        line ≡ is_newer line_at setup first T.kind.semantics (whole_of setup settled tails) lock
        from to line }
    ensures left { (line_at : ℕ → ℕ) (setup : Setup) (first : ℕ → T.State) (settled : List Turn)
        (tails : ℕ → List Label) → AreIndependent setup settled tails →
        IsPlainRun setup first T.kind.semantics (whole_of setup settled tails) →
        (p k : ℕ) (others : ℕ → List Label) → AreWith tails p (upto k (tails p)) others →
        (lock from to line : ℕ) →
        to ≤ (after_run first T.kind.semantics (whole_of setup settled others)).versions lock →
        is_newer line_at setup first T.kind.semantics (whole_of setup settled others) lock from to
        line ≡ is_newer line_at setup first T.kind.semantics (whole_of setup settled tails) lock
        from to line }
{}
