//! Laws of epochs: what a processor's labels tell of its arrivals, which lines an epoch leaves, and
//! what a copy is worth that lines alone bring up to date, at locks and at barriers.
#![tactic(auto)]

ghost use Rattle.std.specs.Prelude.{◌≡◌, ℕ, ℤ, ◌+◌, ◌<◌, ◌≤◌, Some, List, ◌++◌, true, if◌then◌else◌};
ghost use Rattle.dsm_base.specs.declared.names.Cell.{Cell};
ghost use Rattle.dsm_base.specs.declared.label.Label.{Label};
ghost use Rattle.dsm_base.specs.declared.setup.Setup.{Setup};
ghost use Rattle.dsm_base.specs.Access.{piece_of};
ghost use Rattle.dsm_base.specs.Agrees.{AgreesWith};
ghost use Rattle.dsm_base.specs.Plain.{Turn, IsPlainRun, after_run, labels_of, plain_turn};
ghost use Rattle.dsm_laws_runs.specs.Versions.{AllAskFirst};
ghost use Rattle.dsm_laws_runs.specs.Barriers.{owner_of, memory_in};
ghost use Rattle.dsm_laws_runs.specs.Newer.{is_stored_in};
ghost use Rattle.dsm_laws_runs.specs.Copies.{HasCopies, CopyAgrees};
ghost use Rattle.dsm_laws_epochs.specs.Arrivals.{comes_last};
ghost use Rattle.dsm_laws_epochs.specs.ByLines.{turns_by_lines, copy_by_lines};

use dsm_base::Task;

/// A processor has come to a barrier once more than it has crossed it exactly where its newest turn
/// is its arrival there, and else as often.
pub fn arrivals_by_labels<T: Task>()
    ensures { (setup : Setup) (first : ℕ → T.State) (run : List Turn) →
        AllAskFirst setup first T.kind.semantics → IsPlainRun setup first T.kind.semantics run →
        let s = after_run first T.kind.semantics run in (p : ℕ) → p < setup.procs → (bar : ℕ) →
        s.arrived p bar ≡ (if comes_last bar (labels_of p run)
        then s.crossed p bar + 1 else s.crossed p bar) }
{}

/// Once a processor has come to a barrier at the end of an epoch, it is settled, however the run
/// goes on, to which lines it stored in that epoch (`lines`) and what they hold in the next
/// (`values`).
pub fn lines_of_epochs<T: Task>()
    ensures lines { (line_at : ℕ → ℕ) (setup : Setup) (first : ℕ → T.State)
        (newer before : List Turn) → AllAskFirst setup first T.kind.semantics →
        IsPlainRun setup first T.kind.semantics (newer ++ before) →
        (bar owner epoch line : ℕ) →
        epoch < (after_run first T.kind.semantics before).arrived owner bar →
        is_stored_in line_at setup bar owner epoch (labels_of owner (newer ++ before)) line ≡
        is_stored_in line_at setup bar owner epoch (labels_of owner before) line }
    ensures values { (setup : Setup) (first : ℕ → T.State) (newer before : List Turn) →
        (bar epoch cell : ℕ) → epoch ≤ (after_run first T.kind.semantics before).arrived
        (owner_of (piece_of setup.bindings cell)) bar →
        memory_in setup (λ p. labels_of p (newer ++ before)) bar epoch cell ≡
        memory_in setup (λ p. labels_of p before) bar epoch cell }
{}

/// A processor's copy that its own stores make, together with the newer lines that its takes bring
/// and the lines of others that its crossings bring, each by the run before it, is as it should be
/// by the whole run (`adequate`): at each lock and barrier it is worth what it should (`worth`), it
/// agrees with the run (`agrees`), and where the processor loads next, it has the value that the
/// memory has (`loads`). Nothing is asked of what pieces are bound to.
pub fn agreement_by_lines<T: Task>()
    ensures adequate { (line_at : ℕ → ℕ) (setup : Setup) (first : ℕ → T.State) (run : List Turn) →
        AllAskFirst setup first T.kind.semantics → IsPlainRun setup first T.kind.semantics run →
        (p : ℕ) → p < setup.procs → HasCopies setup first T.kind.semantics run p
        (turns_by_lines line_at setup first T.kind.semantics p run) }
    ensures worth { (line_at : ℕ → ℕ) (setup : Setup) (first : ℕ → T.State) (run : List Turn) →
        AllAskFirst setup first T.kind.semantics → IsPlainRun setup first T.kind.semantics run →
        (p : ℕ) → p < setup.procs → CopyAgrees setup first T.kind.semantics run p
        (copy_by_lines line_at setup first T.kind.semantics p run) }
    ensures agrees { (line_at : ℕ → ℕ) (setup : Setup) (first : ℕ → T.State) (run : List Turn) →
        AllAskFirst setup first T.kind.semantics → IsPlainRun setup first T.kind.semantics run →
        (p : ℕ) → p < setup.procs → AgreesWith setup first T.kind.semantics run p (labels_of p run)
        (copy_by_lines line_at setup first T.kind.semantics p run) }
    ensures loads { (line_at : ℕ → ℕ) (setup : Setup) (first : ℕ → T.State) (run : List Turn) →
        AllAskFirst setup first T.kind.semantics → IsPlainRun setup first T.kind.semantics run →
        (p : ℕ) → p < setup.procs → (cell : Cell) (value : ℤ) →
        plain_turn setup T.kind.semantics (after_run first T.kind.semantics run) p ≡
        Some (Label.Load cell value) →
        copy_by_lines line_at setup first T.kind.semantics p run cell.0 ≡ value }
{}
