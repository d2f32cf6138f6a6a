//! Laws of the protocol: what holds after each unit of the processors and of the messages under way,
//! in terms of the trace and of the threads alone.
#![tactic(auto)]

ghost use Rattle.std.specs.Prelude.{◌≡◌, ℕ, List};
ghost use Rattle.dsm_base.specs.declared.act.Act.{Act};
ghost use Rattle.dsm_base.specs.declared.setup.Setup.{Setup};
ghost use Rattle.dsm_base.specs.Plain.{labels_of};
ghost use Rattle.dsm_net.specs.declared.trace.Group.{Group};
ghost use Rattle.dsm_net.specs.Fits.{FitsUnits, run_of};
ghost use Rattle.dsm_net.specs.Story.{history, own_turns_of, labels_of_turns};
ghost use Rattle.dsm_laws_runs.specs.Versions.{AllAskFirst};
ghost use Rattle.dsm_laws_protocol.specs.Holding.{AreWithin, HoldTogether};
ghost use Rattle.dsm_laws_protocol.specs.OwnParts.{HasOwnParts};
ghost use Rattle.dsm_laws_protocol.specs.Waiting.{NobodyWaitsInVain};

use dsm_base::Task;

/// What a processor that is up has of its own is what its turns in the trace leave, and these turns
/// are its part of the history.
pub fn own_parts<T: Task>()
    ensures own { (setup : Setup) (first : ℕ → T.State) (acts : List Act) (trace : List Group)
        (fits : FitsUnits setup first T.kind.semantics acts trace) →
        HasOwnParts setup first T.kind.semantics
        (run_of setup first T.kind.semantics fits.done).net trace }
    ensures labels { (trace : List Group) (p : ℕ) →
        labels_of_turns (own_turns_of p trace) ≡ labels_of p (history trace) }
{}

/// After each unit every lock is granted to all to whom it may be: the first who waits can't hold it
/// beside its holders.
pub fn nobody_waits_in_vain<T: Task>()
    ensures { (setup : Setup) (first : ℕ → T.State) (acts : List Act) (trace : List Group)
        (fits : FitsUnits setup first T.kind.semantics acts trace) →
        NobodyWaitsInVain (run_of setup first T.kind.semantics fits.done).net }
{}

/// Two processors hold one lock only where both hold it shared, by what their own turns left: no
/// processor looks at another's.
pub fn processors_hold_together<T: Task>()
    ensures { (setup : Setup) (first : ℕ → T.State) (acts : List Act) (trace : List Group) →
        AllAskFirst setup first T.kind.semantics →
        (fits : FitsUnits setup first T.kind.semantics acts trace) → AreWithin setup acts →
        HoldTogether (run_of setup first T.kind.semantics fits.done).net }
{}
