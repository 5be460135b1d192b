//! What holds of every run of the machine.

ghost use Rattle.std.specs.Prelude.{◌≡◌, ℕ, ◌<◌, ◌↔◌, List, Some, All};
ghost use Rattle.babel_machine.specs.declared.machine.pair.Pair.{Pair};
ghost use Rattle.babel_machine.specs.declared.machine.step.Step.{Step};
ghost use Rattle.babel_machine.specs.Machine.{SourceState, Run, MachineRun, MaySend, first_state, first_states};
ghost use Rattle.babel_machine.specs.MachineRefusals.{announced};
ghost use Rattle.babel_machine.specs.Cycle.{NoCycle, OwnerHasNoPick};
ghost use Rattle.babel_machine.specs.ForeignMachine.{NoCycleAmongForeignRouters};

/// Loop freedom of the machine: no list of steps from the first state leads to a cycle, for any
/// source. The same holds of one source by itself, and no list of steps gives its owner a pick.
pub fn no_cycle_after_any_run()
    ensures machine { (nodes : ℕ) (owners : List ℕ) (steps : List (ℕ × Step)) (last : List SourceState) →
        All (λ owner. owner < nodes) owners → MachineRun (first_states nodes owners) steps last → All NoCycle last }
    ensures source { (nodes owner : ℕ) (steps : List Step) (last : SourceState) →
        owner < nodes → Run (first_state nodes owner) steps last → NoCycle last }
    ensures owner { (nodes owner : ℕ) (steps : List Step) (last : SourceState) →
        owner < nodes → Run (first_state nodes owner) steps last → OwnerHasNoPick last }
{}

/// `announce` refuses by A3 exactly if the machine has no such step. Since an owner never has a
/// pick, what a node announces under a metric is what it may send under that metric.
pub fn announced_is_what_may_be_sent()
    ensures { (state : SourceState) (node metric : ℕ) (pair : Pair) → OwnerHasNoPick state →
        ((announced state node metric ≡ Some pair) ↔ (MaySend state node pair × (pair.metric ≡ metric))) }
{}

/// Loop freedom among routers of others: no list of steps leads to a cycle of our nodes, even if a
/// node may pick from outside any pair that is better than everything that it sent. The owner has
/// no pick, and may be no node of ours.
pub fn no_cycle_among_foreign_routers()
    ensures { NoCycleAmongForeignRouters }
{}
