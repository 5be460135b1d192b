//! Plans: steps in the order of their moments.

ghost use Rattle.std.specs.Prelude.{◌≡◌, ◌≤◌, ◌<◌, ◌-◌, ◌++◌, ◌∷◌, [], length, slice_index_or, OnOk, OnErr, IsErr};
ghost use Rattle.babel_topology.specs.declared.topology.Step.{Step};
ghost use Rattle.babel_topology.specs.Plans.{IsInOrder, EndsBy};

use crate::TopologyFault;
use crate::topology::Step;

/// Adds a step, which has this number, to a plan that ends at this moment.
///
/// # Errors
///
/// T15 if the step is earlier than the last one of the plan, T16 if it is later than the end, T4 if
/// an allocation fails.
pub fn push_step(
    steps: &mut Vec<Step>,
    step: Step,
    number: usize,
    duration: u64,
) -> Result<(), TopologyFault>
    ensures ok { OnOk result (steps.new.items ≡ steps.old.items ++ step ∷ []) }
    ensures err { OnErr result (steps.new.items ≡ steps.old.items) }
    ensures order { OnOk result (IsInOrder steps.old.items → IsInOrder steps.new.items) }
    ensures end { OnOk result (EndsBy duration steps.old.items → EndsBy duration steps.new.items) }
    ensures late { duration < step.at → IsErr result }
{
    let at = step.at;
    let latest = latest_of(steps);
    check_moment(number, at, latest, duration)?;
    steps.push(step)?;
    Ok(())
}

/// The moment of the last step, 0 without one.
#[tactic(auto, using(crate::proofs::Growing::same_last))]
fn latest_of(steps: &[Step]) -> u64
    ensures { (d : Step) → 0 < length steps.now → (slice_index_or steps.now (length steps.now - 1) d).at ≡ result }
{
    let count = steps.len();
    if count == 0 {
        return 0;
    }
    steps[count - 1].at
}

/// T15 or T16, if the moment isn't between these two.
fn check_moment(number: usize, at: u64, latest: u64, duration: u64) -> Result<(), TopologyFault>
    ensures order { OnOk result (latest ≤ at) }
    ensures end { OnOk result (at ≤ duration) }
    ensures early { at < latest → result ≡ Err (TopologyFault.EarlyStep number) }
    ensures late { latest ≤ at → duration < at → result ≡ Err (TopologyFault.LateStep number) }
{
    if at < latest {
        return Err(TopologyFault::EarlyStep(number));
    }
    if at > duration {
        return Err(TopologyFault::LateStep(number));
    }
    Ok(())
}
