// Laws of plans and of refusals. Each is the contract of a function, so that the check asks for its proof.
ghost use Rattle.plan.specs.Laws.{OneRefusal, Sound};

use super::plan::Plan;

// Two refusals of the same rows and size have the same ground and the same row.
pub fn one_refusal()
    ensures { OneRefusal }
{}

// The rows of any plan are bounded, and no byte belongs to two windows or register files.
pub fn plan_is_sound(plan: &Plan)
    ensures { Sound plan.now }
{}
