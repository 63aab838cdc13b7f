//! The contacts of a plan that no bundle can use, since no range gives them a light time.

ghost use Rattle.std.specs.Prelude.{◌≡◌};
ghost use Rattle.sabr_plan.specs.WithoutLight.{contacts_without_light};

use sabr_model::Plan;
use std::alloc::Allocator;

/// Counts the contacts of a plan that weren't deleted and have no light time at their start. Its time grows with their
/// number.
pub fn contacts_without_light<A: Allocator + Copy>(plan: &Plan<A>) -> usize
    ensures { result ≡ contacts_without_light plan.now.plan }
{
    plan.rules_hold();
    let mut count = 0;
    for place in 0..plan.contacts().len() {
        let (_number, hop) = plan.hop_at(place);
        count += hop.light.is_none() as usize;
    }
    count
}
