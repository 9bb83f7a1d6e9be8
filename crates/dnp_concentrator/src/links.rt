//! The links to substations.

ghost use Rattle.std.specs.Prelude.{◌≡◌, IfOk, map};
ghost use Rattle.dnp_concentrator.specs.Below as spec;
ghost use Rattle.dnp_concentrator.specs.Plan.{KeepsLimits};
ghost use Rattle.dnp_concentrator.specs.Relaying.{hung_up};

use crate::plan::Plan;
use crate::relay::Relay;
use crate::substation_points::points_below;
use std::alloc::{AllocError, Global};

/// The links to the substations of a plan, by their numbers, all closed. Refused out of memory alone.
pub(crate) fn new_links(alloc: Global, plan: &Plan) -> Result<Vec<Relay>, AllocError>
    requires { KeepsLimits plan.now }
    ensures { IfOk result (λ links. links.items ≡ spec.new_links plan.now) }
{
    let substations = plan.substations.as_slice();
    let mut links = Vec::with_capacity(alloc, substations.len())?;
    for substation in substations {
        links.push(Relay::new(points_below(alloc, substation)?, plan.times))?;
    }
    Ok(links)
}

/// Every link is closed, and forgets the control in progress there.
pub(crate) fn hang_up_all(links: &mut [Relay])
    ensures { links.new ≡ map hung_up links.old }
{
    for link in links.iter_mut() {
        link.hung_up();
    }
}
