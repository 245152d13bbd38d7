// The least and the greatest of a layer's flows.
ghost use Rattle.std.specs.Prelude.{◌≡◌, ◌≤◌, ◌<◌};
ghost use Rattle.laws.specs.Faces.{HeldWithin};
ghost use Rattle.layer.specs.Held.{Held, held_of, Stands};
ghost use Rattle.quantities.specs.Quantities.{element_limits};
ghost use Rattle.rules.specs.Record.{soil_of};
ghost use Rattle.steady_test.specs.Extremes.{of_one, with_flow, extremes_to};
ghost use Rattle.steady_test.specs.Flows.{lowest_flow, flow_over};

use crate::standing;
use quantities::{Face, Pressure};
use rules::record::{CurveCounts, Skeleton};

// The seconds over which flows are compared.
const SECONDS: u64 = 1_000;

#[derive(Clone, Copy)]
pub struct Extremes {
    pub least: i64,
    pub greatest: i64,
}

// Both extremes of one flow.
pub fn of_one(flow: i64) -> Extremes
    ensures { result ≡ of_one flow }
{
    Extremes {
        least: flow,
        greatest: flow,
    }
}

// Both with one flow more.
pub fn with_flow(extremes: Extremes, flow: i64) -> Extremes
    ensures { result ≡ with_flow extremes flow }
{
    Extremes {
        least: extremes.least.min(flow),
        greatest: extremes.greatest.max(flow),
    }
}

// Those of the flows up through all faces of a layer that is lent with its burdens, in one pass from the bottom.
pub fn of_flows<'a>(
    elements: usize,
    top: Face,
    bottom: Face,
    load: Pressure,
    counts: CurveCounts,
    void: &'a [u64; 64],
    stress: &'a [u64; 64],
    conductivity_void: &'a [u64; 64],
    conductivity: &'a [u64; 64],
    burden: &'a [u64; 128],
    solids: &'a [u64; 128],
    water: &'a [u64; 128],
) -> Extremes
    requires elements_nonzero { (0 < elements) × (elements ≤ element_limits.most) }
    requires held_within { HeldWithin top × HeldWithin bottom }
    requires stands { let h : Held = held_of (soil_of counts void.now stress.now conductivity_void.now conductivity.now) elements load.0 burden.now solids.now water.now in Stands h }
    ensures { let h : Held = held_of (soil_of counts void.now stress.now conductivity_void.now conductivity.now) elements load.0 burden.now solids.now water.now in result ≡ extremes_to (lowest_flow bottom h) elements (flow_over top h) }
{
    let points = counts.compressibility;
    let conductivity_points = counts.conductivity;
    let mut here = standing::read(
        load,
        burden[0],
        solids[0],
        water[0],
        Skeleton { points },
        void,
        stress,
        conductivity_points,
        conductivity_void,
        conductivity,
    );
    let lowest = element::bottom_flow(bottom, here.excess, SECONDS, here.resistance);
    let mut extremes = of_one(lowest);
    for j in 0..elements - 1 {
        let next = j + 1;
        let above = standing::read(
            load,
            burden[next],
            solids[next],
            water[next],
            Skeleton { points },
            void,
            stress,
            conductivity_points,
            conductivity_void,
            conductivity,
        );
        let difference = here.excess - above.excess;
        let resistance = here.resistance + above.resistance;
        let flow = element::flow(difference, SECONDS, resistance);
        extremes = with_flow(extremes, flow);
        here = above;
    }
    let last = element::outward(top, here.excess, SECONDS, here.resistance);
    with_flow(extremes, last)
}
