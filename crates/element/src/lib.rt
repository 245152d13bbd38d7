// One element: what is read of it, and the flows through its faces.

#![tactic(auto)]

ghost use Rattle.std.specs.Prelude.{ℤ, pos, neg_ℤ, ◌*ℤ◌, true, ◌≡◌, ◌+◌, ◌≤◌, ◌<◌};
ghost use Rattle.curves.specs.Named.{ReadOn};
ghost use Rattle.element.specs.Elements.{element_of, OutwardCut};
ghost use Rattle.laws.specs.Most.{most_burden, most_excess, most_difference, most_resistance, most_face_resistance, most_weight};
ghost use Rattle.laws.specs.Faces.{HeldWithin};
ghost use Rattle.numbers.specs.Interval.{Within};
ghost use Rattle.numbers.specs.Quotients.{Cut, Left};
ghost use Rattle.rules.specs.Curve.{points, compressibility_sound};
ghost use Rattle.rules.specs.Layer.{skeleton_of, void_ratio, effective_stress, buoyant_weight, sensitivity, excess_under, resistance_with};
ghost use Rattle.rules.specs.Step.{outward};
ghost use Rattle.quantities.specs.Quantities.{stress_limits, conductivity_limits, solids_limits, water_limits, step_limits, gravity_limits, curve_limits, pressure};

use curves::reading;
use curves::reading::Found;
use quantities::{Face, Pressure, Void};
use rules::record::Skeleton;

// A metre in nanometres.
const METRE: u64 = 1_000_000_000;

// E, from solids and water within their limits.
#[tactic(auto, unfolding(rules::specs::Layer::void_ratio))]
pub fn void_ratio(solids: u64, water: u64) -> u64
    requires { (0 < solids) × (water ≤ water_limits.most) }
    ensures { result ≡ void_ratio solids water }
{
    numbers::floor(water * Void::ONE, solids)
}

// The effective stress, read at the element's void ratio, whatever segment the hint names.
#[tactic(auto, unfolding(rules::specs::Layer::effective_stress))]
pub fn effective_stress<'a>(
    solids: u64,
    water: u64,
    skeleton: Skeleton,
    void: &'a [u64; 64],
    stress: &'a [u64; 64],
    hint: usize,
) -> Found
    requires solids_nonzero { (0 < solids) × (water ≤ water_limits.most) }
    requires least_le_points { (curve_limits.least ≤ skeleton.points) × (skeleton.points ≤ curve_limits.most) }
    requires stress_value { compressibility_sound (points skeleton.points void.now stress.now) ≡ true }
    ensures value_value { (result.value ≡ effective_stress (skeleton_of (points skeleton.points void.now stress.now)) solids water) × (result.segment + 1 < skeleton.points) }
    ensures read_on { ReadOn void.now stress.now (void_ratio solids water) result.segment result.value }
{
    let ratio = void_ratio(solids, water);
    reading::read(skeleton.points, void, stress, ratio, hint)
}

// b, with specific gravity in thousandths.
#[tactic(auto, unfolding(rules::specs::Layer::buoyant_weight))]
pub fn buoyant_weight(gravity: u64, solids: u64) -> u64
    requires least_le_gravity { (gravity_limits.least ≤ gravity) × (gravity ≤ gravity_limits.most) }
    requires solids_le_most { solids ≤ solids_limits.most }
    ensures { (result ≡ buoyant_weight gravity solids) × (result ≤ most_weight) }
{
    numbers::floor(solids * (gravity - 1_000) * 9_810, METRE)
}

// r, from an element's height and conductivity.
pub fn resistance(solids: u64, water: u64, conductivity: u64) -> u64
    requires solids_le_most { (solids ≤ solids_limits.most) × (water ≤ water_limits.most) }
    requires conductivity_nonzero { (0 < conductivity) × (conductivity ≤ conductivity_limits.most) }
    ensures { result ≡ resistance_with solids water conductivity }
{
    numbers::ceil(4_905 * (solids + water), conductivity)
}

// c, the most by which a nanometre of water moves the void ratio.
#[tactic(auto, unfolding(rules::specs::Layer::sensitivity))]
pub fn sensitivity(solids: u64) -> u64
    requires { (0 < solids) × (solids ≤ solids_limits.most) }
    ensures { result ≡ sensitivity solids }
{
    numbers::ceil(Void::ONE, solids)
}

// p, from the load, the burden and the effective stress.
pub fn excess_pressure(load: Pressure, burden: u64, stress: u64) -> Pressure
    requires within { Within load.0 stress_limits.most }
    requires burden_le_most_burden { (burden ≤ most_burden) × (stress ≤ stress_limits.most) }
    ensures { result ≡ pressure (excess_under load.0 burden stress) }
{
    let excess = load.0 + burden as i64 - stress as i64;
    Pressure(excess)
}

// The flow of t seconds over a pressure difference through a resistance, cut toward zero.
pub fn flow(difference: i64, t: u64, resistance: u64) -> i64
    requires within { Within difference most_difference }
    requires t_le_most { t ≤ step_limits.most }
    requires resistance_nonzero { (0 < resistance) × (resistance ≤ most_face_resistance) }
    ensures { Cut (difference *ℤ pos t) resistance result }
{
    numbers::cut(difference * t as i64, resistance as i64)
}

// What the division of that flow leaves.
pub fn flow_remainder(difference: i64, t: u64, resistance: u64) -> i64
    requires within { Within difference most_difference }
    requires t_le_most { t ≤ step_limits.most }
    requires resistance_nonzero { (0 < resistance) × (resistance ≤ most_face_resistance) }
    ensures { Left (difference *ℤ pos t) resistance result }
{
    numbers::remainder(difference * t as i64, resistance as i64)
}

// Out through an outer face: nothing if it is closed.
#[tactic(auto, unfolding(rules::specs::Step::outward, crate::specs::Elements::OutwardCut, laws::specs::Faces::Holds))]
pub fn outward(face: Face, excess: i64, t: u64, resistance: u64) -> i64
    requires within { Within excess most_excess }
    requires held_within { HeldWithin face }
    requires t_le_most { t ≤ step_limits.most }
    requires resistance_nonzero { (0 < resistance) × (resistance ≤ most_resistance) }
    ensures value { result ≡ outward face t (element_of excess resistance 0) }
    ensures outward_cut { OutwardCut face excess t resistance result }
{
    match face {
        Face::Closed => 0,
        Face::Drained(held) => flow(excess - held.0, t, resistance),
    }
}

// Up through the bottom: less what goes out.
#[tactic(auto, using(crate::proofs::Machine::out_read))]
pub fn bottom_flow(bottom: Face, excess: i64, t: u64, resistance: u64) -> i64
    requires within { Within excess most_excess }
    requires held_within { HeldWithin bottom }
    requires t_le_most { t ≤ step_limits.most }
    requires resistance_nonzero { (0 < resistance) × (resistance ≤ most_resistance) }
    ensures { result ≡ neg_ℤ (outward bottom t (element_of excess resistance 0)) }
{
    0 - outward(bottom, excess, t, resistance)
}
