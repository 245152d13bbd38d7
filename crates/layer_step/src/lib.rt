// A step over arrays: the longest that is not too long, and moving the water.

#![tactic(auto)]

ghost use Rattle.std.specs.Prelude.{ℤ, length, get_or, true, List, ◌≡◌, ℕ, ◌-◌, ◌≤◌, ◌<◌};
ghost use Rattle.element.specs.Elements.{Readable, flow_above};
ghost use Rattle.laws.specs.Bounds.{lowest_water, highest_water};
ghost use Rattle.laws.specs.Faces.{HeldWithin};
ghost use Rattle.layer_step.specs.Moving.{flows_in, moved_in, water_in, longest_by, water_longest, flows_longest};
ghost use Rattle.numbers.specs.Arrays.{filled};
ghost use Rattle.rules.specs.Curve.{points, compressibility_sound, curve_steepness};
ghost use Rattle.rules.specs.Layer as layer;
ghost use Rattle.quantities.specs.Quantities.{step_limits, stress_limits, water_limits, solids_limits, element_limits, curve_limits};
ghost use Rattle.step_length.specs.Reach.{Limited, longest_within};

use curves::steep;
use quantities::Face;
use rules::answers::Stop;
use rules::record::Skeleton;

// The flows of a step up through the bottom and up through the top.
#[derive(Clone, Copy)]
pub struct Flows {
    pub bottom: i64,
    pub top: i64,
}

// A step taken: its seconds and its flows.
#[derive(Clone, Copy)]
pub struct Taken {
    pub seconds: u64,
    pub flows: Flows,
}

// Moves the water of every element by the flows of t seconds, unless one would leave its bounds, and gives the flows.
pub fn advance<'a>(
    elements: usize,
    top: Face,
    bottom: Face,
    t: u64,
    excess: &'a [i64; 128],
    resistance: &'a [u64; 128],
    low: &'a [u64; 128],
    high: &'a [u64; 128],
    above: &mut [i64; 128],
    water: &mut [u64; 128],
) -> Option<Flows>
    requires elements_nonzero { (0 < elements) × (elements ≤ element_limits.most) }
    requires held_within { HeldWithin top × HeldWithin bottom }
    requires t_le_most { t ≤ step_limits.most }
    requires readable { Readable elements excess.now resistance.now }
    requires by_index { (j : ℕ) → j < elements → (get_or low.now j 0 ≤ water_limits.most) × (get_or high.now j 0 ≤ water_limits.most) × (get_or water.old j 0 ≤ water_limits.most) }
    requires above_len { (length above.old ≡ 128) × (length water.old ≡ 128) }
    ensures value { let flows : List ℤ = flows_in top bottom t elements excess.now resistance.now in result ≡ moved_in elements low.now high.now water.old flows }
    ensures water_after { let flows : List ℤ = flows_in top bottom t elements excess.now resistance.now in water.new ≡ water_in elements low.now high.now water.old flows }
    ensures above_after { above.new ≡ filled above.old elements (flow_above top t elements excess.now resistance.now) }
{
    let lowest = flows::all_flows(elements, top, bottom, t, excess, resistance, above);
    if !water::stays_between(elements, lowest, above, water, low, high) {
        return None;
    }
    water::move_water(elements, lowest, above, water);
    let last = elements - 1;
    Some(Flows {
        bottom: lowest,
        top: above[last],
    })
}

// Takes the longest step of at most so many seconds that is not too long, or gives the stop where none is taken.
pub fn advance_longest<'a>(
    elements: usize,
    top: Face,
    bottom: Face,
    most: u64,
    steepness: u64,
    sensitivity: &'a [u64; 128],
    excess: &'a [i64; 128],
    resistance: &'a [u64; 128],
    low: &'a [u64; 128],
    high: &'a [u64; 128],
    above: &mut [i64; 128],
    water: &mut [u64; 128],
) -> Result<Taken, Stop>
    requires elements_nonzero { (0 < elements) × (elements ≤ element_limits.most) }
    requires held_within { HeldWithin top × HeldWithin bottom × (most ≤ step_limits.most) }
    requires steepness_nonzero { (0 < steepness) × (steepness ≤ stress_limits.most) × Limited elements resistance.now sensitivity.now }
    requires readable { Readable elements excess.now resistance.now }
    requires by_index { (j : ℕ) → j < elements → (get_or low.now j 0 ≤ water_limits.most) × (get_or high.now j 0 ≤ water_limits.most) × (get_or water.old j 0 ≤ water_limits.most) }
    requires above_len { (length above.old ≡ 128) × (length water.old ≡ 128) }
    ensures value { let t : ℕ = longest_within top bottom steepness elements resistance.now sensitivity.now most in result ≡ longest_by t (moved_in elements low.now high.now water.old (flows_in top bottom t elements excess.now resistance.now)) }
    ensures water_after { let t : ℕ = longest_within top bottom steepness elements resistance.now sensitivity.now most in water.new ≡ water_longest t elements low.now high.now water.old (flows_in top bottom t elements excess.now resistance.now) }
    ensures above_after { let t : ℕ = longest_within top bottom steepness elements resistance.now sensitivity.now most in above.new ≡ flows_longest t elements top excess.now resistance.now above.old }
{
    let t = step_length::longest(
        elements,
        top,
        bottom,
        steepness,
        resistance,
        sensitivity,
        most,
    );
    if t == 0 {
        return Err(Stop::NoStep);
    }
    match advance(
        elements, top, bottom, t, excess, resistance, low, high, above, water,
    ) {
        None => Err(Stop::OffCurve),
        Some(flows) => Ok(Taken { seconds: t, flows }),
    }
}

// What is worked out once for a site: sensitivities and bounds of water in the first places, and the curve's steepness.
pub fn prepare<'a>(
    elements: usize,
    solids: &'a [u64; 128],
    skeleton: Skeleton,
    void: &'a [u64; 64],
    stress: &'a [u64; 64],
    sensitivity: &mut [u64; 128],
    low: &mut [u64; 128],
    high: &mut [u64; 128],
) -> u64
    requires elements_le_most { elements ≤ element_limits.most }
    requires by_index { (j : ℕ) → j < elements → (0 < get_or solids.now j 0) × (get_or solids.now j 0 ≤ solids_limits.most) }
    requires least_le_points { (curve_limits.least ≤ skeleton.points) × (skeleton.points ≤ curve_limits.most) × (compressibility_sound (points skeleton.points void.now stress.now) ≡ true) }
    requires sensitivity_len { (length sensitivity.old ≡ 128) × (length low.old ≡ 128) × (length high.old ≡ 128) }
    ensures value { result ≡ curve_steepness (points skeleton.points void.now stress.now) }
    ensures sensitivity_after { sensitivity.new ≡ filled sensitivity.old elements (λ j. layer.sensitivity (get_or solids.now j 0)) }
    ensures low_after { low.new ≡ filled low.old elements (λ j. lowest_water (get_or solids.now j 0) (get_or void.now (skeleton.points - 1) 0)) }
    ensures high_after { high.new ≡ filled high.old elements (λ j. highest_water (get_or solids.now j 0) (get_or void.now 0 0)) }
{
    step_length::sensitivities(elements, solids, sensitivity);
    let last = skeleton.points - 1;
    water::water_bounds(elements, solids, void[last], void[0], low, high);
    steep::curve_steepness(skeleton.points, void, stress)
}
