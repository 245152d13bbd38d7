// The longest step that is too long for no element and face of it.

#![tactic(auto)]

ghost use Rattle.std.specs.Prelude.{pos, length, get_or, not, ◌≡◌, ℕ, ◌+◌, ◌*◌, ◌≤◌, ◌<◌, min, max};
ghost use Rattle.element.specs.Elements.{element_of};
ghost use Rattle.laws.specs.Most.{most_face_resistance, most_sensitivity};
ghost use Rattle.step_length.specs.Reach.{Limited, longest_within, is_too_long};
ghost use Rattle.laws.specs.Shorten.{shortened};
ghost use Rattle.numbers.specs.Arrays.{filled};
ghost use Rattle.numbers.specs.Rounding.{floor};
ghost use Rattle.rules.specs.Layer as layer;
ghost use Rattle.rules.specs.Step.{outer_contacts};
ghost use Rattle.quantities.specs.Quantities.{solids_limits, stress_limits, step_limits, element_limits};

use quantities::Face;

// The sensitivity of every element.
#[tactic(auto, using(numbers::proofs::Filled::filled_zero, numbers::proofs::Filled::filled_suc))]
pub fn sensitivities<'a>(elements: usize, solids: &'a [u64; 128], sensitivity: &mut [u64; 128])
    requires elements_le_most { elements ≤ element_limits.most }
    requires by_index { (j : ℕ) → j < elements → (0 < get_or solids.now j 0) × (get_or solids.now j 0 ≤ solids_limits.most) }
    requires sensitivity_len { length sensitivity.old ≡ 128 }
    ensures { sensitivity.new ≡ filled sensitivity.old elements (λ j. layer.sensitivity (get_or solids.now j 0)) }
{
    for j in 0..elements {
        sensitivity[j] = element::sensitivity(solids[j]);
    }
}

// A step shortened to a quotient, divided only where the step is longer.
pub fn shorten(t: u64, divisor: u64, resistance: u64) -> u64
    requires divisor_nonzero { (0 < divisor) × (t ≤ step_limits.most) }
    requires resistance_le_most_face_resistance { resistance ≤ most_face_resistance }
    ensures { result ≡ min t (floor resistance divisor) }
{
    if resistance < divisor {
        return 0;
    }
    if resistance < divisor * t {
        numbers::floor(resistance, divisor)
    } else {
        t
    }
}

// A step shortened for both elements of an inner face.
pub fn shorten_inner(t: u64, steepness: u64, below: u64, above: u64, resistance: u64) -> u64
    requires t_le_most { t ≤ step_limits.most }
    requires steepness_nonzero { (0 < steepness) × (steepness ≤ stress_limits.most) }
    requires below_nonzero { (0 < below) × (below ≤ most_sensitivity) }
    requires above_nonzero { (0 < above) × (above ≤ most_sensitivity) }
    requires resistance_le_most_face_resistance { resistance ≤ most_face_resistance }
    ensures { result ≡ min t (floor resistance (2 * max below above * steepness)) }
{
    let divisor = 2 * below.max(above) * steepness;
    shorten(t, divisor, resistance)
}

// A step shortened for an element and an outer face: not at all if it is closed.
#[tactic(auto, unfolding(laws::specs::Shorten::shortened, rules::specs::Step::outer_contacts, rules::specs::Step::outer_resistance))]
pub fn shorten_outer(face: Face, t: u64, steepness: u64, sensitivity: u64, resistance: u64) -> u64
    requires t_le_most { t ≤ step_limits.most }
    requires steepness_nonzero { (0 < steepness) × (steepness ≤ stress_limits.most) }
    requires sensitivity_nonzero { (0 < sensitivity) × (sensitivity ≤ most_sensitivity) }
    requires resistance_le_most_face_resistance { resistance ≤ most_face_resistance }
    ensures { (result ≡ shortened steepness t (outer_contacts face (element_of (pos 0) resistance sensitivity))) × (result ≤ t) }
{
    match face {
        Face::Closed => t,
        Face::Drained(_) => shorten(t, 2 * sensitivity * steepness, resistance),
    }
}

// The longest step of at most so many seconds that is too long for no element and face of it.
#[tactic(auto, using(crate::proofs::ReachAt::begins, crate::proofs::ReachAt::at_inner, crate::proofs::ReachAt::at_top))]
pub fn longest<'a>(
    elements: usize,
    top: Face,
    bottom: Face,
    steepness: u64,
    resistance: &'a [u64; 128],
    sensitivity: &'a [u64; 128],
    most: u64,
) -> u64
    requires elements_nonzero { (0 < elements) × (elements ≤ element_limits.most) }
    requires steepness_nonzero { (0 < steepness) × (steepness ≤ stress_limits.most) }
    requires limited { Limited elements resistance.now sensitivity.now }
    requires most_le_most { most ≤ step_limits.most }
    ensures { result ≡ longest_within top bottom steepness elements resistance.now sensitivity.now most }
{
    let mut t = shorten_outer(bottom, most, steepness, sensitivity[0], resistance[0]);
    for j in 1..elements {
        t = shorten_inner(
            t,
            steepness,
            sensitivity[j - 1],
            sensitivity[j],
            resistance[j - 1] + resistance[j],
        );
    }
    let last = elements - 1;
    shorten_outer(top, t, steepness, sensitivity[last], resistance[last])
}

// Whether a step is too long for some element and face of it.
#[tactic(auto, using(crate::proofs::ReachAt::too_long_is))]
pub fn too_long<'a>(
    elements: usize,
    top: Face,
    bottom: Face,
    steepness: u64,
    resistance: &'a [u64; 128],
    sensitivity: &'a [u64; 128],
    t: u64,
) -> bool
    requires elements_nonzero { (0 < elements) × (elements ≤ element_limits.most) }
    requires steepness_nonzero { (0 < steepness) × (steepness ≤ stress_limits.most) }
    requires limited { Limited elements resistance.now sensitivity.now }
    requires t_le_most { t ≤ step_limits.most }
    ensures { result ≡ is_too_long top bottom steepness elements resistance.now sensitivity.now t }
{
    longest(elements, top, bottom, steepness, resistance, sensitivity, t) < t
}
