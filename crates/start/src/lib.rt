// The water of an opened layer: as given, or at rest under a load.

#![tactic(auto)]

ghost use Rattle.std.specs.Prelude.{pos, length, get_or, true, map, ◌≡◌, ℕ, ◌≤◌, ◌<◌};
ghost use Rattle.laws.specs.Most.{most_burden};
ghost use Rattle.numbers.specs.Arrays.{first_places, overlaid};
ghost use Rattle.rules.specs.Curve.{points, is_on, compressibility_sound};
ghost use Rattle.rules.specs.Layer.{Site, skeleton_of, effective_stress};
ghost use Rattle.quantities.specs.Quantities.{stress_limits, solids_limits, water_limits, element_limits, curve_limits};
ghost use Rattle.rules.specs.Start.{at_most, resting_water, resting_under, resting_from};
ghost use Rattle.rules.specs.Step.{all_on_curve};
ghost use Rattle.start.specs.Rest.{resting_heights, all_or_none};

use curves::reading;
use rules::record::Skeleton;

// Whether every element is on a sound compressibility curve.
pub fn all_on_curve<'a>(
    elements: usize,
    solids: &'a [u64; 128],
    water: &'a [u64; 128],
    skeleton: Skeleton,
    void: &'a [u64; 64],
    stress: &'a [u64; 64],
) -> bool
    requires elements_le_most { elements ≤ element_limits.most }
    requires by_index { (j : ℕ) → j < elements → (0 < get_or solids.now j 0) × (get_or water.now j 0 ≤ water_limits.most) }
    requires least_le_points { (curve_limits.least ≤ skeleton.points) × (skeleton.points ≤ curve_limits.most) }
    requires stress_value { compressibility_sound (points skeleton.points void.now stress.now) ≡ true }
    ensures { result ≡ all_on_curve (skeleton_of (points skeleton.points void.now stress.now)) (first_places elements solids.now) (map pos (first_places elements water.now)) }
{
    let mut hint: usize = 0;
    for j in 0..elements {
        let found = element::effective_stress(solids[j], water[j], skeleton, void, stress, hint);
        let value = found.value;
        if !reading::is_on(value) {
            return false;
        }
        hint = found.segment;
    }
    true
}

// Whether an element is on the curve and its effective stress is at most so much.
pub fn rests<'a>(
    solids: u64,
    water: u64,
    most: u64,
    skeleton: Skeleton,
    void: &'a [u64; 64],
    stress: &'a [u64; 64],
) -> bool
    requires solids_nonzero { (0 < solids) × (water ≤ water_limits.most) }
    requires least_le_points { (curve_limits.least ≤ skeleton.points) × (skeleton.points ≤ curve_limits.most) }
    requires stress_value { compressibility_sound (points skeleton.points void.now stress.now) ≡ true }
    ensures { result ≡ at_most (effective_stress (skeleton_of (points skeleton.points void.now stress.now)) solids water) most }
{
    let found = element::effective_stress(solids, water, skeleton, void, stress, 0);
    let value = found.value;
    match value {
        Some(read) => read <= most,
        None => false,
    }
}

// The least height on the curve whose effective stress is at most so much, by halves of the heights on the curve.
pub fn resting_water<'a>(
    solids: u64,
    most: u64,
    skeleton: Skeleton,
    void: &'a [u64; 64],
    stress: &'a [u64; 64],
) -> Option<u64>
    requires solids_nonzero { (0 < solids) × (solids ≤ solids_limits.most) }
    requires least_le_points { (curve_limits.least ≤ skeleton.points) × (skeleton.points ≤ curve_limits.most) }
    requires stress_value { compressibility_sound (points skeleton.points void.now stress.now) ≡ true }
    ensures { result ≡ resting_water (skeleton_of (points skeleton.points void.now stress.now)) solids most }
{
    let mut high = water::highest_water(solids, void[0]);
    if !rests(solids, high, most, skeleton, void, stress) {
        return None;
    }
    let mut low = water::lowest_water(solids, void[skeleton.points - 1]);
    while low < high {
        let middle = low + (high - low) / 2;
        if rests(solids, middle, most, skeleton, void, stress) {
            high = middle;
        } else {
            low = middle + 1;
        }
    }
    Some(high)
}

// The resting water of an element under load + B: nowhere where that is above the last stress.
pub fn resting_under<'a>(
    load: u64,
    burden: u64,
    solids: u64,
    skeleton: Skeleton,
    void: &'a [u64; 64],
    stress: &'a [u64; 64],
) -> Option<u64>
    requires load_le_most { (load ≤ stress_limits.most) × (burden ≤ most_burden) }
    requires solids_nonzero { (0 < solids) × (solids ≤ solids_limits.most) }
    requires least_le_points { (curve_limits.least ≤ skeleton.points) × (skeleton.points ≤ curve_limits.most) }
    requires stress_value { compressibility_sound (points skeleton.points void.now stress.now) ≡ true }
    ensures { result ≡ resting_under (skeleton_of (points skeleton.points void.now stress.now)) load burden solids }
{
    let most = load + burden;
    if stress[skeleton.points - 1] < most {
        return None;
    }
    resting_water(solids, most, skeleton, void, stress)
}

// Whether every element rests under load + B: their resting water, from the lowest up as far as they do, is put in the first places.
pub fn resting_waters<'a>(
    elements: usize,
    load: u64,
    burden: &'a [u64; 128],
    solids: &'a [u64; 128],
    skeleton: Skeleton,
    void: &'a [u64; 64],
    stress: &'a [u64; 64],
    water: &mut [u64; 128],
) -> bool
    requires elements_le_most { elements ≤ element_limits.most }
    requires load_le_most { load ≤ stress_limits.most }
    requires by_index { (j : ℕ) → j < elements → get_or burden.now j 0 ≤ most_burden }
    requires by_index_2 { (j : ℕ) → j < elements → (0 < get_or solids.now j 0) × (get_or solids.now j 0 ≤ solids_limits.most) }
    requires least_le_points { (curve_limits.least ≤ skeleton.points) × (skeleton.points ≤ curve_limits.most) }
    requires stress_value { compressibility_sound (points skeleton.points void.now stress.now) ≡ true }
    requires water_len { length water.old ≡ 128 }
    ensures solids_value { resting_from (skeleton_of (points skeleton.points void.now stress.now)) load (first_places elements burden.now) (first_places elements solids.now) ≡ all_or_none result (first_places elements water.new) }
    ensures water_after { water.new ≡ overlaid (resting_heights (skeleton_of (points skeleton.points void.now stress.now)) load (first_places elements burden.now) (first_places elements solids.now)) water.old }
{
    for j in 0..elements {
        match resting_under(load, burden[j], solids[j], skeleton, void, stress) {
            Some(height) => water[j] = height,
            None => return false,
        }
    }
    true
}
