// The pore pressure of one element of a layer.

#![tactic(auto)]

ghost use Rattle.std.specs.Prelude.{get_or, true, ◌≡◌, ℕ, ◌+◌, ◌≤◌, ◌<◌};
ghost use Rattle.layer.specs.Soil.{OnSoil};
ghost use Rattle.numbers.specs.Arrays.{first_places};
ghost use Rattle.numbers.specs.Interval.{Within};
ghost use Rattle.numbers.specs.Sums.{sum};
ghost use Rattle.pore.specs.Pore.{element_pore};
ghost use Rattle.quantities.specs.Quantities.{element_limits, level_limits, curve_limits, solids_limits, water_limits, within_ℤ, pressure};
ghost use Rattle.result_elements.specs.Elements.{most_height, most_pore};
ghost use Rattle.rules.specs.Curve.{points, compressibility_sound};
ghost use Rattle.rules.specs.Layer.{skeleton_of};
ghost use Rattle.rules.specs.Record.{is_layer};
ghost use Rattle.rules.specs.Result.{pore_pressure};

use quantities::{Head, Pressure};
use rules::record::{Record, Skeleton};

// The height of the first elements.
pub fn height_below<'a>(elements: usize, solids: &'a [u64; 128], water: &'a [u64; 128]) -> u64
    requires elements_le_most { elements ≤ element_limits.most }
    requires by_index { (j : ℕ) → j < elements → (get_or solids.now j 0 ≤ solids_limits.most) × (get_or water.now j 0 ≤ water_limits.most) }
    ensures value { result ≡ sum (first_places elements solids.now) + sum (first_places elements water.now) }
    ensures upper_bound { result ≤ most_height }
{
    let mut height: u64 = 0;
    for j in 0..elements {
        height += solids[j] + water[j];
    }
    height
}

// The pore pressure of an element over those below it, counted from 0, with its burden.
pub fn pore_over<'a>(
    index: usize,
    load: Pressure,
    top_level: Head,
    burden: &'a [u64; 128],
    solids: &'a [u64; 128],
    water: &'a [u64; 128],
    skeleton: Skeleton,
    void: &'a [u64; 64],
    stress: &'a [u64; 64],
) -> Pressure
    requires index_lt_most { (index < element_limits.most) × (within_ℤ level_limits top_level.0 ≡ true) }
    requires least_le_points { (curve_limits.least ≤ skeleton.points) × (skeleton.points ≤ curve_limits.most) }
    requires stress_value { compressibility_sound (points skeleton.points void.now stress.now) ≡ true }
    requires by_index { (j : ℕ) → j ≤ index → OnSoil skeleton.points void.now stress.now load.0 (get_or burden.now j 0) (get_or solids.now j 0) (get_or water.now j 0) }
    ensures value { result ≡ pressure (pore_pressure (skeleton_of (points skeleton.points void.now stress.now)) top_level.0 load.0 (sum (first_places index solids.now) + sum (first_places index water.now)) (get_or burden.now index 0) (get_or solids.now index 0) (get_or water.now index 0)) }
    ensures within { Within result.0 most_pore }
{
    let below = height_below(index, solids, water);
    let stresses = result_elements::element_stresses(
        load,
        top_level,
        below,
        burden[index],
        solids[index],
        water[index],
        skeleton,
        void,
        stress,
    );
    stresses.pore
}

// The pore pressure of an element of a layer, counted from 0.
pub fn element_pore(r: Record, index: usize) -> Pressure
    requires r_value { is_layer r ≡ true }
    requires index_lt_elements { index < r.layer.frame.elements }
    ensures value { result ≡ pressure (element_pore r index) }
    ensures within { Within result.0 most_pore }
{
    let frame = r.layer.frame;
    let progress = r.layer.progress;
    let load = progress.load;
    let top_level = frame.top_level;
    let points = r.soil.counts.compressibility;
    let mut burden = [0u64; 128];
    weights::burdens(frame.elements, frame.gravity, &r.layer.solids, &mut burden);
    pore_over(
        index,
        load,
        top_level,
        &burden,
        &r.layer.solids,
        &r.layer.water,
        Skeleton { points },
        &r.soil.compressibility_void,
        &r.soil.compressibility_stress,
    )
}
