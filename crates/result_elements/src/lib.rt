// What a result says of each element.

#![tactic(auto)]

ghost use Rattle.std.specs.Prelude.{length, get_or, true, ◌≡◌, ℕ, ◌+◌, ◌*◌, ◌≤◌, ◌<◌};
ghost use Rattle.std.proofs.lemmas.List.Edits.{sets};
ghost use Rattle.laws.specs.Most.{most_excess};
ghost use Rattle.layer.specs.Soil.{OnSoil};
ghost use Rattle.numbers.specs.Arrays.{first_places};
ghost use Rattle.numbers.specs.Interval.{Within};
ghost use Rattle.result_elements.specs.Elements.{most_height, most_pore};
ghost use Rattle.rules.specs.Curve.{points, value_of, compressibility_sound};
ghost use Rattle.quantities.specs.Quantities.{level_limits, solids_limits, stress_limits, water_limits, pressure, within_ℤ, element_limits, curve_limits};
ghost use Rattle.rules.specs.Result.{node_height, pore_over, pore_pressure, element_words, element_bytes, elements_bytes};
ghost use Rattle.rules.specs.Layer.{skeleton_of, effective_stress};

use curves::reading;
use quantities::{Head, Pressure};
use rules::record::Skeleton;

// z of an element over the height of all below.
pub fn node_height(below: u64, solids: u64, water: u64) -> u64
    requires below_le_most_height { below ≤ most_height }
    requires solids_le_most { (solids ≤ solids_limits.most) × (water ≤ water_limits.most) }
    ensures { result ≡ node_height below solids water }
{
    below + numbers::floor(solids + water, 2)
}

// The pore pressure of one element, from its excess pressure and the height of its node.
pub fn pore_pressure(excess: Pressure, top_level: Head, z: u64) -> Pressure
    requires within { Within excess.0 most_excess }
    requires top_level_value { (within_ℤ level_limits top_level.0 ≡ true) × (z ≤ level_limits.most) }
    ensures { result ≡ pressure (pore_over excess.0 top_level.0 z) }
{
    let over = Head(top_level.0 - z as i64).as_pressure();
    Pressure(excess.0 + over.0)
}

// Stores water, void ratio, effective stress, total stress and pore pressure.
pub fn write_words(
    out: &mut [u8],
    at: usize,
    water: u64,
    ratio: u64,
    effective: u64,
    pore: Pressure,
)
    requires at_in_bounds { at + 40 ≤ length out.old }
    requires effective_le_most { (effective ≤ stress_limits.most) × Within pore.0 most_pore }
    ensures { out.new ≡ sets out.old at (element_words water ratio effective pore.0) }
{
    encoding::put_word(out, at, water);
    encoding::put_word(out, at + 8, ratio);
    encoding::put_word(out, at + 16, effective);
    encoding::put_signed(out, at + 24, pore.0 + effective as i64);
    encoding::put_signed(out, at + 32, pore.0);
}

// The effective stress and the pore pressure of an element.
#[derive(Clone, Copy)]
pub struct Stresses {
    pub effective: u64,
    pub pore: Pressure,
}

// Those of an element on the curve, over the height of all below.
pub fn element_stresses<'a>(
    load: Pressure,
    top_level: Head,
    below: u64,
    burden: u64,
    solids: u64,
    water: u64,
    skeleton: Skeleton,
    void: &'a [u64; 64],
    stress: &'a [u64; 64],
) -> Stresses
    requires below_le_most_height { (below ≤ most_height) × (within_ℤ level_limits top_level.0 ≡ true) }
    requires least_le_points { (curve_limits.least ≤ skeleton.points) × (skeleton.points ≤ curve_limits.most) }
    requires stress_value { compressibility_sound (points skeleton.points void.now stress.now) ≡ true }
    requires on_soil { OnSoil skeleton.points void.now stress.now load.0 burden solids water }
    ensures effective_value { result.effective ≡ value_of (effective_stress (skeleton_of (points skeleton.points void.now stress.now)) solids water) }
    ensures pore_value { result.pore ≡ pressure (pore_pressure (skeleton_of (points skeleton.points void.now stress.now)) top_level.0 load.0 below burden solids water) }
    ensures effective_le_most { (result.effective ≤ stress_limits.most) × Within result.pore.0 most_pore }
{
    let found = element::effective_stress(solids, water, skeleton, void, stress, 0);
    let value = found.value;
    let effective = reading::value_of(value);
    let excess = element::excess_pressure(load, burden, effective);
    let pore = pore_pressure(excess, top_level, node_height(below, solids, water));
    Stresses { effective, pore }
}

// Stores an element's water, void ratio, effective stress, total stress and pore pressure.
pub fn write_element<'a>(
    out: &mut [u8],
    at: usize,
    load: Pressure,
    top_level: Head,
    below: u64,
    burden: u64,
    solids: u64,
    water: u64,
    skeleton: Skeleton,
    void: &'a [u64; 64],
    stress: &'a [u64; 64],
)
    requires at_in_bounds { at + 40 ≤ length out.old }
    requires below_le_most_height { (below ≤ most_height) × (within_ℤ level_limits top_level.0 ≡ true) }
    requires least_le_points { (curve_limits.least ≤ skeleton.points) × (skeleton.points ≤ curve_limits.most) }
    requires stress_value { compressibility_sound (points skeleton.points void.now stress.now) ≡ true }
    requires on_soil { OnSoil skeleton.points void.now stress.now load.0 burden solids water }
    ensures { out.new ≡ sets out.old at (element_bytes (skeleton_of (points skeleton.points void.now stress.now)) top_level.0 load.0 below burden solids water) }
{
    let read = element_stresses(
        load, top_level, below, burden, solids, water, skeleton, void, stress,
    );
    write_words(
        out,
        at,
        water,
        element::void_ratio(solids, water),
        read.effective,
        read.pore,
    );
}

// Stores all elements from byte 56 on.
pub fn write_elements<'a>(
    elements: usize,
    load: Pressure,
    top_level: Head,
    burden: &'a [u64; 128],
    solids: &'a [u64; 128],
    water: &'a [u64; 128],
    skeleton: Skeleton,
    void: &'a [u64; 64],
    stress: &'a [u64; 64],
    out: &mut [u8],
)
    requires elements_le_most { (elements ≤ element_limits.most) × (56 + 40 * elements ≤ length out.old) }
    requires top_level_value { within_ℤ level_limits top_level.0 ≡ true }
    requires least_le_points { (curve_limits.least ≤ skeleton.points) × (skeleton.points ≤ curve_limits.most) }
    requires stress_value { compressibility_sound (points skeleton.points void.now stress.now) ≡ true }
    requires by_index { (j : ℕ) → j < elements → OnSoil skeleton.points void.now stress.now load.0 (get_or burden.now j 0) (get_or solids.now j 0) (get_or water.now j 0) }
    ensures { out.new ≡ sets out.old 56 (elements_bytes (skeleton_of (points skeleton.points void.now stress.now)) top_level.0 load.0 0 (first_places elements burden.now) (first_places elements solids.now) (first_places elements water.now)) }
{
    let mut below: u64 = 0;
    for j in 0..elements {
        write_element(
            out,
            56 + 40 * j,
            load,
            top_level,
            below,
            burden[j],
            solids[j],
            water[j],
            skeleton,
            void,
            stress,
        );
        below += solids[j] + water[j];
    }
}
