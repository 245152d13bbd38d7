// The start of a description: its water, and whether the layer is steady where it has to be.
ghost use Rattle.std.specs.Prelude.{eqb, pos, length, get_or, true, not, ◌||◌, ◌≡◌, ℕ, ◌≤◌, ◌<◌};
ghost use Rattle.acceptance.specs.Accepting.{water_started};
ghost use Rattle.laws.specs.Most.{most_burden};
ghost use Rattle.numbers.specs.Arrays.{first_places, filled};
ghost use Rattle.numbers.specs.Lists.{all};
ghost use Rattle.rules.specs.Curve.{points, compressibility_sound};
ghost use Rattle.rules.specs.Layer.{skeleton_of};
ghost use Rattle.quantities.specs.Quantities.{stress_limits, solids_limits, water_limits, element_limits, curve_limits};
ghost use Rattle.rules.specs.Job.{counts_of, numbered_face};
ghost use Rattle.rules.specs.Record.{soil_of, layer_of, record_of, record_site, record_state, is_layer};
ghost use Rattle.rules.specs.Start.{rests_over, start_water};
ghost use Rattle.rules.specs.Steady.{steady};
ghost use Rattle.rules.specs.declared.record.Record.{Record};
ghost use Rattle.quantities.specs.declared.Pressure.{Pressure};
ghost use Rattle.start.specs.Rest.{all_or_none};
ghost use Rattle.weights.specs.Weights.{burden_at};

use crate::record;
use quantities::Start;
use rules::job::Header;
use rules::record::{Frame, Progress, Skeleton};

// Whether start 1 is for a header's bottom: one that is closed, or at the top's level.
pub fn rests_over(header: Header) -> bool
    ensures { (held : Pressure) → result ≡ rests_over (numbered_face header.bottom held) (pos header.top_level) (pos header.bottom_level) }
{
    header.bottom == 0 || header.bottom_level == header.top_level
}

// Sets the first numbers to 0.
pub fn clear(elements: usize, numbers: &mut [u64; 128])
    requires { (elements ≤ 128) × (length numbers.old ≡ 128) }
    ensures { numbers.new ≡ filled numbers.old elements (λ _. 0) }
{
    numbers[..elements].fill(0);
}

// Whether a start has water: then it is put in place of the water that is given, which otherwise stays.
pub fn start_water<'a>(
    start: u64,
    may_rest: bool,
    elements: usize,
    load: u64,
    burden: &'a [u64; 128],
    solids: &'a [u64; 128],
    skeleton: Skeleton,
    void: &'a [u64; 64],
    stress: &'a [u64; 64],
    water: &mut [u64; 128],
) -> bool
    requires elements_le_most { (elements ≤ element_limits.most) × (load ≤ stress_limits.most) }
    requires by_index { (j : ℕ) → j < elements → get_or burden.now j 0 ≤ most_burden }
    requires by_index_2 { (j : ℕ) → j < elements → (0 < get_or solids.now j 0) × (get_or solids.now j 0 ≤ solids_limits.most) × (get_or water.old j 0 ≤ water_limits.most) }
    requires least_le_points { (curve_limits.least ≤ skeleton.points) × (skeleton.points ≤ curve_limits.most) × (compressibility_sound (points skeleton.points void.now stress.now) ≡ true) }
    requires water_len { (length water.old ≡ 128) × ((not (eqb start 1) || all (λ w. eqb w 0) (first_places elements water.old)) ≡ true) }
    ensures load_value { start_water (skeleton_of (points skeleton.points void.now stress.now)) (first_places elements burden.now) (first_places elements solids.now) may_rest start (first_places elements water.old) load ≡ all_or_none result (first_places elements water.new) }
    ensures water_after { water.new ≡ water_started (start_water (skeleton_of (points skeleton.points void.now stress.now)) (first_places elements burden.now) (first_places elements solids.now) may_rest start (first_places elements water.old) load) water.old }
    ensures by_index_3 { (j : ℕ) → j < elements → get_or water.new j 0 ≤ water_limits.most }
{
    let rests = start == Start::REST;
    if !rests {
        return start::all_on_curve(elements, solids, water, skeleton, void, stress);
    }
    if !may_rest {
        return false;
    }
    if !start::resting_waters(
        elements, load, burden, solids, skeleton, void, stress, water,
    ) {
        clear(elements, water);
        return false;
    }
    true
}

// Whether a layer just opened is steady, where its start has to be.
pub fn start_steady<'a>(
    header: Header,
    frame: Frame,
    progress: Progress,
    void: &'a [u64; 64],
    stress: &'a [u64; 64],
    conductivity_void: &'a [u64; 64],
    conductivity: &'a [u64; 64],
    burden: &'a [u64; 128],
    solids: &'a [u64; 128],
    water: &'a [u64; 128],
    table_time: &'a [u64; 64],
    table_load: &'a [u64; 64],
) -> bool
    requires r_value { let r : Record = record_of (soil_of (counts_of header) void.now stress.now conductivity_void.now conductivity.now) (layer_of frame progress solids.now water.now table_time.now table_load.now) in is_layer r ≡ true }
    requires by_index { (j : ℕ) → j < frame.elements → get_or burden.now j 0 ≡ burden_at frame.gravity frame.elements solids.now j }
    ensures { let r : Record = record_of (soil_of (counts_of header) void.now stress.now conductivity_void.now conductivity.now) (layer_of frame progress solids.now water.now table_time.now table_load.now) in result ≡ (not (eqb header.start 2) || steady (record_site r) (record_state r)) }
{
    if header.start != Start::STEADY {
        return true;
    }
    steady_test::is_steady(
        record::curve_counts(header),
        frame,
        progress,
        void,
        stress,
        conductivity_void,
        conductivity,
        burden,
        solids,
        water,
        table_time,
        table_load,
    )
}
