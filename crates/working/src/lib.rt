// The working of a step as a grader writes it out: the long division at every face, and both curves as they are read for every element.

#![tactic(auto)]

ghost use Rattle.std.specs.Prelude.{length, true, [], ◌∷◌, ◌≡◌, ◌+◌, ◌*◌, ◌≤◌, ◌<◌};
ghost use Rattle.std.proofs.lemmas.List.Edits.{sets};
ghost use Rattle.curves.specs.Smooth.{Smooth};
ghost use Rattle.element.specs.Elements.{Readable};
ghost use Rattle.laws.specs.Faces.{HeldWithin};
ghost use Rattle.laws.specs.Most.{most_difference, most_face_resistance};
ghost use Rattle.layer.specs.Soil.{SoilSound};
ghost use Rattle.numbers.specs.Arrays.{overlaid};
ghost use Rattle.numbers.specs.Interpolation.{distance};
ghost use Rattle.numbers.specs.Interval.{Within};
ghost use Rattle.open_faces.specs.Faces.{face_count};
ghost use Rattle.quantities.specs.Quantities.{stress_limits, void_limits, water_limits, step_limits, element_limits, curve_limits};
ghost use Rattle.rules.specs.Curve.{point, points, curve_at, is_on, interpolated};
ghost use Rattle.rules.specs.Division.{layer_faces};
ghost use Rattle.rules.specs.Layer.{skeleton_of, effective_stress};
ghost use Rattle.rules.specs.Record.{compressibility_points, record_site, record_state, is_layer};
ghost use Rattle.working.specs.FacesIn.{faces_in};
ghost use Rattle.working.specs.Segments.{SegmentDivides, ReadingDivides};
ghost use Rattle.working.specs.Working.{face_words, curve_reading, element_words, faces_words, elements_words, words_between, working};

use curves::reading;
use lent_step::reading as layers;
use quantities::Face;
use rules::answers::{Answer, Refusal};
use rules::faces::OpenFace;
use rules::record::{Record, Soil};

// A curve as it is read: the segment, 1 the one between the first two points, the value there, and what its interpolation leaves.
#[derive(Clone, Copy)]
pub struct CurveReading {
    pub segment: u64,
    pub value: u64,
    pub remainder: u64,
}

// What the interpolation at x leaves on a segment.
pub fn interpolation_remainder(x0: u64, y0: u64, x1: u64, y1: u64, x: u64) -> u64
    requires x1_nonzero { (0 < distance x0 x1) × (distance x0 x ≤ void_limits.most) }
    requires y0_le_y1 { (y0 ≤ y1) × (y1 ≤ stress_limits.most) }
    ensures { SegmentDivides (point x0 y0) (point x1 y1) x (interpolated (point x0 y0) (point x1 y1) x) result }
{
    (y1 - y0) * x0.abs_diff(x) % x0.abs_diff(x1)
}

// Reads a curve at x, which is on it.
pub fn read_curve<'a>(count: usize, xs: &'a [u64; 64], ys: &'a [u64; 64], x: u64) -> CurveReading
    requires least_le_count { (curve_limits.least ≤ count) × (count ≤ curve_limits.most) }
    requires smooth { Smooth count xs.now ys.now }
    requires x_value { is_on (curve_at (points count xs.now ys.now) x) ≡ true }
    ensures value { result ≡ curve_reading (points count xs.now ys.now) x }
    ensures reading_divides { ReadingDivides xs.now ys.now x result }
{
    let found = reading::read_from_first(count, xs, ys, x);
    let value = found.value;
    let i = found.segment;
    CurveReading {
        segment: i as u64 + 1,
        value: reading::value_of(value),
        remainder: interpolation_remainder(xs[i], ys[i], xs[i + 1], ys[i + 1], x),
    }
}

// Stores three words from a place on.
pub fn put_three(a: u64, b: u64, c: u64, at: usize, out: &mut [u64])
    requires { at + 3 ≤ length out.old }
    ensures { out.new ≡ sets out.old at (a ∷ b ∷ c ∷ []) }
{
    out[at] = a;
    out[at + 1] = b;
    out[at + 2] = c;
}

// Stores the long division at a face: difference, R, flow, remainder.
pub fn put_face(face: OpenFace, t: u64, at: usize, out: &mut [u64])
    requires at_in_bounds { at + 4 ≤ length out.old }
    requires within { Within face.difference most_difference }
    requires t_le_most { t ≤ step_limits.most }
    requires resistance_nonzero { (0 < face.resistance) × (face.resistance ≤ most_face_resistance) }
    ensures { out.new ≡ sets out.old at (face_words t face) }
{
    let flow = element::flow(face.difference, t, face.resistance);
    let left = element::flow_remainder(face.difference, t, face.resistance);
    out[at] = encoding::signed_field(face.difference);
    out[at + 1] = face.resistance;
    out[at + 2] = encoding::signed_field(flow);
    out[at + 3] = encoding::signed_field(left);
}

// Stores the numbers of faces and of elements, and the words of every face from the bottom up.
pub fn put_faces<'a>(
    elements: usize,
    top: Face,
    bottom: Face,
    t: u64,
    excess: &'a [i64; 128],
    resistance: &'a [u64; 128],
    out: &mut [u64],
) -> usize
    requires elements_nonzero { (0 < elements) × (elements ≤ element_limits.most) }
    requires held_within { HeldWithin top × HeldWithin bottom }
    requires t_le_most { t ≤ step_limits.most }
    requires readable { Readable elements excess.now resistance.now }
    requires bottom_in_bounds { 2 + 4 * face_count elements top bottom ≤ length out.old }
    ensures value { result ≡ face_count elements top bottom }
    ensures out_after { out.new ≡ sets out.old 0 (faces_in t elements top bottom excess.now resistance.now) }
{
    let count = open_faces::face_count(elements, top, bottom);
    out[0] = count as u64;
    out[1] = elements as u64;
    for k in 0..count {
        let face = open_faces::face_at(elements, top, bottom, excess, resistance, k);
        put_face(face, t, 2 + 4 * k, out);
    }
    count
}

// The same for a layer.
pub fn put_layer_faces(r: Record, t: u64, out: &mut [u64]) -> usize
    requires r_value { is_layer r ≡ true }
    requires t_le_most { t ≤ step_limits.most }
    requires in_bounds { 1_670 ≤ length out.old }
    ensures value { (result ≡ length (layer_faces (record_site r) (record_state r))) × (result ≤ 129) }
    ensures out_after { out.new ≡ sets out.old 0 (length (layer_faces (record_site r) (record_state r)) ∷ r.layer.frame.elements ∷ faces_words r t) }
{
    let frame = r.layer.frame;
    let mut excess = [0i64; 128];
    let mut resistance = [0u64; 128];
    layers::read_layer(
        r.soil.counts,
        frame,
        r.layer.progress.load,
        &r.soil.compressibility_void,
        &r.soil.compressibility_stress,
        &r.soil.conductivity_void,
        &r.soil.conductivity,
        &r.layer.solids,
        &r.layer.water,
        &mut excess,
        &mut resistance,
    );
    let top = frame.top;
    let bottom = frame.bottom;
    put_faces(frame.elements, top, bottom, t, &excess, &resistance, out)
}

// Stores an element's water before and after the step, its void ratio, and both curves as they are read there.
pub fn put_element(soil: Soil, solids: u64, water: u64, after: u64, at: usize, out: &mut [u64])
    requires at_in_bounds { at + 9 ≤ length out.old }
    requires soil_sound { SoilSound soil.counts.compressibility soil.compressibility_void soil.compressibility_stress soil.counts.conductivity soil.conductivity_void soil.conductivity }
    requires solids_nonzero { (0 < solids) × (water ≤ water_limits.most) }
    requires water_value { is_on (effective_stress (skeleton_of (compressibility_points soil)) solids water) ≡ true }
    ensures { out.new ≡ sets out.old at (element_words soil solids water after) }
{
    let ratio = element::void_ratio(solids, water);
    let stress = read_curve(
        soil.counts.compressibility,
        &soil.compressibility_void,
        &soil.compressibility_stress,
        ratio,
    );
    let conductivity = read_curve(
        soil.counts.conductivity,
        &soil.conductivity_void,
        &soil.conductivity,
        ratio,
    );
    put_three(water, after, ratio, at, out);
    put_three(stress.segment, stress.value, stress.remainder, at + 3, out);
    put_three(
        conductivity.segment,
        conductivity.value,
        conductivity.remainder,
        at + 6,
        out,
    );
}

// Stores the words of every element from a place on, the lowest first.
#[tactic(auto, using(lent::proofs::Standing::counted))]
pub fn put_elements(r: Record, after: Record, at: usize, out: &mut [u64])
    requires r_value { is_layer r ≡ true }
    requires elements_in_bounds { at + 9 * r.layer.frame.elements ≤ length out.old }
    ensures { out.new ≡ sets out.old at (elements_words r after) }
{
    let soil = r.soil;
    let elements = r.layer.frame.elements;
    let solids = r.layer.solids;
    let water = r.layer.water;
    let moved = after.layer.water;
    for j in 0..elements {
        put_element(soil, solids[j], water[j], moved[j], at + 9 * j, out);
    }
}

// The words of a layer and of its water after a step, in the first places, and how many there are.
pub fn put_words(r: Record, after: Record, t: u64, out: &mut [u64]) -> usize
    requires r_value { is_layer r ≡ true }
    requires t_le_most { t ≤ step_limits.most }
    requires in_bounds { 1_670 ≤ length out.old }
    ensures value { result ≡ length (words_between r after t) }
    ensures out_after { out.new ≡ overlaid (words_between r after t) out.old }
{
    let at = 2 + 4 * put_layer_faces(r, t, out);
    put_elements(r, after, at, out);
    at + 9 * r.layer.frame.elements
}

// The working of a step of t seconds on any record, in the first places; refused as that step is, and then all places are as they
// were. No record changes.
pub fn work_out(r: Record, t: u64, out: &mut [u64]) -> Result<usize, Refusal>
    requires { 1_670 ≤ length out.old }
    ensures value { result ≡ (working r t out.old).answer }
    ensures out_after { out.new ≡ (working r t out.old).words }
{
    let stepped = step::take_step(r, t);
    let answer = stepped.answer;
    match answer {
        Answer::Done => {
            let after = stepped.after;
            Ok(put_words(r, after, t, out))
        }
        Answer::Ran(_, _) => Ok(0),
        Answer::Refused(cause) => Err(cause),
    }
}
