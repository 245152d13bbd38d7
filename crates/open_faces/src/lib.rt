// The inner and drained faces of a layer, and the long division of a step at each: the flow, and what it leaves.

#![tactic(auto)]

ghost use Rattle.std.specs.Prelude.{length, get_or, ◌≡◌, ◌≤◌, ◌<◌};
ghost use Rattle.element.specs.Elements.{Readable, element_of};
ghost use Rattle.laws.specs.Divisions.{no_face};
ghost use Rattle.laws.specs.Faces.{HeldWithin};
ghost use Rattle.laws.specs.Most.{most_excess};
ghost use Rattle.numbers.specs.Arrays.{filled};
ghost use Rattle.numbers.specs.Interval.{Within};
ghost use Rattle.open_faces.specs.Faces.{face_count, face_in};
ghost use Rattle.quantities.specs.Quantities.{step_limits, element_limits};
ghost use Rattle.rules.specs.Division.{outer_faces, flow_at, remainder_at};

use quantities::Face;
use record_parts::faces;
use rules::faces::OpenFace;

// An outer face; none, with nothing over it, if it is closed.
pub fn outer_face(face: Face, excess: i64, resistance: u64) -> OpenFace
    requires held_within { HeldWithin face }
    requires within { Within excess most_excess }
    ensures { result ≡ get_or (outer_faces face (element_of excess resistance 0)) 0 no_face }
{
    match face {
        Face::Closed => OpenFace {
            difference: 0,
            resistance: 0,
        },
        Face::Drained(held) => OpenFace {
            difference: excess - held.0,
            resistance,
        },
    }
}

// How many inner and drained faces a layer has.
pub fn face_count(elements: usize, top: Face, bottom: Face) -> usize
    requires { (0 < elements) × (elements ≤ element_limits.most) }
    ensures { (result ≡ face_count elements top bottom) × (result ≤ 129) }
{
    elements - 1 + faces::face_number(top) as usize + faces::face_number(bottom) as usize
}

// Face k of those, from the bottom up.
pub fn face_at<'a>(
    elements: usize,
    top: Face,
    bottom: Face,
    excess: &'a [i64; 128],
    resistance: &'a [u64; 128],
    k: usize,
) -> OpenFace
    requires elements_nonzero { (0 < elements) × (elements ≤ element_limits.most) }
    requires held_within { HeldWithin top × HeldWithin bottom }
    requires readable { Readable elements excess.now resistance.now }
    requires k_bound { k < face_count elements top bottom }
    ensures { result ≡ face_in elements top bottom excess.now resistance.now k }
{
    let below = faces::face_number(bottom) as usize;
    if k < below {
        return outer_face(bottom, excess[0], resistance[0]);
    }
    let j = k - below;
    let next = j + 1;
    if next < elements {
        return OpenFace {
            difference: excess[j] - excess[next],
            resistance: resistance[j] + resistance[next],
        };
    }
    outer_face(top, excess[j], resistance[j])
}

// Divides at every face, from the bottom up: the flows of t seconds and what their divisions leave go to the first places.
pub fn divide_faces<'a>(
    elements: usize,
    top: Face,
    bottom: Face,
    t: u64,
    excess: &'a [i64; 128],
    resistance: &'a [u64; 128],
    flows: &mut [i64],
    remainders: &mut [i64],
) -> usize
    requires elements_nonzero { (0 < elements) × (elements ≤ element_limits.most) }
    requires held_within { HeldWithin top × HeldWithin bottom }
    requires t_le_most { t ≤ step_limits.most }
    requires readable { Readable elements excess.now resistance.now }
    requires bottom_in_bounds { (face_count elements top bottom ≤ length flows.old) × (face_count elements top bottom ≤ length remainders.old) }
    ensures value { result ≡ face_count elements top bottom }
    ensures flows_after { flows.new ≡ filled flows.old (face_count elements top bottom) (λ k. flow_at t (face_in elements top bottom excess.now resistance.now k)) }
    ensures remainders_after { remainders.new ≡ filled remainders.old (face_count elements top bottom) (λ k. remainder_at t (face_in elements top bottom excess.now resistance.now k)) }
{
    let count = face_count(elements, top, bottom);
    for k in 0..count {
        let face = face_at(elements, top, bottom, excess, resistance, k);
        flows[k] = element::flow(face.difference, t, face.resistance);
        remainders[k] = element::flow_remainder(face.difference, t, face.resistance);
    }
    count
}
