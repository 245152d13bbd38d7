// The flows of a layer.

#![tactic(auto)]

ghost use Rattle.std.specs.Prelude.{pos, neg_ℤ, length, get_or, ◌≡◌, ◌+◌, ◌≤◌, ◌<◌};
ghost use Rattle.element.specs.Elements.{Readable, flow_above, element_of};
ghost use Rattle.laws.specs.Faces.{HeldWithin};
ghost use Rattle.numbers.specs.Arrays.{filled};
ghost use Rattle.quantities.specs.Quantities.{step_limits, element_limits};
ghost use Rattle.rules.specs.Step.{outward};

use quantities::Face;

// The flows of t seconds up through the upper face of each element, in the first places.
pub fn flows_above<'a>(
    elements: usize,
    top: Face,
    t: u64,
    excess: &'a [i64; 128],
    resistance: &'a [u64; 128],
    above: &mut [i64; 128],
)
    requires elements_nonzero { (0 < elements) × (elements ≤ element_limits.most) }
    requires held_within { HeldWithin top }
    requires t_le_most { t ≤ step_limits.most }
    requires readable { Readable elements excess.now resistance.now }
    requires above_len { length above.old ≡ 128 }
    ensures { above.new ≡ filled above.old elements (flow_above top t elements excess.now resistance.now) }
{
    let last = elements - 1;
    for j in 0..last {
        let next = j + 1;
        above[j] = element::flow(
            excess[j] - excess[next],
            t,
            resistance[j] + resistance[next],
        );
    }
    above[last] = element::outward(top, excess[last], t, resistance[last]);
}

// The flows of t seconds: those above the elements in the first places, and that of the bottom.
pub fn all_flows<'a>(
    elements: usize,
    top: Face,
    bottom: Face,
    t: u64,
    excess: &'a [i64; 128],
    resistance: &'a [u64; 128],
    above: &mut [i64; 128],
) -> i64
    requires elements_nonzero { (0 < elements) × (elements ≤ element_limits.most) }
    requires held_within { HeldWithin top × HeldWithin bottom }
    requires t_le_most { t ≤ step_limits.most }
    requires readable { Readable elements excess.now resistance.now }
    requires above_len { length above.old ≡ 128 }
    ensures value { result ≡ neg_ℤ (outward bottom t (element_of (get_or excess.now 0 (pos 0)) (get_or resistance.now 0 0) 0)) }
    ensures above_after { above.new ≡ filled above.old elements (flow_above top t elements excess.now resistance.now) }
{
    flows_above(elements, top, t, excess, resistance, above);
    element::bottom_flow(bottom, excess[0], t, resistance[0])
}
