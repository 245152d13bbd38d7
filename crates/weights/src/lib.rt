// The buoyant weights of a layer: constant while its solids are.

#![tactic(auto)]

ghost use Rattle.std.specs.Prelude.{length, get_or, ◌≡◌, ℕ, ◌+◌, ◌≤◌, ◌<◌};
ghost use Rattle.laws.specs.Most.{most_total_weight};
ghost use Rattle.weights.specs.Weights.{weight_from, burden_at};
ghost use Rattle.numbers.specs.Arrays.{filled};
ghost use Rattle.quantities.specs.Quantities.{solids_limits, gravity_limits, element_limits};

// The weight of all elements.
pub fn total_weight(elements: usize, gravity: u64, solids: &[u64; 128]) -> u64
    requires elements_le_most { elements ≤ element_limits.most }
    requires least_le_gravity { (gravity_limits.least ≤ gravity) × (gravity ≤ gravity_limits.most) }
    requires by_index { (j : ℕ) → j < elements → get_or solids.now j 0 ≤ solids_limits.most }
    ensures { (result ≡ weight_from gravity elements solids.now 0) × (result ≤ most_total_weight) }
{
    let mut total: u64 = 0;
    for j in 0..elements {
        total += element::buoyant_weight(gravity, solids[j]);
    }
    total
}

// B of every element, in the first places.
pub fn burdens<'a>(elements: usize, gravity: u64, solids: &'a [u64; 128], burden: &mut [u64; 128])
    requires elements_le_most { elements ≤ element_limits.most }
    requires least_le_gravity { (gravity_limits.least ≤ gravity) × (gravity ≤ gravity_limits.most) }
    requires by_index { (j : ℕ) → j < elements → get_or solids.now j 0 ≤ solids_limits.most }
    requires burden_len { length burden.old ≡ 128 }
    ensures { burden.new ≡ filled burden.old elements (burden_at gravity elements solids.now) }
{
    let mut over = total_weight(elements, gravity, solids);
    for j in 0..elements {
        let own = element::buoyant_weight(gravity, solids[j]);
        over -= own;
        burden[j] = over + own / 2;
    }
}
