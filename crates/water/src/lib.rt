// The new water of a step, and the bounds in which an element is on the curve.

#![tactic(auto)]

ghost use Rattle.std.specs.Prelude.{ℤ, pos, ◌+ℤ◌, ◌-ℤ◌, length, get_or, ◌≤ℤ◌, ◌≡◌, ℕ, ◌+◌, ◌≤◌, ◌<◌};
ghost use Rattle.laws.specs.Most.{most_flow};
ghost use Rattle.water.specs.Water.{new_water, height_after, between, stays_at, Movable};
ghost use Rattle.numbers.specs.Arrays.{filled, every_index};
ghost use Rattle.numbers.specs.Interval.{Within};
ghost use Rattle.laws.specs.Bounds.{lowest_water, highest_water};
ghost use Rattle.quantities.specs.Quantities.{solids_limits, void_limits, water_limits, element_limits};

use quantities::Void;

// The water of an element less what leaves it and with what enters.
pub fn new_water(water: u64, leaves: i64, enters: i64) -> i64
    requires water_le_most { water ≤ water_limits.most }
    requires within { Within leaves most_flow × Within enters most_flow }
    ensures { result ≡ pos water -ℤ leaves +ℤ enters }
{
    water as i64 - leaves + enters
}

// The least water with which an element of so much solids reaches a void ratio.
#[tactic(auto, unfolding(laws::specs::Bounds::lowest_water))]
pub fn lowest_water(solids: u64, void: u64) -> u64
    requires { (solids ≤ solids_limits.most) × (void ≤ void_limits.most) }
    ensures { (result ≡ lowest_water solids void) × (result ≤ water_limits.most) }
{
    numbers::ceil(void * solids, Void::ONE)
}

// The most water with which it does not pass a void ratio.
#[tactic(auto, unfolding(laws::specs::Bounds::highest_water))]
pub fn highest_water(solids: u64, void: u64) -> u64
    requires solids_nonzero { (0 < solids) × (solids ≤ solids_limits.most) }
    requires void_le_most { void ≤ void_limits.most }
    ensures { (result ≡ highest_water solids void) × (result ≤ water_limits.most) }
{
    numbers::floor((void + 1) * solids - 1, Void::ONE)
}

// The bounds of the water of every element, on a curve from a least to a greatest void ratio.
#[tactic(auto, using(numbers::proofs::Filled::filled_zero, numbers::proofs::Filled::filled_suc))]
pub fn water_bounds<'a>(
    elements: usize,
    solids: &'a [u64; 128],
    least: u64,
    greatest: u64,
    low: &mut [u64; 128],
    high: &mut [u64; 128],
)
    requires elements_le_most { elements ≤ element_limits.most }
    requires by_index { (j : ℕ) → j < elements → (0 < get_or solids.now j 0) × (get_or solids.now j 0 ≤ solids_limits.most) }
    requires least_le_most { (least ≤ void_limits.most) × (greatest ≤ void_limits.most) }
    requires low_len { (length low.old ≡ 128) × (length high.old ≡ 128) }
    ensures low_after { low.new ≡ filled low.old elements (λ j. lowest_water (get_or solids.now j 0) least) }
    ensures high_after { high.new ≡ filled high.old elements (λ j. highest_water (get_or solids.now j 0) greatest) }
{
    for j in 0..elements {
        low[j] = lowest_water(solids[j], least);
        high[j] = highest_water(solids[j], greatest);
    }
}

// Whether a height lies between two bounds.
pub fn between(low: u64, high: u64, height: i64) -> bool
    requires { (low ≤ water_limits.most) × (high ≤ water_limits.most) }
    ensures { result ≡ between low high height }
{
    low as i64 <= height && height <= high as i64
}

// Whether the new water of every element would lie between its bounds.
pub fn stays_between<'a>(
    elements: usize,
    lowest: i64,
    above: &'a [i64; 128],
    water: &'a [u64; 128],
    low: &'a [u64; 128],
    high: &'a [u64; 128],
) -> bool
    requires elements_le_most { elements ≤ element_limits.most }
    requires movable { Movable elements lowest above.now water.now }
    requires by_index { (j : ℕ) → j < elements → (get_or low.now j 0 ≤ water_limits.most) × (get_or high.now j 0 ≤ water_limits.most) }
    ensures { result ≡ every_index elements (stays_at lowest above.now water.now low.now high.now) }
{
    let mut enters = lowest;
    for j in 0..elements {
        let leaves = above[j];
        if !between(low[j], high[j], new_water(water[j], leaves, enters)) {
            return false;
        }
        enters = leaves;
    }
    true
}

// Moves the water of every element, where no new height is negative.
pub fn move_water<'a>(elements: usize, lowest: i64, above: &'a [i64; 128], water: &mut [u64; 128])
    requires elements_le_most { elements ≤ element_limits.most }
    requires movable { Movable elements lowest above.now water.old }
    requires by_index { (j : ℕ) → j < elements → pos 0 ≤ℤ new_water lowest above.now water.old j }
    requires water_len { length water.old ≡ 128 }
    ensures { water.new ≡ filled water.old elements (height_after lowest above.now water.old) }
{
    let mut enters = lowest;
    for j in 0..elements {
        let leaves = above[j];
        water[j] = new_water(water[j], leaves, enters) as u64;
        enters = leaves;
    }
}
