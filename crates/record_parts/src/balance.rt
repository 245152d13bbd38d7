// The balance of water: what was there is what is left and what flowed out.
ghost use Rattle.std.specs.Prelude.{pos, ◌+ℤ◌, ◌-ℤ◌, get_or, ◌≡◌, ℕ, ◌≤◌, ◌<◌};
ghost use Rattle.numbers.specs.Arrays.{first_places};
ghost use Rattle.numbers.specs.Integers.{eq_ℤ};
ghost use Rattle.numbers.specs.Interval.{Within};
ghost use Rattle.numbers.specs.Sums.{sum};
ghost use Rattle.quantities.specs.Quantities.{water_limits, element_limits, starting_water_limits, most_outflow};

use quantities::Outflow;

// All water of the first elements.
pub fn total_water(elements: usize, water: &[u64; 128]) -> u64
    requires elements_le_most { elements ≤ element_limits.most }
    requires by_index { (j : ℕ) → j < elements → get_or water.now j 0 ≤ water_limits.most }
    ensures { (result ≡ sum (first_places elements water.now)) × (result ≤ starting_water_limits.most) }
{
    water[..elements].iter().sum()
}

// The water that is gone: the settlement, where solids stay.
pub fn settlement(starting: u64, left: u64) -> i64
    requires { (starting ≤ starting_water_limits.most) × (left ≤ starting_water_limits.most) }
    ensures { result ≡ pos starting -ℤ pos left }
{
    starting as i64 - left as i64
}

// Whether the water balances.
pub fn balances(starting: u64, left: u64, top_outflow: Outflow, bottom_outflow: Outflow) -> bool
    requires starting_le_most { (starting ≤ starting_water_limits.most) × (left ≤ starting_water_limits.most) }
    requires within { Within top_outflow.0 most_outflow }
    ensures { result ≡ eq_ℤ (pos starting) (pos left +ℤ top_outflow.0 +ℤ bottom_outflow.0) }
{
    settlement(starting, left) - top_outflow.0 == bottom_outflow.0
}
