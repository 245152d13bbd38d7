// The checks of a curve's or a table's points, on any numbers at all.
ghost use Rattle.std.specs.Prelude.{true, List, ◌≡◌, ℕ, ◌+◌, ◌≤◌, ◌<◌};
ghost use Rattle.points.specs.Checks.{point_within, follows};
ghost use Rattle.numbers.specs.Lists.{all, neighbours};
ghost use Rattle.rules.specs.Curve.{point, points, rising, covers, compressibility_sound, conductivity_sound};
ghost use Rattle.quantities.specs.Quantities.{curve_limits};

use quantities::quantity::Limits;
use quantities::{Conductivity, Pressure, Quantity, Void};

// How points follow one another: on the compressibility curve, on the conductivity curve, in the load table.
#[derive(Clone, Copy)]
pub enum Trend {
    Falls,
    Rises,
    Later,
}

// Whether a point's abscissa and ordinate keep the limits of their kinds, X and Y.
pub fn point_within<X: Quantity, Y: Quantity>(x: u64, y: u64) -> bool
    ensures { result ≡ point_within X.LIMITS Y.LIMITS (point x y) }
{
    X::within(x) && Y::within(y)
}

// Whether two points follow one another so.
#[tactic(auto, unfolding(crate::specs::Checks::follows))]
pub fn follows(trend: Trend, x0: u64, y0: u64, x1: u64, y1: u64) -> bool
    ensures { result ≡ follows trend (point x0 y0) (point x1 y1) }
{
    match trend {
        Trend::Falls => y0 < y1 && x1 < x0,
        Trend::Rises => x0 < x1 && y0 <= y1,
        Trend::Later => x0 < x1,
    }
}

// Whether every point keeps the limits of its kinds, X and Y.
#[tactic(auto, using(rules::proofs::Points::all_step, rules::proofs::Points::all_end))]
pub fn points_within<'a, X: Quantity, Y: Quantity>(
    count: usize,
    xs: &'a [u64; 64],
    ys: &'a [u64; 64],
) -> bool
    requires { count ≤ 64 }
    ensures { result ≡ all (point_within X.LIMITS Y.LIMITS) (points count xs.now ys.now) }
{
    for i in 0..count {
        if !point_within::<X, Y>(xs[i], ys[i]) {
            return false;
        }
    }
    true
}

// Whether every two neighbours follow one another so.
#[tactic(auto, using(rules::proofs::Points::neighbours_step, rules::proofs::Points::neighbours_end))]
pub fn neighbours_follow<'a>(
    trend: Trend,
    count: usize,
    xs: &'a [u64; 64],
    ys: &'a [u64; 64],
) -> bool
    requires { count ≤ 64 }
    ensures { result ≡ neighbours (follows trend) (points count xs.now ys.now) }
{
    for i in 1..count {
        if !follows(trend, xs[i - 1], ys[i - 1], xs[i], ys[i]) {
            return false;
        }
    }
    true
}

// Cause 6: whether the compressibility curve is sound.
#[tactic(auto, unfolding(crate::specs::Checks::follows, rules::specs::Curve::compressibility_sound, rules::specs::Curve::falling))]
pub fn compressibility_sound<'a>(count: usize, void: &'a [u64; 64], stress: &'a [u64; 64]) -> bool
    requires { count ≤ curve_limits.most }
    ensures { result ≡ compressibility_sound (points count void.now stress.now) }
{
    points_within::<Void, Pressure>(count, void, stress)
        && neighbours_follow(Trend::Falls, count, void, stress)
}

// Whether every void ratio of the first curve's points lies on the second, a rising one.
#[tactic(auto, using(rules::proofs::Points::all_step, rules::proofs::Points::all_end, crate::proofs::Covers::between_ends), unfolding(rules::specs::Curve::covers))]
pub fn covers<'a>(
    count: usize,
    void: &'a [u64; 64],
    conductivity: &'a [u64; 64],
    first_count: usize,
    first_void: &'a [u64; 64],
) -> bool
    requires least_le_count { (curve_limits.least ≤ count) × (count ≤ curve_limits.most) }
    requires first_count_le_most { first_count ≤ curve_limits.most }
    requires conductivity_value { rising (points count void.now conductivity.now) ≡ true }
    ensures { (stress : List ℕ) → result ≡ covers (points count void.now conductivity.now) (points first_count first_void.now stress) }
{
    let last = count - 1;
    let ends = Limits {
        least: void[0],
        most: void[last],
    };
    for i in 0..first_count {
        if !ends.contains(first_void[i]) {
            return false;
        }
    }
    true
}

// Cause 7: whether the conductivity curve is sound and covers the first.
#[tactic(auto, unfolding(crate::specs::Checks::follows, rules::specs::Curve::conductivity_sound, rules::specs::Curve::rising))]
pub fn conductivity_sound<'a>(
    count: usize,
    void: &'a [u64; 64],
    conductivity: &'a [u64; 64],
    first_count: usize,
    first_void: &'a [u64; 64],
    first_stress: &'a [u64; 64],
) -> bool
    requires least_le_count { (curve_limits.least ≤ count) × (count ≤ curve_limits.most) }
    requires first_count_le_most { first_count ≤ curve_limits.most }
    ensures { result ≡ conductivity_sound (points count void.now conductivity.now) (points first_count first_void.now first_stress.now) }
{
    if !points_within::<Void, Conductivity>(count, void, conductivity) {
        return false;
    }
    if !neighbours_follow(Trend::Rises, count, void, conductivity) {
        return false;
    }
    covers(count, void, conductivity, first_count, first_void)
}
