// The load table: its check, its load at a time, and its next time.

#![tactic(auto)]

ghost use Rattle.std.specs.Prelude.{ℤ, pos, ◌+ℤ◌, ◌-ℤ◌, ◌*ℤ◌, ◌≤ℤ◌, true, List, ◌≡◌, ℕ, ◌-◌, ◌≤◌, ◌<◌};
ghost use Rattle.numbers.specs.Interval.{Within};
ghost use Rattle.numbers.specs.Rounding.{cut};
ghost use Rattle.rules.specs.Curve.{points};
ghost use Rattle.rules.specs.Load.{table_sound, load_at, next_time};
ghost use Rattle.quantities.specs.Quantities.{stress_limits, clock_limits, table_limits, pressure};

use points::checks;
use points::checks::Trend;
use quantities::{Clock, Pressure};

// Whether the first time is 0, times strictly rise, and times and loads keep their limits.
#[tactic(auto, using(crate::proofs::Laws::begins_late, crate::proofs::Laws::begins_at_0, crate::proofs::Laws::begins_nowhere))]
pub fn table_sound<'a>(table_points: usize, time: &'a [u64; 64], load: &'a [u64; 64]) -> bool
    requires { table_points ≤ table_limits.most }
    ensures { result ≡ table_sound (points table_points time.now load.now) }
{
    if table_points > 0 && time[0] != 0 {
        return false;
    }
    checks::neighbours_follow(Trend::Later, table_points, time, load)
        && checks::points_within::<Clock, Pressure>(table_points, time, load)
}

// By how much a load changes to another.
pub fn load_change(load0: u64, load1: u64) -> i64
    requires { (load0 ≤ stress_limits.most) × (load1 ≤ stress_limits.most) }
    ensures { (result ≡ pos load1 -ℤ pos load0) × Within result stress_limits.most }
{
    load1 as i64 - load0 as i64
}

// The load at a time between two points, cut from the first: a stress within its limits.
pub fn load_between(time0: u64, load0: u64, time1: u64, load1: u64, clock: u64) -> Pressure
    requires time0_le_clock { (time0 ≤ clock) × ((clock < time1) × (time1 ≤ clock_limits.most)) }
    requires load0_le_most { (load0 ≤ stress_limits.most) × (load1 ≤ stress_limits.most) }
    ensures value { result ≡ pressure (pos load0 +ℤ cut ((pos load1 -ℤ pos load0) *ℤ pos (clock - time0)) (time1 - time0)) }
    ensures pos_bound { (pos 0 ≤ℤ result.0) × (result.0 ≤ℤ pos stress_limits.most) }
{
    let change = load_change(load0, load1);
    let passed = (clock - time0) as i64;
    let whole = (time1 - time0) as i64;
    Pressure(load0 as i64 + numbers::cut(change * passed, whole))
}

// The load of a sound table at a time: a stress within its limits.
#[tactic(auto, using(crate::proofs::Laws::load_here, crate::proofs::Laws::load_later))]
pub fn load_at<'a>(
    table_points: usize,
    time: &'a [u64; 64],
    load: &'a [u64; 64],
    clock: u64,
) -> Pressure
    requires least_le_table_points { (table_limits.least ≤ table_points) × (table_points ≤ table_limits.most) }
    requires load_value { table_sound (points table_points time.now load.now) ≡ true }
    ensures value { result ≡ pressure (load_at (points table_points time.now load.now) clock) }
    ensures pos_bound { (pos 0 ≤ℤ result.0) × (result.0 ≤ℤ pos stress_limits.most) }
{
    for i in 1..table_points {
        if clock < time[i] {
            return load_between(time[i - 1], load[i - 1], time[i], load[i], clock);
        }
    }
    Pressure(load[table_points - 1] as i64)
}

// The first table time after a time, or another time where there is none: the loads do not matter.
#[tactic(auto, using(crate::proofs::Laws::next_here, crate::proofs::Laws::next_later, crate::proofs::Laws::next_none))]
pub fn next_time(table_points: usize, time: &[u64; 64], clock: u64, otherwise: u64) -> u64
    requires { table_points ≤ table_limits.most }
    ensures { (load : List ℕ) → result ≡ next_time (points table_points time.now load) clock otherwise }
{
    for i in 0..table_points {
        let next = time[i];
        if clock < next {
            return next;
        }
    }
    otherwise
}
