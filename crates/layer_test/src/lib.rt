// Whether any record is a layer.

#![tactic(auto)]

ghost use Rattle.std.specs.Prelude.{true, ◌&&◌, ◌≡◌};
ghost use Rattle.quantities.specs.Quantities.{within, within_ℤ, stress_limits, clock_limits, starting_water_limits, outflow_within};
ghost use Rattle.rules.specs.Record.{site_sound, state_sound, is_layer};

use quantities::{Clock, Quantity, StartingWater};
use record_parts::balance;
use rules::record::{Progress, Record, Skeleton};

// Whether load, clock, outflows and starting water keep their limits.
pub fn progress_sound(progress: Progress, starting: u64) -> bool
    ensures { result ≡ (within_ℤ stress_limits progress.load.0 && within clock_limits progress.clock.0 && within starting_water_limits starting && outflow_within progress.top_outflow.0 progress.clock.0 && outflow_within progress.bottom_outflow.0 progress.clock.0) }
{
    let load = progress.load;
    let clock = progress.clock;
    let top = progress.top_outflow;
    let bottom = progress.bottom_outflow;
    if !load.is_stress() {
        return false;
    }
    let Some(now) = Clock::new(clock.0) else {
        return false;
    };
    StartingWater::within(starting) & top.within(now) & bottom.within(now)
}

// Whether the state of a record with a sound site is sound.
pub fn state_sound(r: Record) -> bool
    requires { site_sound r ≡ true }
    ensures { result ≡ state_sound r }
{
    let frame = r.layer.frame;
    let progress = r.layer.progress;
    let elements = frame.elements;
    let points = r.soil.counts.compressibility;
    let starting = frame.starting_water;
    let top_outflow = progress.top_outflow;
    let bottom_outflow = progress.bottom_outflow;
    if !start::all_on_curve(
        elements,
        &r.layer.solids,
        &r.layer.water,
        Skeleton { points },
        &r.soil.compressibility_void,
        &r.soil.compressibility_stress,
    ) {
        return false;
    }
    if !progress_sound(progress, starting) {
        return false;
    }
    balance::balances(
        starting,
        balance::total_water(elements, &r.layer.water),
        top_outflow,
        bottom_outflow,
    )
}

// Whether a record is a layer.
pub fn is_layer(r: Record) -> bool
    ensures { result ≡ is_layer r }
{
    if !site_test::site_sound(r) {
        return false;
    }
    state_sound(r)
}
