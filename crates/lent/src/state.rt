// A record with other water and other progress, a layer's progress under another load and after a step, and a call refused.
ghost use Rattle.std.specs.Prelude.{◌+ℤ◌, ◌-ℤ◌, ◌≡◌, ◌+◌, ◌<◌, ◌^◌};
ghost use Rattle.std.specs.Int.{w64};
ghost use Rattle.std.proofs.Common.{SFits};
ghost use Rattle.lent.specs.Progress.{loaded, later, refused_with};
ghost use Rattle.rules.specs.Record.{with_parts};

use layer_step::Flows;
use quantities::{Clock, Outflow, Pressure};
use rules::answers::{Answer, Answered, Refusal};
use rules::record::{Progress, Record};

// The record with other water and other progress.
pub fn with_parts(r: Record, water: [u64; 128], progress: Progress) -> Record
    ensures { result ≡ with_parts r water progress }
{
    let soil = r.soil;
    let mut layer = r.layer;
    layer.water = water;
    layer.progress = progress;
    Record { soil, layer }
}

// The progress with another load.
pub fn loaded(progress: Progress, load: Pressure) -> Progress
    ensures { result ≡ loaded progress load }
{
    let clock = progress.clock;
    let top_outflow = progress.top_outflow;
    let bottom_outflow = progress.bottom_outflow;
    Progress {
        load,
        clock,
        top_outflow,
        bottom_outflow,
    }
}

// The progress after a step of t seconds with these flows.
pub fn later(progress: Progress, t: u64, flows: Flows) -> Progress
    requires t_bound { progress.clock.0 + t < 2 ^ 64 }
    requires sfits { SFits w64 (progress.top_outflow.0 +ℤ flows.top) × SFits w64 (progress.bottom_outflow.0 -ℤ flows.bottom) }
    ensures { result ≡ later progress t flows.bottom flows.top }
{
    let load = progress.load;
    let clock = progress.clock;
    let top = progress.top_outflow;
    let bottom = progress.bottom_outflow;
    Progress {
        load,
        clock: Clock(clock.0 + t),
        top_outflow: Outflow(top.0 + flows.top),
        bottom_outflow: Outflow(bottom.0 - flows.bottom),
    }
}

// A refusal leaves the record as it was.
pub fn refused(r: Record, cause: Refusal) -> Answered
    ensures { result ≡ refused_with cause r }
{
    Answered {
        answer: Answer::Refused(cause),
        after: r,
    }
}
