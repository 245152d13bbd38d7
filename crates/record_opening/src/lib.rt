// Opening a job's bytes to a record.

#![tactic(auto)]

ghost use Rattle.std.specs.Prelude.{◌≡◌};
ghost use Rattle.rules.specs.Opening.{opening, opening_numbers, refused_opening, blank_record};
ghost use Rattle.rules.specs.Outcome.{answer_numbers};
ghost use Rattle.rules.specs.Record.{record_of};
ghost use Rattle.rules.specs.declared.answers.Answer.TheVariants.{Done};

use acceptance::record;
use quantities::{Face, Head};
use rules::answers::{Answer, Answered, Refusal};
use rules::record::{CurveCounts, Frame, Layer, Record, Soil};

// A record that is no layer.
pub fn blank() -> Record
    ensures { result ≡ blank_record }
{
    let heights = [0; 128];
    let points = [0; 64];
    let frame = Frame {
        top: Face::Closed,
        bottom: Face::Closed,
        elements: 0,
        table_points: 0,
        gravity: 0,
        top_level: Head(0),
        bottom_level: Head(0),
        starting_water: 0,
    };
    let soil = Soil {
        counts: CurveCounts {
            compressibility: 0,
            conductivity: 0,
        },
        compressibility_void: points,
        compressibility_stress: points,
        conductivity_void: points,
        conductivity: points,
    };
    let layer = Layer {
        frame,
        progress: acceptance::record::opening_progress(0),
        solids: heights,
        water: heights,
        table_time: points,
        table_load: points,
    };
    Record { soil, layer }
}

// What stands where a job is refused.
pub fn refused(cause: Refusal) -> Answered
    ensures { result ≡ refused_opening cause }
{
    let answer = Answer::Refused(cause);
    let after = blank();
    Answered { answer, after }
}

// What stands where a job is accepted.
pub fn done(soil: Soil, layer: Layer) -> Answered
    ensures { result ≡ record { answer = Done; after = record_of soil layer } }
{
    Answered {
        answer: Answer::Done,
        after: Record { soil, layer },
    }
}

// Opens a job, whatever its bytes.
pub fn open(job: &[u8]) -> Answered
    ensures value { result ≡ opening job.now }
    ensures answer_value { answer_numbers result.answer ≡ opening_numbers job.now }
{
    let mut compressibility_void = [0; 64];
    let mut compressibility_stress = [0; 64];
    let mut conductivity_void = [0; 64];
    let mut conductivity = [0; 64];
    let mut solids = [0; 128];
    let mut water = [0; 128];
    let mut table_time = [0; 64];
    let mut table_load = [0; 64];
    let mut burden = [0; 128];
    let opened = opening::open_into(
        job,
        &mut compressibility_void,
        &mut compressibility_stress,
        &mut conductivity_void,
        &mut conductivity,
        &mut solids,
        &mut water,
        &mut table_time,
        &mut table_load,
        &mut burden,
    );
    match opened {
        Err(cause) => refused(cause),
        Ok(opened) => done(
            Soil {
                counts: record::curve_counts(opened.header),
                compressibility_void,
                compressibility_stress,
                conductivity_void,
                conductivity,
            },
            Layer {
                frame: opened.frame,
                progress: opened.progress,
                solids,
                water,
                table_time,
                table_load,
            },
        ),
    }
}
