// Records from the bytes of a file.
ghost use Rattle.std.specs.Prelude.{length, true, ◌≡◌, ℕ, ◌+◌, ◌*◌, ◌≤◌};
ghost use Rattle.numbers.specs.Bytes.{field, signed_number};
ghost use Rattle.rules.specs.Job.{firsts};
ghost use Rattle.transcript.specs.Input.{face_in, first_curve_at, second_curve_at, table_at, is_record, soil_in, frame_in, progress_in, layer_in, record_in};

use quantities::{Clock, Face, Head, Outflow, Pressure};
use rules::record::{CurveCounts, Frame, Layer, Progress, Record, Soil};

// The face that two fields say.
#[tactic(auto, using(encoding::proofs::Signed::back), unfolding(crate::specs::Input::face_in))]
fn face(kind: u64, held: u64) -> Face
    ensures { result ≡ face_in kind held }
{
    if kind == 0 {
        return Face::Closed;
    }
    Face::Drained(Pressure(encoding::signed_number(held)))
}

// A signed field of 8 bytes.
#[tactic(auto, using(encoding::proofs::Signed::back))]
fn signed_field(body: &[u8], offset: usize) -> i64
    requires { offset + 8 ≤ length body.now }
    ensures { result ≡ signed_number (field 8 offset body.now) }
{
    encoding::signed_number(encoding::field(body, 8, offset))
}

// The first fields of so many pairs that begin at an offset, in an array for the elements or for the points of a curve or a table. The
// second fields begin 8 bytes on.
#[tactic(auto, unfolding(rules::specs::Job::firsts, numbers::specs::Arrays::zeros))]
fn firsts<const N: usize>(body: &[u8], offset: usize, count: usize) -> [u64; N]
    requires { (count ≤ N) × (offset + 16 * count ≤ length body.now + 8) }
    ensures { result ≡ firsts N offset count body.now }
{
    let mut numbers = [0u64; N];
    encoding::read_column(body, 16, offset, count, &mut numbers);
    numbers
}

// Whether bytes give a record.
#[tactic(auto, unfolding(crate::specs::Input::is_record, crate::specs::Input::table_at, crate::specs::Input::second_curve_at, crate::specs::Input::first_curve_at))]
pub fn is_record(body: &[u8]) -> bool
    ensures { result ≡ is_record body.now }
{
    if body.len() < 160 {
        return false;
    }
    let elements = encoding::field(body, 8, 128);
    let stress = encoding::field(body, 8, 136);
    let conductivity = encoding::field(body, 8, 144);
    let table = encoding::field(body, 8, 152);
    if elements > 128 {
        return false;
    }
    if stress > 64 {
        return false;
    }
    if conductivity > 64 {
        return false;
    }
    if table > 64 {
        return false;
    }
    body.len() == (160 + 16 * elements + 16 * stress + 16 * conductivity + 16 * table) as usize
}

// Where the pairs of the compressibility curve begin.
#[tactic(auto, using(crate::proofs::Fitting::fitting), unfolding(crate::specs::Input::first_curve_at))]
fn first_curve_at(body: &[u8]) -> usize
    requires { is_record body.now ≡ true }
    ensures { result ≡ first_curve_at body.now }
{
    160 + 16 * encoding::field(body, 8, 128) as usize
}

// Where the pairs of the conductivity curve begin.
#[tactic(auto, using(crate::proofs::Fitting::fitting), unfolding(crate::specs::Input::second_curve_at))]
fn second_curve_at(body: &[u8]) -> usize
    requires { is_record body.now ≡ true }
    ensures { result ≡ second_curve_at body.now }
{
    first_curve_at(body) + 16 * encoding::field(body, 8, 136) as usize
}

// Where the pairs of the load table begin.
#[tactic(auto, using(crate::proofs::Fitting::fitting), unfolding(crate::specs::Input::table_at))]
fn table_at(body: &[u8]) -> usize
    requires { is_record body.now ≡ true }
    ensures { result ≡ table_at body.now }
{
    second_curve_at(body) + 16 * encoding::field(body, 8, 144) as usize
}

// The soil that bytes give.
#[tactic(auto, using(crate::proofs::Fitting::fitting))]
fn soil(body: &[u8]) -> Soil
    requires { is_record body.now ≡ true }
    ensures { result ≡ soil_in body.now }
{
    let first = encoding::field(body, 8, 136) as usize;
    let second = encoding::field(body, 8, 144) as usize;
    let first_at = first_curve_at(body);
    let second_at = second_curve_at(body);
    let compressibility_stress = firsts(body, first_at, first);
    let compressibility_void = firsts(body, first_at + 8, first);
    let conductivity_void = firsts(body, second_at, second);
    let conductivity = firsts(body, second_at + 8, second);
    let counts = CurveCounts {
        compressibility: encoding::field(body, 8, 8) as usize,
        conductivity: encoding::field(body, 8, 16) as usize,
    };
    Soil {
        counts,
        compressibility_void,
        compressibility_stress,
        conductivity_void,
        conductivity,
    }
}

// The numbers of a layer that no call changes, as bytes give them.
#[tactic(auto, using(encoding::proofs::Signed::back), unfolding(crate::specs::Input::frame_in))]
fn frame(body: &[u8]) -> Frame
    requires { 160 ≤ length body.now }
    ensures { result ≡ frame_in body.now }
{
    let top = face(encoding::field(body, 8, 40), encoding::field(body, 8, 48));
    let bottom = face(encoding::field(body, 8, 56), encoding::field(body, 8, 64));
    Frame {
        top,
        bottom,
        elements: encoding::field(body, 8, 0) as usize,
        table_points: encoding::field(body, 8, 24) as usize,
        gravity: encoding::field(body, 8, 32),
        top_level: Head(signed_field(body, 72)),
        bottom_level: Head(signed_field(body, 80)),
        starting_water: encoding::field(body, 8, 120),
    }
}

// The numbers of a layer that calls change, as bytes give them.
#[tactic(auto, using(encoding::proofs::Signed::back), unfolding(crate::specs::Input::progress_in))]
fn progress(body: &[u8]) -> Progress
    requires { 160 ≤ length body.now }
    ensures { result ≡ progress_in body.now }
{
    Progress {
        load: Pressure(signed_field(body, 88)),
        clock: Clock(encoding::field(body, 8, 96)),
        top_outflow: Outflow(signed_field(body, 104)),
        bottom_outflow: Outflow(signed_field(body, 112)),
    }
}

// The layer that bytes give.
#[tactic(auto, using(crate::proofs::Fitting::fitting))]
fn layer(body: &[u8]) -> Layer
    requires { is_record body.now ≡ true }
    ensures { result ≡ layer_in body.now }
{
    let elements = encoding::field(body, 8, 128) as usize;
    let points = encoding::field(body, 8, 152) as usize;
    let at = table_at(body);
    let solids = firsts(body, 160, elements);
    let water = firsts(body, 168, elements);
    let table_time = firsts(body, at, points);
    let table_load = firsts(body, at + 8, points);
    Layer {
        frame: frame(body),
        progress: progress(body),
        solids,
        water,
        table_time,
        table_load,
    }
}

// The record that bytes give.
pub fn record(body: &[u8]) -> Record
    requires { is_record body.now ≡ true }
    ensures { result ≡ record_in body.now }
{
    Record {
        soil: soil(body),
        layer: layer(body),
    }
}
