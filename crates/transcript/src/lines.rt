// Answers, states and sites as text.
ghost use Rattle.std.specs.Prelude.{length, ◌≡◌, ℕ, ◌+◌, ◌*◌, ◌≤◌};
ghost use Rattle.text.specs.Text.{Put};
ghost use Rattle.transcript.specs.Lines.{answer_text, column_text, amounts_text, state_text, counts_text, face_text, levels_text, site_text};

use quantities::{Face, Head};
use rules::record::{CurveCounts, Frame, Progress, Record};

// Stores an answer's words at the start of a buffer as its call prints them, and gives their length.
pub fn put_answer(out: &mut [u8], kind: u64, number: u64, stop: u64, steps: u64) -> usize
    requires { 63 ≤ length out.old }
    ensures put { Put (answer_text kind number stop steps) out.old 0 out.new result }
    ensures upper_bound { result ≤ 63 }
{
    let next = text::put_number(out, 0, number);
    if number != 0 {
        return next;
    }
    if kind < 2 {
        return next;
    }
    let last = text::put_number(out, next, stop);
    text::put_number(out, last, steps)
}

// Stores a face, and gives the place after it.
fn put_face(out: &mut [u8], at: usize, face: Face) -> usize
    requires { at + 43 ≤ length out.old }
    ensures put { Put (face_text face) out.old at out.new result }
    ensures upper_bound { result ≤ at + 43 }
{
    match face {
        Face::Closed => {
            let next = text::put_number(out, at, 0);
            text::put_number(out, next, 0)
        }
        Face::Drained(held) => {
            let next = text::put_number(out, at, 1);
            text::put_signed_number(out, next, held.0)
        }
    }
}

// Stores the numbers of an array without the zeros at its end, and gives the place after them.
pub fn put_column(out: &mut [u8], at: usize, values: &[u64]) -> usize
    requires { at + 21 * length values.now ≤ length out.old }
    ensures put { Put (column_text values.now) out.old at out.new result }
    ensures upper_bound { result ≤ at + 21 * length values.now }
{
    text::put_row(out, at, values, text::used(values))
}

// Stores a load, a clock, both outflows and the starting water at the start of a buffer, and gives their length.
fn put_amounts(out: &mut [u8], of: Progress, start: u64) -> usize
    requires { 108 ≤ length out.old }
    ensures put { Put (amounts_text of start) out.old 0 out.new result }
    ensures upper_bound { result ≤ 108 }
{
    let load = of.load;
    let clock = of.clock;
    let top = of.top_outflow;
    let bottom = of.bottom_outflow;
    let a = text::put_signed_number(out, 0, load.0);
    let b = text::put_number(out, a, clock.0);
    let c = text::put_signed_number(out, b, top.0);
    let d = text::put_signed_number(out, c, bottom.0);
    text::put_number(out, d, start)
}

// Stores a record's state at the start of a buffer, and gives its length.
pub fn put_state(out: &mut [u8], of: Record) -> usize
    requires { 2_796 ≤ length out.old }
    ensures put { Put (state_text of) out.old 0 out.new result }
    ensures upper_bound { result ≤ 2_796 }
{
    let next = put_amounts(out, of.layer.progress, of.layer.frame.starting_water);
    put_column(out, next, &of.layer.water)
}

// Stores four counts and a gravity at the start of a buffer, and gives their length.
fn put_counts(out: &mut [u8], curves: CurveCounts, frame: Frame) -> usize
    requires { 105 ≤ length out.old }
    ensures put { Put (counts_text curves frame) out.old 0 out.new result }
    ensures upper_bound { result ≤ 105 }
{
    let a = text::put_number(out, 0, frame.elements as u64);
    let b = text::put_number(out, a, curves.compressibility as u64);
    let c = text::put_number(out, b, curves.conductivity as u64);
    let d = text::put_number(out, c, frame.table_points as u64);
    text::put_number(out, d, frame.gravity)
}

// Stores two levels, and gives the place after them.
fn put_levels(out: &mut [u8], at: usize, top: Head, bottom: Head) -> usize
    requires { at + 44 ≤ length out.old }
    ensures put { Put (levels_text top bottom) out.old at out.new result }
    ensures upper_bound { result ≤ at + 44 }
{
    let next = text::put_signed_number(out, at, top.0);
    text::put_signed_number(out, next, bottom.0)
}

// Stores a record's counts, gravity, faces and levels at the start of a buffer, and gives their length.
pub fn put_site(out: &mut [u8], of: Record) -> usize
    requires { 235 ≤ length out.old }
    ensures put { Put (site_text of) out.old 0 out.new result }
    ensures upper_bound { result ≤ 235 }
{
    let frame = of.layer.frame;
    let top = frame.top;
    let bottom = frame.bottom;
    let a = put_counts(out, of.soil.counts, frame);
    let b = put_face(out, a, top);
    let c = put_face(out, b, bottom);
    put_levels(out, c, frame.top_level, frame.bottom_level)
}
