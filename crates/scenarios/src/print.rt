// Lines on standard output.
ghost use Rattle.std.specs.Prelude.{length, ◌≤◌};

use rules::record::Record;
use std::io;
use transcript::lines;

// Writes a name, the first n bytes of a buffer and a line's end.
fn line(rt: &impl Print, name: &[u8], out: &[u8], n: usize) -> io::Result<()>
    requires { n ≤ length out.now }
{
    rt.write_all(name)?;
    rt.write_all(&out[..n])?;
    rt.write_all(b"\n")
}

// Writes the name of a call of a kind.
fn name(rt: &impl Print, kind: u64) -> io::Result<()> {
    match kind {
        0 => rt.write_all(b"load"),
        1 => rt.write_all(b"step"),
        _ => rt.write_all(b"run"),
    }
}

// Writes the answer of a call of a kind, by its words.
pub fn answer(rt: &impl Print, kind: u64, number: u64, stop: u64, steps: u64) -> io::Result<()> {
    name(rt, kind)?;
    let mut out = [0u8; 64];
    let n = lines::put_answer(&mut out, kind, number, stop, steps);
    line(rt, b"", &out, n)
}

// Ends a line and writes the refusal number of a job.
pub fn opened(rt: &impl Print, refusal: u64) -> io::Result<()> {
    let mut out = [0u8; 32];
    let n = text::put_number(&mut out, 0, refusal);
    line(rt, b"\nopened", &out, n)
}

// Writes a record's state.
pub fn state(rt: &impl Print, of: Record) -> io::Result<()> {
    let mut out = [0u8; 4096];
    let n = lines::put_state(&mut out, of);
    line(rt, b"state", &out, n)
}

// Writes an array.
fn column(rt: &impl Print, name: &[u8], values: &[u64]) -> io::Result<()>
    requires { length values.now ≤ 128 }
{
    let mut out = [0u8; 4096];
    let n = lines::put_column(&mut out, 0, values);
    line(rt, name, &out, n)
}

// Writes what no call changes of a record.
pub fn site(rt: &impl Print, of: Record) -> io::Result<()> {
    let mut out = [0u8; 256];
    let n = lines::put_site(&mut out, of);
    line(rt, b"site", &out, n)?;
    column(rt, b"solids", &of.layer.solids)?;
    column(rt, b"stress", &of.soil.compressibility_stress)?;
    column(rt, b"void", &of.soil.compressibility_void)?;
    column(rt, b"conductivity_void", &of.soil.conductivity_void)?;
    column(rt, b"conductivity", &of.soil.conductivity)?;
    column(rt, b"time", &of.layer.table_time)?;
    column(rt, b"load_at", &of.layer.table_load)
}
