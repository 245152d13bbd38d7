// Flows with what the division left: the long division of a step at every inner or drained face of a record. No step is taken.

#![tactic(auto)]

ghost use Rattle.std.specs.Prelude.{length, true, ◌≡◌, ◌≤◌};
ghost use Rattle.numbers.specs.Arrays.{overlaid};
ghost use Rattle.quantities.specs.Quantities.{step_limits};
ghost use Rattle.record_flows.specs.Dividing.{entry_count, dividing};
ghost use Rattle.record_flows.specs.Entries.{LongDivision};
ghost use Rattle.rules.specs.Division.{layer_faces, face_flows, face_remainders};
ghost use Rattle.rules.specs.Record.{record_site, record_state, is_layer};

use lent_step::reading;
use rules::answers::{Answer, Refusal};
use rules::record::Record;

// The flows and remainders of a layer, in the first places of two arrays, and how many there are.
pub fn divide_layer(r: Record, t: u64, flows: &mut [i64], remainders: &mut [i64]) -> usize
    requires r_value { is_layer r ≡ true }
    requires t_le_most { t ≤ step_limits.most }
    requires r_in_bounds { (entry_count r ≤ length flows.old) × (entry_count r ≤ length remainders.old) }
    ensures value { result ≡ length (layer_faces (record_site r) (record_state r)) }
    ensures flows_after { flows.new ≡ overlaid (face_flows (record_site r) (record_state r) t) flows.old }
    ensures remainders_after { remainders.new ≡ overlaid (face_remainders (record_site r) (record_state r) t) remainders.old }
{
    let frame = r.layer.frame;
    let mut excess = [0i64; 128];
    let mut resistance = [0u64; 128];
    reading::read_layer(
        r.soil.counts,
        frame,
        r.layer.progress.load,
        &r.soil.compressibility_void,
        &r.soil.compressibility_stress,
        &r.soil.conductivity_void,
        &r.soil.conductivity,
        &r.layer.solids,
        &r.layer.water,
        &mut excess,
        &mut resistance,
    );
    let top = frame.top;
    let bottom = frame.bottom;
    open_faces::divide_faces(
        frame.elements,
        top,
        bottom,
        t,
        &excess,
        &resistance,
        flows,
        remainders,
    )
}

// The flows and remainders of t seconds on any record, from the bottom up in the first places of two buffers, which have room for them
// where it is a layer; refused as that step is, and then both buffers are as they were.
pub fn divide_into(
    r: Record,
    t: u64,
    flows: &mut [i64],
    remainders: &mut [i64],
) -> Result<usize, Refusal>
    requires { (is_layer r ≡ true → entry_count r ≤ length flows.old) × (is_layer r ≡ true → entry_count r ≤ length remainders.old) }
    ensures value { result ≡ (dividing r t flows.old remainders.old).answer }
    ensures flows_after { flows.new ≡ (dividing r t flows.old remainders.old).flows }
    ensures remainders_after { remainders.new ≡ (dividing r t flows.old remainders.old).remainders }
    ensures long_division { LongDivision r t result flows.new remainders.new }
{
    let stepped = step::take_step(r, t);
    let answer = stepped.answer;
    match answer {
        Answer::Done => Ok(divide_layer(r, t, flows, remainders)),
        Answer::Ran(_, _) => Ok(0),
        Answer::Refused(cause) => Err(cause),
    }
}

// The same with two arrays, which have room for the entries of any layer. What it requires is what their type says.
pub fn divide(
    r: Record,
    t: u64,
    flows: &mut [i64; 129],
    remainders: &mut [i64; 129],
) -> Result<usize, Refusal>
    requires { (length flows.old ≡ 129) × (length remainders.old ≡ 129) }
    ensures value { result ≡ (dividing r t flows.old remainders.old).answer }
    ensures flows_after { flows.new ≡ (dividing r t flows.old remainders.old).flows }
    ensures remainders_after { remainders.new ≡ (dividing r t flows.old remainders.old).remainders }
    ensures long_division { LongDivision r t result flows.new remainders.new }
{
    divide_into(r, t, flows, remainders)
}
