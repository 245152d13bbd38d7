// A reading against the pore pressure of an element of a record.

#![tactic(auto)]

ghost use Rattle.std.specs.Prelude.{◌-ℤ◌, true, ◌≡◌};
ghost use Rattle.numbers.specs.Interval.{Within};
ghost use Rattle.quantities.specs.Quantities.{stress_limits, pressure as quantities·pressure};
ghost use Rattle.readings.specs.Conversion.{pressure_in, pressure_with};
ghost use Rattle.record_reading.specs.Comparison.{less_pore, against, compared, told_numbers, compared_numbers};
ghost use Rattle.result_elements.specs.Elements.{most_pore};
ghost use Rattle.rules.specs.Record.{is_layer};

use quantities::Pressure;
use quantities::quantity::Limits;
use readings::{Converted, Exact, Reading};
use rules::answers::Refusal;
use rules::record::Record;

// What a reading of an element gives: its exact value, the element's pore pressure and the reading less that; of a missing one the pore
// pressure alone.
#[derive(Clone, Copy)]
pub enum Compared {
    Difference(Exact, Pressure, Pressure),
    Missing(Pressure),
}

// A pressure less a pore pressure.
pub fn difference(pressure: Pressure, pore: Pressure) -> Pressure
    requires within { Within pressure.0 stress_limits.most }
    requires within_2 { Within pore.0 most_pore }
    ensures { result ≡ quantities·pressure (pressure.0 -ℤ pore.0) }
{
    Pressure(pressure.0 - pore.0)
}

// A reading in whole numbers against a pore pressure.
fn against(pore: Pressure, converted: Converted) -> Compared
    requires within { Within pore.0 most_pore }
    requires within_2 { Within (pressure_with converted) stress_limits.most }
    ensures { result ≡ less_pore pore.0 converted }
{
    match converted {
        Converted::Value(exact, pressure) => {
            Compared::Difference(exact, pore, difference(pressure, pore))
        }
        Converted::Missing => Compared::Missing(pore),
    }
}

// A converted reading against a pore pressure.
pub fn less(pore: Pressure, converted: Option<Converted>) -> Result<Compared, Refusal>
    requires within { Within pore.0 most_pore }
    requires within_2 { Within (pressure_in converted) stress_limits.most }
    ensures { result ≡ against pore.0 converted }
{
    match converted {
        Some(value) => Ok(against(pore, value)),
        None => Err(Refusal::ReadingOutside),
    }
}

// A reading of an element of a layer.
pub fn compare_layer(r: Record, element: u64, reading: Reading) -> Result<Compared, Refusal>
    requires { is_layer r ≡ true }
    ensures { result ≡ compared r element reading }
{
    let elements = r.layer.frame.elements;
    let limits = Limits {
        least: 1,
        most: elements as u64,
    };
    if !limits.contains(element) {
        return Err(Refusal::ElementOutside);
    }
    let pore = pore::element_pore(r, element as usize - 1);
    less(pore, readings::convert(reading))
}

// A reading of an element of any record.
pub fn compare(r: Record, element: u64, reading: Reading) -> Result<Compared, Refusal>
    ensures { result ≡ compared r element reading }
{
    if !layer_test::is_layer(r) {
        return Err(Refusal::NoLayer);
    }
    compare_layer(r, element, reading)
}

// An answer in numbers: the refusal's, or 0; 1 for a missing reading; exact value, pore pressure and difference as fields hold signed
// numbers, each 0 where there is none.
#[derive(Clone, Copy)]
pub struct Numbers {
    pub refusal: u64,
    pub missing: u64,
    pub exact: u64,
    pub pore: u64,
    pub difference: u64,
}

// Those of what a reading gives.
fn told_numbers(compared: Compared) -> Numbers
    ensures { result ≡ told_numbers compared }
{
    match compared {
        Compared::Difference(exact, pore, difference) => Numbers {
            refusal: 0,
            missing: 0,
            exact: encoding::signed_field(exact.0),
            pore: encoding::signed_field(pore.0),
            difference: encoding::signed_field(difference.0),
        },
        Compared::Missing(pore) => Numbers {
            refusal: 0,
            missing: 1,
            exact: 0,
            pore: encoding::signed_field(pore.0),
            difference: 0,
        },
    }
}

pub fn numbers_of(compared: Result<Compared, Refusal>) -> Numbers
    ensures { result ≡ compared_numbers compared }
{
    match compared {
        Ok(told) => told_numbers(told),
        Err(cause) => Numbers {
            refusal: answers::refusal_number(cause),
            missing: 0,
            exact: 0,
            pore: 0,
            difference: 0,
        },
    }
}
