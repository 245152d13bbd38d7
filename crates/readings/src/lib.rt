// A piezometer's reading, and its exact value in whole numbers.

#![tactic(auto)]

ghost use Rattle.std.specs.Float.{binary32};
ghost use Rattle.std.specs.Float.Ieee.{to_bits};
ghost use Rattle.std.specs.Prelude.{◌≡◌};
ghost use Rattle.readings.specs.Conversion.{of_pressure, of_column, conversion};

use quantities::{Head, Pressure};

// A pressure in kilopascals, a water column in metres, or missing.
#[derive(Clone, Copy)]
pub enum Reading {
    Pressure(f32),
    Column(f32),
    Missing,
}

// The exact value of a reading, cut toward zero: millipascals of a pressure, nanometres of a column.
#[derive(Clone, Copy)]
pub struct Exact(pub i64);

// A reading in whole numbers: its exact value and the pressure that it is; or missing.
#[derive(Clone, Copy)]
pub enum Converted {
    Value(Exact, Pressure),
    Missing,
}

// Millipascals in a kilopascal.
const KILOPASCAL: u64 = 1_000_000;

// Nanometres in a metre.
const METRE: u64 = 1_000_000_000;

// A pressure in kilopascals; none, if it is not finite or too great.
pub fn of_pressure(x: f32) -> Option<Converted>
    ensures { result ≡ of_pressure (to_bits binary32 x) }
{
    if !floats::at_most_2000(x) {
        return None;
    }
    let millipascals = floats::in_units(x, KILOPASCAL);
    Some(Converted::Value(Exact(millipascals), Pressure(millipascals)))
}

// A water column in metres. It becomes a pressure as every head does, so it is cut twice.
pub fn of_column(x: f32) -> Option<Converted>
    ensures { result ≡ of_column (to_bits binary32 x) }
{
    if !floats::at_most_200(x) {
        return None;
    }
    let nanometres = floats::in_units(x, METRE);
    Some(Converted::Value(Exact(nanometres), Head(nanometres).as_pressure()))
}

// Any reading; none, if it is not finite or too great.
pub fn convert(reading: Reading) -> Option<Converted>
    ensures { result ≡ conversion reading }
{
    match reading {
        Reading::Pressure(x) => of_pressure(x),
        Reading::Column(x) => of_column(x),
        Reading::Missing => Some(Converted::Missing),
    }
}
