// Reading a curve, falling or rising.
ghost use Rattle.std.specs.Prelude.{◌≡◌, ℕ, ◌+◌, ◌≤◌, ◌<◌};
ghost use Rattle.curves.specs.Named.{ReadOn};
ghost use Rattle.curves.specs.Smooth.{Smooth};
ghost use Rattle.laws.specs.Segment.{OnSegment};
ghost use Rattle.numbers.specs.Interpolation.{distance};
ghost use Rattle.std.specs.Prelude.{Some};
ghost use Rattle.rules.specs.Curve.{point, points, spans, curve_at, segment_at, is_on, value_of};
ghost use Rattle.quantities.specs.Quantities.{stress_limits, void_limits, curve_limits};

// What a reading found, and the segment where it looked last: a hint for the next reading.
#[derive(Clone, Copy)]
pub struct Found {
    pub value: Option<u64>,
    pub segment: usize,
}

// Whether x lies on the segment between two abscissas, its ends included.
pub fn spans(x0: u64, x1: u64, x: u64) -> bool
    ensures { (y0 y1 : ℕ) → result ≡ spans (point x0 y0) (point x1 y1) x }
{
    if x0 < x1 {
        x0 <= x && x <= x1
    } else {
        x1 <= x && x <= x0
    }
}

// The ordinate at x on a segment that spans it.
pub fn interpolated(x0: u64, y0: u64, x1: u64, y1: u64, x: u64) -> u64
    requires x1_nonzero { (0 < distance x0 x1) × (distance x0 x ≤ void_limits.most) }
    requires y0_le_y1 { (y0 ≤ y1) × (y1 ≤ stress_limits.most) }
    requires x_bound { distance x0 x ≤ distance x0 x1 }
    ensures { OnSegment (point x0 y0) (point x1 y1) x result }
{
    y0 + numbers::share(y1 - y0, x0.abs_diff(x), x0.abs_diff(x1))
}

// What the curve gives at x, by the first segment that spans it.
pub fn read_from_first<'a>(count: usize, xs: &'a [u64; 64], ys: &'a [u64; 64], x: u64) -> Found
    requires least_le_count { (curve_limits.least ≤ count) × (count ≤ curve_limits.most) }
    requires smooth { Smooth count xs.now ys.now }
    ensures value_value { (result.value ≡ curve_at (points count xs.now ys.now) x) × (result.segment + 1 < count) }
    ensures read_on { ReadOn xs.now ys.now x result.segment result.value }
    ensures by_index { (y : ℕ) → result.value ≡ Some y → result.segment ≡ segment_at (points count xs.now ys.now) x }
{
    for i in 0..count - 1 {
        let x0 = xs[i];
        let x1 = xs[i + 1];
        if spans(x0, x1, x) {
            return Found {
                value: Some(interpolated(x0, ys[i], x1, ys[i + 1], x)),
                segment: i,
            };
        }
    }
    Found {
        value: None,
        segment: 0,
    }
}

// What the curve gives at x, whatever segment the hint names.
pub fn read<'a>(count: usize, xs: &'a [u64; 64], ys: &'a [u64; 64], x: u64, hint: usize) -> Found
    requires least_le_count { (curve_limits.least ≤ count) × (count ≤ curve_limits.most) }
    requires smooth { Smooth count xs.now ys.now }
    ensures value_value { (result.value ≡ curve_at (points count xs.now ys.now) x) × (result.segment + 1 < count) }
    ensures read_on { ReadOn xs.now ys.now x result.segment result.value }
{
    if hint < count - 1 {
        let x0 = xs[hint];
        let x1 = xs[hint + 1];
        if spans(x0, x1, x) {
            return Found {
                value: Some(interpolated(x0, ys[hint], x1, ys[hint + 1], x)),
                segment: hint,
            };
        }
    }
    read_from_first(count, xs, ys, x)
}

// The value on the curve, 0 off it.
pub fn value_of(value: Option<u64>) -> u64
    ensures { result ≡ value_of value }
{
    value.unwrap_or(0)
}

// Whether it is on the curve.
pub fn is_on(value: Option<u64>) -> bool
    ensures { result ≡ is_on value }
{
    value.is_some()
}
