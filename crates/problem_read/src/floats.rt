// Floats and their bits.
ghost use Rattle.std.specs.Prelude.{◌≡◌, true};
ghost use Rattle.std.specs.Float.{binary64};
ghost use Rattle.std.specs.Float.Ieee.{of_bits};

// A float by its bits. Every NaN pattern gives the one NaN.
pub fn value(bits: u64) -> f64
    ensures { result ≡ of_bits binary64 bits }
{
    let e = bits % 9223372036854775808 / 4503599627370496;
    let t = bits % 4503599627370496;
    if e == 2047 {
        if t != 0 {
            return 0.0 / 0.0;
        }
    }
    f64::from_bits(bits)
}

// Whether two floats have the same bits, or are both NaN.
pub fn is_same(x: f64, y: f64) -> bool
    ensures x_value { result ≡ true → x ≡ y }
    ensures value { x ≡ y → result ≡ true }
{
    if x != x {
        return y != y;
    }
    if y != y {
        return false;
    }
    f64::to_bits(x) == f64::to_bits(y)
}
