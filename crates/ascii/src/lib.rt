// Writes text at a place of a lent buffer, and answers the place after it; compares texts.
#![tactic(auto)]

ghost use Rattle.std.specs.Prelude.{◌≡◌, [], ◌∷◌, ◌+◌, ◌≤◌, ◌<◌, length, replicate};
ghost use Rattle.io.specs.Digits.{hex_digit_ascii, last_digits};
ghost use Rattle.ascii.specs.Text.{decimal_text, padded, same_text};
ghost use Rattle.ascii.specs.inner.Work.{Wrote};

// One byte.
pub fn put_byte(out: &mut [u8], at: usize, b: u8) -> usize
    requires { at < length out.old }
    ensures { Wrote out.old at (b ∷ []) out.new result }
{
    out[at] = b;
    at + 1
}

// The bytes of a slice.
pub fn put_text(out: &mut [u8], at: usize, text: &[u8]) -> usize
    requires { at + length text.now ≤ length out.old }
    ensures { Wrote out.old at text.now out.new result }
{
    let end = at + text.len();
    out[at..end].copy_from_slice(text);
    end
}

// A number in decimal: at most 20 digits.
pub fn put_decimal(out: &mut [u8], at: usize, k: u64) -> usize
    requires { at + 20 ≤ length out.old }
    ensures wrote { Wrote out.old at (decimal_text k) out.new result }
    ensures upper_bound { result ≤ at + 20 }
{
    let mut digits = [0u8; 20];
    let n = io::decimal(k, &mut digits);
    put_text(out, at, &digits[..n])
}

// A row of blanks.
pub fn put_blanks(out: &mut [u8], at: usize, n: usize) -> usize
    requires { at + n ≤ length out.old }
    ensures { Wrote out.old at (replicate n 32) out.new result }
{
    let end = at + n;
    out[at..end].fill(b' ');
    end
}

// The bytes of a slice, right-aligned in a width.
pub fn put_padded(out: &mut [u8], at: usize, width: usize, text: &[u8]) -> usize
    requires { (at + width ≤ length out.old) × (at + length text.now ≤ length out.old) }
    ensures { Wrote out.old at (padded width text.now) out.new result }
{
    let start = put_blanks(out, at, width.saturating_sub(text.len()));
    put_text(out, start, text)
}

// A number in decimal, right-aligned in a width.
pub fn put_whole(out: &mut [u8], at: usize, width: usize, k: u64) -> usize
    requires { (width ≤ 20) × (at + 20 ≤ length out.old) }
    ensures wrote { Wrote out.old at (padded width (decimal_text k)) out.new result }
    ensures upper_bound { result ≤ at + 20 }
{
    let mut digits = [0u8; 20];
    let n = io::decimal(k, &mut digits);
    put_padded(out, at, width, &digits[..n])
}

// The ASCII code of a digit.
fn digit(d: u64) -> u8
    requires { d < 10 }
    ensures { result ≡ hex_digit_ascii d }
{
    b'0' + d as u8
}

// The last three digits of a number, zeros among them.
pub fn put_three(out: &mut [u8], at: usize, n: u64) -> usize
    requires { at + 3 ≤ length out.old }
    ensures { Wrote out.old at (last_digits 10 3 n) out.new result }
{
    let a = put_byte(out, at, digit(n / 10 / 10 % 10));
    let b = put_byte(out, a, digit(n / 10 % 10));
    put_byte(out, b, digit(n % 10))
}

// The last six digits of a number, zeros among them.
pub fn put_six(out: &mut [u8], at: usize, n: u64) -> usize
    requires { at + 6 ≤ length out.old }
    ensures { Wrote out.old at (last_digits 10 6 n) out.new result }
{
    let a = put_three(out, at, n / 10 / 10 / 10);
    put_three(out, a, n)
}

// Whether two texts are the same.
pub fn is_same(a: &[u8], b: &[u8]) -> bool
    ensures { result ≡ same_text a.now b.now }
{
    a == b
}
