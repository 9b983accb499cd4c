// Writes floats and their lines at a place of a lent buffer, and answers the place after them.
ghost use Rattle.std.specs.Prelude.{◌≡◌, ◌+◌, ◌*◌, ◌≤◌, ◌<◌, length};
ghost use Rattle.problem_answer.specs.Text.{float_text, line_text, lines_text};
ghost use Rattle.ascii.specs.inner.Work.{Wrote};

use ascii::{put_byte, put_decimal, put_text};

// The 16 hexadecimal digits of a float's bits, or `nan`.
pub fn put_float(out: &mut [u8], at: usize, x: f64) -> usize
    requires { at + 16 ≤ length out.old }
    ensures wrote { Wrote out.old at (float_text x) out.new result }
    ensures upper_bound { result ≤ at + 16 }
{
    if x != x {
        return put_text(out, at, b"nan");
    }
    let mut digits = [0u8; 16];
    let n = io::hex(f64::to_bits(x), 16, &mut digits);
    put_text(out, at, &digits[..n])
}

// `TAG I H`, at most 40 bytes.
fn put_line(out: &mut [u8], at: usize, tag: u8, i: usize, x: f64) -> usize
    requires { at + 40 ≤ length out.old }
    ensures wrote { Wrote out.old at (line_text tag i x) out.new result }
    ensures upper_bound { result ≤ at + 40 }
{
    let a = put_byte(out, at, tag);
    let b = put_byte(out, a, b' ');
    let c = put_decimal(out, b, i as u64);
    let d = put_byte(out, c, b' ');
    let e = put_float(out, d, x);
    put_byte(out, e, b'\n')
}

// A line for each number.
pub fn put_lines(out: &mut [u8], at: usize, tag: u8, xs: &[f64]) -> usize
    requires { at + 40 * length xs.now ≤ length out.old }
    ensures wrote { Wrote out.old at (lines_text tag 0 xs.now) out.new result }
    ensures upper_bound { result ≤ at + 40 * length xs.now }
{
    let mut to = at;
    for (i, x) in xs.iter().enumerate() {
        to = put_line(out, to, tag, i, *x);
    }
    to
}
