// Numbers of two, four and eight bytes at a place of a byte slice, little-endian: the lowest byte first. The bits of a
// float are such a number.
#![tactic(auto)]

ghost use Rattle.std.specs.Prelude.{◌≡◌, ◌+◌, ◌^◌, ◌≤◌, ◌<◌, length};
ghost use Rattle.endian.specs.Little.{bytes, number_at, placed};

// The number in k bytes from a place on: one loop for every width, where from_le_bytes would want each byte named in an array of the width.
fn read(s: &[u8], at: usize, k: usize) -> u64
    requires { (at + k ≤ length s.now) × (k ≤ 8) }
    ensures { (result ≡ number_at k at s.now) × (result < 256 ^ k) }
{
    let mut v: u64 = 0;
    for i in (0..k).rev() {
        v = u64::from(s[at + i]) + 256 * v;
    }
    v
}

// The number in two bytes from a place on.
pub fn read_u16(s: &[u8], at: usize) -> u16
    requires { at + 2 ≤ length s.now }
    ensures { result ≡ number_at 2 at s.now }
{
    read(s, at, 2) as u16
}

// The number in four bytes from a place on.
pub fn read_u32(s: &[u8], at: usize) -> u32
    requires { at + 4 ≤ length s.now }
    ensures { result ≡ number_at 4 at s.now }
{
    read(s, at, 4) as u32
}

// The number in eight bytes from a place on.
pub fn read_u64(s: &[u8], at: usize) -> u64
    requires { at + 8 ≤ length s.now }
    ensures { result ≡ number_at 8 at s.now }
{
    read(s, at, 8)
}

// Puts the k low bytes of x from a place on; the rest of the slice stays.
fn write(s: &mut [u8], at: usize, k: usize, x: u64)
    requires { at + k ≤ length s.old }
    ensures { s.new ≡ placed at (bytes k x) s.old }
{
    let mut rest = x;
    for i in 0..k {
        s[at + i] = (rest % 256) as u8;
        rest /= 256;
    }
}

// Puts x in two bytes from a place on; the rest of the slice stays.
pub fn write_u16(s: &mut [u8], at: usize, x: u16)
    requires { at + 2 ≤ length s.old }
    ensures { s.new ≡ placed at (bytes 2 x) s.old }
{
    write(s, at, 2, u64::from(x));
}

// Puts x in eight bytes from a place on; the rest of the slice stays.
pub fn write_u64(s: &mut [u8], at: usize, x: u64)
    requires { at + 8 ≤ length s.old }
    ensures { s.new ≡ placed at (bytes 8 x) s.old }
{
    write(s, at, 8, x);
}
