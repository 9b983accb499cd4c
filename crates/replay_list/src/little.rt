// Numbers among the bytes of a list, as words.
ghost use Rattle.std.specs.Prelude.{◌+◌, ◌≤◌, ◌<◌, length};

// The number of two bytes.
pub fn short(bytes: &[u8], at: usize) -> u64
    requires { at + 2 ≤ length bytes.now }
    ensures { result < 65536 }
{
    u64::from(endian::read_u16(bytes, at))
}

// The number of eight bytes.
pub fn word(bytes: &[u8], at: usize) -> u64
    requires { at + 8 ≤ length bytes.now }
{
    endian::read_u64(bytes, at)
}
