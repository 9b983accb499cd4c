// Reads an input until a buffer is full or the input ends; a read that fails is not its end. Tells of files that cannot be used.
#![tactic(auto)]

mod names;

ghost use Rattle.std.specs.Prelude.{length, ◌≡◌};
ghost use Rattle.std.specs.Io.{ReadsAtMost};
ghost use Rattle.std.specs.Io.KnownBytes.{ReadConsumes};
ghost use Rattle.input.specs.Reading.{Takes, Ends};

pub use names::{argument, complain, has_argument, path, tell_error};
use std::io;
use std::io::ErrorKind;

// How often a read that a signal interrupts is tried again.
const TRIES: usize = 64;

// One read, tried again where a signal interrupts it.
fn read_some<R: io::Read>(reader: &mut R, buf: &mut [u8]) -> io::Result<usize>
    ensures bound { ReadsAtMost result buf.new }
    ensures bytes { ReadConsumes (R.remaining reader.old) (R.remaining reader.new) result buf.new }
{
    for _ in 0..TRIES {
        match reader.read(buf) {
            Err(e) if e.kind() == ErrorKind::Interrupted => {}
            got => return got,
        }
    }
    reader.read(buf)
}

// Reads until `buf` is full or the input ends, and answers how many bytes it read. A `while`: each read gives as many as it can.
pub fn fill<R: io::Read>(reader: &mut R, buf: &mut [u8]) -> io::Result<usize>
    ensures bound { ReadsAtMost result buf.new }
    ensures bytes { Takes (R.remaining reader.old) (R.remaining reader.new) result buf.new }
    ensures end { Ends (R.remaining reader.new) result buf.new }
{
    let mut done = 0;
    while done < buf.len() {
        match read_some(reader, &mut buf[done..])? {
            0 => return Ok(done),
            more => done += more,
        }
    }
    Ok(done)
}
