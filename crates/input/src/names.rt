// Files by the bytes of their names, and what is told where one cannot be used.
ghost use Rattle.std.specs.Prelude.{◌≤◌, length};

use std::env::{Env, FillError};
use std::io::{Error, ErrorKind};
use std::{io, str};

// A name as text. A file whose name is not UTF-8 cannot be used.
pub fn path(name: &[u8]) -> io::Result<&str> {
    match str::from_utf8(name) {
        Ok(text) => Ok(text),
        Err(_) => Err(Error::new(ErrorKind::InvalidFilename, "the name is not UTF-8")),
    }
}

// Writes to standard error. Where that cannot be written nothing more can be told.
pub fn tell_error(rt: &HostRuntime, text: &[u8]) {
    let _ = Print::write_all(&rt.stderr(), text);
}

// The words of an error without its number, which stands after those of the system's errors.
fn words(error: &str) -> &str {
    match error.split_once(" (os error ") {
        Some((words, _)) => words,
        None => error,
    }
}

// Tells what cannot be done with a file, and why.
pub fn complain(rt: &HostRuntime, what: &[u8], name: &[u8], why: Error) {
    tell_error(rt, what);
    tell_error(rt, name);
    tell_error(rt, b": ");
    let _ = match format!(in rt.alloc(); "{why}") {
        Ok(error) => rt.eprintln(words(error.as_str())),
        Err(_) => rt.eprintln(why),
    };
}

// An argument, and how long it is: 0 where it is missing, or longer than there is room.
pub fn argument(rt: &HostRuntime, i: usize, buf: &mut [u8]) -> usize
    ensures { result ≤ length buf.new }
{
    rt.arg(i, buf).unwrap_or(0)
}

// Whether there is an argument, however long.
pub fn has_argument(rt: &HostRuntime, i: usize) -> bool {
    let mut buf = [0u8; 1];
    !matches!(rt.arg(i, &mut buf), Err(FillError::NotPresent))
}
