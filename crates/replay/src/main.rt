// Replays the stored calls that standard input holds, and writes a line for each: its operation, its number, and the
// digest of all that it left. The stored lines are the answers of the Rust.
#![tactic(auto)]

mod check;
mod day;
mod meters;
mod run;
mod runs;
mod steps;
mod volumes;

ghost use Rattle.std.specs.Prelude.{◌≡◌, length};

use crate::run::{STDOUT, run};
use replay_list::{Call, Operation, is_whole, values_of, word};

// The descriptor of standard input.
const STDIN: i32 = 0;

// Reads `bytes` full from standard input.
fn read(bytes: &mut [u8]) -> bool {
    io::read_full(STDIN, bytes) == bytes.len()
}

// The next word of the list, or 0 where it ends.
fn next_word() -> u64 {
    let mut bytes = [0u8; 8];
    if !read(&mut bytes) {
        return 0;
    }
    word(&bytes, 0)
}

fn write_space() {
    io::write_all(STDOUT, b" ");
}

fn end_line() {
    io::write_all(STDOUT, b"\n");
}

// Runs a call and writes its line.
fn replay(number: u64, operation: Operation, call: &Call) {
    io::print_decimal(STDOUT, number);
    write_space();
    let values = values_of(call);
    let digest = run(operation, call, &values);
    write_space();
    io::print_hex(STDOUT, digest, 16);
    end_line();
}

// Room for a call.
fn no_call() -> Call
    ensures { 12288 ≡ length result }
{
    [0; 12288]
}

// Reads a call of the operation with a number, in n bytes, and replays it, if it is one.
fn replay_next(number: u64, n: usize) -> bool {
    let mut call = no_call();
    let Ok(operation) = Operation::try_from(number) else {
        return false;
    };
    if 12288 < n {
        return false;
    }
    if !read(&mut call[..n]) {
        return false;
    }
    if !is_whole(&call, n) {
        return false;
    }
    replay(number, operation, &call);
    true
}

// Replays so many calls.
fn replay_calls(calls: u64) -> bool {
    for i in 0..calls {
        let head = next_word();
        if !replay_next(head % 65536, (head / 65536) as usize) {
            return false;
        }
    }
    true
}

// Whether the list has no byte left.
fn is_over() -> bool {
    let mut bytes = [0u8; 1];
    !read(&mut bytes)
}

// Replays the list, and says whether it was one.
fn replay_all() -> bool {
    if next_word() != 0x5453494c54495247 {
        return false;
    }
    if !replay_calls(next_word()) {
        return false;
    }
    is_over()
}

fn main() {
    if !replay_all() {
        io::write_all(STDOUT, b"the list is cut or faulty\n");
    }
}
