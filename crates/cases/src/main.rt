// Holds the compiled code to the cases worked by hand, and then answers a bundle of record files, each by its name.
//
// A bundle, on standard input: for each case the length of its name and the length of its file, two bytes each,
// little-endian, then the name and the file. `tools/records.py bundle examples/cases.txt` writes it.
#![tactic(auto)]

mod calls;
mod days;
mod lines;
mod meters;
mod searches;
mod table;
mod volumes;

ghost use Rattle.std.specs.Prelude.{◌≤◌, ◌<◌, ◌≡◌, length};

use crate::lines::STDOUT;

// The descriptor of standard input.
const STDIN: i32 = 0;

// 2,048 zeros, for what the record program writes.
fn output_room() -> [u8; 2048]
    ensures { 2048 ≡ length result }
{
    [0; 2048]
}

// The name of a case, and what the record program writes for its file.
fn answer(name: &[u8], file: &[u8]) {
    let mut out = output_room();
    let n = problem_answer::respond(file, &mut out);
    io::write_all(STDOUT, name);
    io::write_all(STDOUT, b":\n");
    io::write_all(STDOUT, &out[..n]);
}

// Answers the first case of a bundle, and gives the others; a case that is cut off is the last.
fn answer_first(bundle: &[u8]) -> &[u8]
    requires { 0 < length bundle.now }
    ensures { length result.now < length bundle.now }
{
    if bundle.len() < 4 {
        io::write_all(STDOUT, b"cut off\n");
        return &bundle[bundle.len()..];
    }
    let start = 4 + endian::read_u16(bundle, 0) as usize;
    let end = start + endian::read_u16(bundle, 2) as usize;
    if bundle.len() < end {
        io::write_all(STDOUT, b"cut off\n");
        return &bundle[bundle.len()..];
    }
    answer(&bundle[4..start], &bundle[start..end]);
    &bundle[end..]
}

// Answers every case of a bundle, in its order.
fn answer_all(bundle: &[u8]) {
    let mut rest = bundle;
    while !rest.is_empty() {
        rest = answer_first(rest);
    }
}

fn main() {
    table::tell_all();
    days::tell_days();
    meters::tell_plants();
    volumes::tell_volumes();
    searches::tell_searches();
    let mut input = io::large_buffer();
    let n = io::read_full(STDIN, &mut input);
    answer_all(&input[..n]);
}
