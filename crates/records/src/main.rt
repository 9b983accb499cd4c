// The record program: standard input to standard output. The first 9,504 bytes decide the answer (`FirstBytesDecide` of
// problem_answer's specs/Claims.antt), so no more is read. A read or a write that fails is told on standard error.
#![tactic(auto)]

ghost use Rattle.std.specs.Prelude.{◌≡◌, length};

// 9,504 zeros, for the input.
fn input_room() -> [u8; 9504]
    ensures { 9504 ≡ length result }
{
    [0; 9504]
}

// 2,048 zeros, for the output.
fn output_room() -> [u8; 2048]
    ensures { 2048 ≡ length result }
{
    [0; 2048]
}

// Writes the answer to the input.
fn answer(rt: &(impl Print + Eprint), input: &[u8]) {
    let mut out = output_room();
    let n = problem_answer::respond(input, &mut out);
    if rt.write_all(&out[..n]).is_err() {
        let _ = rt.eprintln("gritstrut: standard output cannot be written");
    }
}

fn main(rt: HostRuntime) {
    let mut bytes = input_room();
    match input::fill(&mut rt.stdin(), &mut bytes) {
        Err(_) => {
            let _ = rt.eprintln("gritstrut: standard input cannot be read");
        }
        Ok(n) => answer(&rt, &bytes[..n]),
    }
}
