// The day's program: a sheet on standard input, its report on standard output. The first 65,537 bytes decide the report
// (`FirstBytesDecide` of day_report's specs/Claims.antt), so no more is read. A read or a write that fails is told on standard error.
#![tactic(auto)]

ghost use Rattle.std.specs.Prelude.{◌≡◌, length};

// 65,537 zeros, for the sheet.
fn sheet_room() -> [u8; 65537]
    ensures { 65537 ≡ length result }
{
    [0; 65537]
}

// 81,920 zeros, for the report and the sheet in it.
fn report_room() -> [u8; 81920]
    ensures { 81920 ≡ length result }
{
    [0; 81920]
}

// Writes the report on a sheet.
fn report(rt: &(impl Print + Eprint), sheet: &[u8]) {
    let mut out = report_room();
    let n = day_report::respond(sheet, &mut out);
    if rt.write_all(&out[..n]).is_err() {
        let _ = rt.eprintln("gritstrut: standard output cannot be written");
    }
}

fn main(rt: HostRuntime) {
    let mut bytes = sheet_room();
    match input::fill(&mut rt.stdin(), &mut bytes) {
        Err(_) => {
            let _ = rt.eprintln("gritstrut: standard input cannot be read");
        }
        Ok(n) => report(&rt, &bytes[..n]),
    }
}
