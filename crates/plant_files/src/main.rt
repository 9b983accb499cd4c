// The program of the sheet from the loggers: KEPT and PLANT name files. The sheet goes to standard output; where there is none,
// why is told on standard error, in a line that begins with `refused`, and nothing goes to standard output. The first 524,289
// bytes of KEPT and 65,537 of PLANT decide (`EnoughBytes` of plant's specs/Claims.antt), so no more is read.
#![tactic(auto)]

ghost use Rattle.std.specs.Prelude.{◌≡◌, ◌≤◌, length};
ghost use Rattle.std.specs.Io.{ReadsAtMost};

use input::{argument, complain, has_argument, path, tell_error};
use std::fs::File;
use std::io;

// How many bytes of each file are read: one more than it may have.
const KEPT_READ: usize = 524289;

const PLANT_READ: usize = 65537;

// N zeros.
fn zeros<const N: usize>() -> [u8; N]
    ensures { N ≡ length result }
{
    [0; N]
}

// Zeros, for the name of a file.
fn name_room() -> [u8; 4096]
    ensures { 4096 ≡ length result }
{
    zeros()
}

// Zeros, for the kept records.
fn kept_room() -> [u8; KEPT_READ]
    ensures { 524289 ≡ length result }
{
    zeros()
}

// Zeros, for the plant file.
fn plant_room() -> [u8; PLANT_READ]
    ensures { 65537 ≡ length result }
{
    zeros()
}

// Zeros, for the records that the mending keeps.
fn mend_room() -> [u8; plant_sheet::BYTES]
    ensures { 524288 ≡ length result }
{
    zeros()
}

// Zeros, for what it tells of each.
fn reasons_room() -> [u8; plant_sheet::RECORDS]
    ensures { 32768 ≡ length result }
{
    zeros()
}

// Zeros, for the sheet.
fn sheet_room() -> [u8; plant_sheet::ROOM]
    ensures { 196864 ≡ length result }
{
    zeros()
}

// Opens a file to read it.
fn open_read(rt: &HostRuntime, name: &[u8]) -> io::Result<File> {
    File::open(rt, path(name)?)
}

// Reads a file, as far as there is room; what fails is told by its name.
fn read_file(rt: &HostRuntime, name: &[u8], buf: &mut [u8]) -> io::Result<usize>
    ensures { ReadsAtMost result buf.new }
{
    let got = match open_read(rt, name) {
        Ok(mut from) => input::fill(&mut from, buf),
        Err(e) => Err(e),
    };
    if let Err(e) = got {
        complain(rt, b"cannot read ", name, e);
    }
    got
}

// Writes the sheet, or why there is none.
fn tell(rt: &HostRuntime, kept: &[u8], plant: &[u8]) {
    let mut room = mend_room();
    let mut reasons = reasons_room();
    let mut out = sheet_room();
    match plant_sheet::write_sheet(kept, plant, &mut room, &mut reasons, &mut out) {
        Ok(n) => {
            if let Err(e) = Print::write_all(rt, &out[..n]) {
                complain(rt, b"cannot write ", b"standard output", e);
            }
        }
        Err(n) => tell_error(rt, &out[..n]),
    }
}

// Reads both files, and tells what they come to.
fn run(rt: &HostRuntime, kept_name: &[u8], plant_name: &[u8]) {
    let mut kept = kept_room();
    let mut plant = plant_room();
    let Ok(k) = read_file(rt, kept_name, &mut kept) else {
        return;
    };
    let Ok(p) = read_file(rt, plant_name, &mut plant) else {
        return;
    };
    tell(rt, &kept[..k], &plant[..p]);
}

fn main(rt: HostRuntime) {
    let mut kept = name_room();
    let mut plant = name_room();
    let k = argument(&rt, 1, &mut kept);
    let p = argument(&rt, 2, &mut plant);
    if has_argument(&rt, 3) || k == 0 || p == 0 {
        tell_error(&rt, b"usage: sheet KEPT PLANT\n");
        return;
    }
    run(&rt, &kept[..k], &plant[..p]);
}
