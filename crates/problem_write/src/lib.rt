// Writes a problem as the record program's input: its records in one order, entries left out whose bits are those of a
// missing one. The numbers are bits, so that a NaN's payload is written as it is.
#![tactic(auto)]

pub mod bits;
pub mod count;

ghost use Rattle.std.specs.Prelude.{◌≡◌, ◌+◌, ◌*◌, ◌≤◌, ◌<◌, length};
ghost use Rattle.endian.specs.Little.{placed};
ghost use Rattle.problem_write.specs.File.{record_of, missing, entry_of, row_length, entries_of, constraint_records, records_of};
ghost use Rattle.problem_write.specs.Lent.{constraint_in, problem_in};
ghost use Rattle.problem_write.specs.inner.Shared.{lent_in};
ghost use Rattle.problem_write.specs.inner.Work.{Room, Wrote, row_entries, all_constraints, Table};

use bits::ProblemBits;

// The bytes of a record.
pub const RECORD: usize = 16;

// The bits of 1, of -infinity and of +infinity.
const ONE: u64 = 0x3ff0_0000_0000_0000;

const LOW: u64 = 0xfff0_0000_0000_0000;

const HIGH: u64 = 0x7ff0_0000_0000_0000;

// The bits of a missing entry.
fn missing_bits(tag: u8, row: usize, column: usize) -> u64
    ensures { result ≡ missing tag row column }
{
    if tag == b'L' {
        if row == column {
            return ONE;
        }
        return 0;
    }
    if tag == b'B' {
        return LOW;
    }
    if tag == b'T' {
        return HIGH;
    }
    0
}

// How many entries of a row there are: the factor's end at the diagonal.
fn row_length(tag: u8, row: usize, columns: usize) -> usize
    requires { row ≤ 16 }
    ensures { result ≡ row_length tag row columns }
{
    if tag == b'L' { row + 1 } else { columns }
}

// One record at a place.
fn write_record(out: &mut [u8], at: usize, tag: u8, row: usize, column: usize, bits: u64)
    requires { (at + 16 ≤ length out.old) × (row ≤ 16) × (column ≤ 16) }
    ensures { out.new ≡ placed at (record_of tag row column bits) out.old }
{
    out[at] = tag;
    out[at + 1] = 0;
    endian::write_u16(out, at + 2, row as u16);
    endian::write_u16(out, at + 4, column as u16);
    endian::write_u16(out, at + 6, 0);
    endian::write_u64(out, at + 8, bits);
}

// An entry, unless it is missing, and the place after it.
fn write_entry(out: &mut [u8], at: usize, tag: u8, row: usize, column: usize, bits: u64) -> usize
    requires { Room at (entry_of tag row column bits) out.old × (row ≤ 16) × (column ≤ 16) }
    ensures { Wrote at (entry_of tag row column bits) result out.old out.new }
{
    if bits == missing_bits(tag, row, column) {
        return at;
    }
    write_record(out, at, tag, row, column, bits);
    at + RECORD
}

// The k entries of a row, which stand in xs from a place on.
fn write_row(
    out: &mut [u8],
    at: usize,
    tag: u8,
    row: usize,
    k: usize,
    xs: &[u64],
    from: usize,
) -> usize
    requires { Room at (row_entries tag row k from xs.now) out.old × (row ≤ 16) × (k ≤ 16) × (from + k ≤ length xs.now) }
    ensures { Wrote at (row_entries tag row k from xs.now) result out.old out.new }
{
    let mut to = at;
    for j in 0..k {
        to = write_entry(out, to, tag, row, j, xs[from + j]);
    }
    to
}

// The entries of a table, by row then column.
fn write_table(out: &mut [u8], at: usize, tag: u8, rows: usize, columns: usize, xs: &[u64]) -> usize
    requires { Room at (entries_of tag rows columns xs.now) out.old × Table tag rows columns xs.now }
    ensures { Wrote at (entries_of tag rows columns xs.now) result out.old out.new }
{
    let mut to = at;
    for i in 0..rows {
        let k = row_length(tag, i, columns);
        to = write_row(out, to, tag, i, k, xs, i * columns);
    }
    to
}

// A constraint by its kind: its value, and the width of a band directly after it.
fn write_constraint(out: &mut [u8], at: usize, i: usize, kind: u8, value: u64, width: u64) -> usize
    requires { Room at (constraint_records i (constraint_in kind value width)) out.old × (i ≤ 16) }
    ensures { Wrote at (constraint_records i (constraint_in kind value width)) result out.old out.new }
{
    if kind == 0 {
        write_record(out, at, b'E', i, 0, value);
        return at + RECORD;
    }
    if kind == 1 {
        write_record(out, at, b'I', i, 0, value);
        return at + RECORD;
    }
    write_record(out, at, b'I', i, 0, value);
    write_record(out, at + RECORD, b'W', i, 0, width);
    at + 2 * RECORD
}

// All constraints.
fn write_constraints(out: &mut [u8], at: usize, p: &ProblemBits) -> usize
    requires { Room at (all_constraints p.now.m p.now.kinds.now p.now.values.now p.now.widths.now) out.old }
    ensures { Wrote at (all_constraints p.now.m p.now.kinds.now p.now.values.now p.now.widths.now) result out.old out.new }
{
    let mut to = at;
    for i in 0..p.m {
        to = write_constraint(out, to, i, p.kinds[i], p.values[i], p.widths[i]);
    }
    to
}

// The whole file in the first bytes of the output, and its length.
pub fn write_file(p: &ProblemBits, out: &mut [u8]) -> usize
    requires { Room 0 (records_of (problem_in (lent_in p.now))) out.old }
    ensures { Wrote 0 (records_of (problem_in (lent_in p.now))) result out.old out.new }
{
    write_record(out, 0, b'D', p.m, p.n, 0);
    let a = write_table(out, RECORD, b'L', p.n, p.n, p.factor);
    let b = write_table(out, a, b'G', 1, p.n, p.gradient);
    let c = write_constraints(out, b, p);
    let d = write_table(out, c, b'A', p.m, p.n, p.jacobian);
    let e = write_table(out, d, b'B', 1, p.n, p.lower);
    write_table(out, e, b'T', 1, p.n, p.upper)
}
