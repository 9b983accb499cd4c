// How many records the file of a problem has: known before any is written.
ghost use Rattle.std.specs.Prelude.{◌≡◌, ◌+◌, ◌*◌, ◌≤◌, length};
ghost use Rattle.problem_write.specs.File.{entry_of, entries_of, records_of};
ghost use Rattle.problem_write.specs.Lent.{problem_in};
ghost use Rattle.problem_write.specs.inner.Shared.{lent_in};
ghost use Rattle.problem_write.specs.inner.Work.{row_entries, records_of_kind, records_of_kinds, Table};

use crate::bits::ProblemBits;

// Of an entry: none where it is missing.
fn count_entry(tag: u8, row: usize, column: usize, bits: u64) -> usize
    ensures { result ≡ length (entry_of tag row column bits) }
{
    if bits == crate::missing_bits(tag, row, column) {
        0
    } else {
        1
    }
}

// Of the k entries of a row, which stand in xs from a place on.
fn count_row(tag: u8, row: usize, k: usize, xs: &[u64], from: usize) -> usize
    requires { (k ≤ 16) × (from + k ≤ length xs.now) }
    ensures { result ≡ length (row_entries tag row k from xs.now) }
{
    let mut total = 0;
    for j in 0..k {
        total += count_entry(tag, row, j, xs[from + j]);
    }
    total
}

// Of a table.
fn count_table(tag: u8, rows: usize, columns: usize, xs: &[u64]) -> usize
    requires { Table tag rows columns xs.now }
    ensures { result ≡ length (entries_of tag rows columns xs.now) }
{
    let mut total = 0;
    for i in 0..rows {
        let k = crate::row_length(tag, i, columns);
        total += count_row(tag, i, k, xs, i * columns);
    }
    total
}

// Of a constraint by its kind.
fn count_constraint(kind: u8) -> usize
    ensures { result ≡ records_of_kind kind }
{
    if kind < 2 { 1 } else { 2 }
}

// Of the constraints of these kinds.
fn count_constraints(kinds: &[u8]) -> usize
    requires { length kinds.now ≤ 16 }
    ensures { result ≡ records_of_kinds (length kinds.now) kinds.now }
{
    let mut total = 0;
    for kind in kinds {
        total += count_constraint(*kind);
    }
    total
}

// Of the whole file.
pub fn count_records(p: &ProblemBits) -> usize
    ensures { result ≡ length (records_of (problem_in (lent_in p.now))) }
{
    let a = count_table(b'L', p.n, p.n, p.factor);
    let b = count_table(b'G', 1, p.n, p.gradient);
    let c = count_constraints(p.kinds);
    let d = count_table(b'A', p.m, p.n, p.jacobian);
    let e = count_table(b'B', 1, p.n, p.lower);
    let f = count_table(b'T', 1, p.n, p.upper);
    1 + a + b + c + d + e + f
}
