// Decodes the record program's input into two tables, a mark and a value for each entry that a problem can have, on slices
// alone.
#![tactic(auto)]

mod floats;
pub mod tables;

ghost use Rattle.std.specs.Prelude.{◌≡◌, ◌+◌, ◌-◌, ◌*◌, ◌/◌, ◌≤◌, ◌<◌, length};
ghost use Rattle.problem_read.specs.Input.{spare_zero, all_below};
ghost use Rattle.problem_read.specs.Tables.{PLACES};
ghost use Rattle.problem_read.specs.inner.Spots.{area, area_of, spot_in, spot_of, tag_mark, default_at, no_marks, default_values, are_whole, whole_at};
ghost use Rattle.problem_read.specs.inner.Filling.{entry_of, put_at, entered, entered_by, head_of, sizes_of, walk_tables, filling, Fills};

pub use floats::{is_same, value};

// Where the areas of the tables start, after the factor's at 0, and how many places a table has.
const GRADIENT: usize = 256;

const VALUES: usize = GRADIENT + 16;

const JACOBIAN: usize = VALUES + 16;

const LOWER: usize = JACOBIAN + 256;

const UPPER: usize = LOWER + 16;

const WIDTHS: usize = UPPER + 16;

const PLACES: usize = WIDTHS + 16;

// An area of the tables: where it starts, and its shape.
#[derive(Clone, Copy, Debug, PartialEq, Eq)]
pub struct Area {
    pub base: usize,
    pub rows: usize,
    pub cols: usize,
}

// How many constraints and variables a problem has.
#[derive(Clone, Copy, Debug, PartialEq, Eq)]
pub struct Sizes {
    pub constraints: usize,
    pub variables: usize,
}

// Why there is no problem: a fault at a record, or sizes outside the table.
#[derive(Clone, Copy, Debug, PartialEq, Eq)]
pub enum Unread {
    Fault(usize),
    Large,
}

// Whether the spare bytes of a record are zero.
fn spare_zero(r: &[u8]) -> bool
    requires { length r.now ≡ 16 }
    ensures { result ≡ spare_zero r.now }
{
    if r[1] == 0 {
        if r[6] == 0 {
            return r[7] == 0;
        }
    }
    false
}

// An area by its parts.
fn make_area(base: usize, rows: usize, cols: usize) -> Area
    ensures { result ≡ area base rows cols }
{
    Area { base, rows, cols }
}

// The area that a tag names.
fn area_of(sizes: Sizes, tag: u8) -> Area
    ensures { result ≡ area_of sizes.constraints sizes.variables tag }
{
    let m = sizes.constraints;
    let n = sizes.variables;
    match tag {
        b'L' => make_area(0, n, n),
        b'G' => make_area(GRADIENT, 1, n),
        b'E' => make_area(VALUES, m, 1),
        b'I' => make_area(VALUES, m, 1),
        b'W' => make_area(WIDTHS, m, 1),
        b'A' => make_area(JACOBIAN, m, n),
        b'B' => make_area(LOWER, 1, n),
        b'T' => make_area(UPPER, 1, n),
        _ => make_area(0, 0, 0),
    }
}

// The mark of a place that a record with this tag gives.
fn mark(tag: u8) -> u8
    ensures { result ≡ tag_mark tag }
{
    if tag == b'I' { 2 } else { 1 }
}

// The place of (row, col) in an area that lies in the tables.
fn within(b: Area, row: usize, col: usize) -> Option<usize>
    requires { (b.base ≤ PLACES) × (b.rows ≤ 16) × (b.cols ≤ 16) }
    ensures { result ≡ spot_in b row col }
{
    let base = b.base;
    let cols = b.cols;
    if row < b.rows {
        if col < cols {
            return Some(base + (row * cols + col));
        }
    }
    None
}

// The place of (row, col) in the area of a tag: none above the factor's diagonal.
fn spot_of(sizes: Sizes, tag: u8, row: usize, col: usize) -> Option<usize>
    requires { (sizes.constraints ≤ 16) × (sizes.variables ≤ 16) }
    ensures { result ≡ spot_of sizes.constraints sizes.variables tag row col }
{
    if tag == b'L' {
        if row < col {
            return None;
        }
    }
    within(area_of(sizes, tag), row, col)
}

// Puts an entry at a place, unless the place is marked.
fn put(p: usize, mark: u8, v: f64, marks: &mut [u8], vals: &mut [f64]) -> bool
    requires { (p < length marks.old) × (p < length vals.old) }
    ensures { entered_by result marks.new vals.new ≡ put_at (Some p) mark v marks.old vals.old }
{
    if marks[p] != 0 {
        return false;
    }
    marks[p] = mark;
    vals[p] = v;
    true
}

// The place that a record names.
fn entry(r: &[u8], sizes: Sizes) -> Option<usize>
    requires { (length r.now ≡ 16) × (sizes.constraints ≤ 16) × (sizes.variables ≤ 16) }
    ensures { result ≡ entry_of sizes.constraints sizes.variables r.now }
{
    if !spare_zero(r) {
        return None;
    }
    let row = endian::read_u16(r, 2) as usize;
    let col = endian::read_u16(r, 4) as usize;
    spot_of(sizes, r[0], row, col)
}

// One record after the first.
fn enter(r: &[u8], sizes: Sizes, marks: &mut [u8], vals: &mut [f64]) -> bool
    requires r_len { (length r.now ≡ 16) × (sizes.constraints ≤ 16) × (sizes.variables ≤ 16) }
    requires marks_len { (length marks.old ≡ PLACES) × (length vals.old ≡ PLACES) }
    ensures { entered_by result marks.new vals.new ≡ entered sizes.constraints sizes.variables r.now marks.old vals.old }
{
    let k = mark(r[0]);
    let v = value(endian::read_u64(r, 8));
    let Some(p) = entry(r, sizes) else {
        return false;
    };
    put(p, k, v, marks, vals)
}

// The first record.
fn first(r: &[u8]) -> Result<Sizes, Unread>
    requires { length r.now ≡ 16 }
    ensures { result ≡ head_of r.now }
{
    if r[0] != b'D' {
        return Err(Unread::Fault(0));
    }
    if !spare_zero(r) {
        return Err(Unread::Fault(0));
    }
    if endian::read_u64(r, 8) != 0 {
        return Err(Unread::Fault(0));
    }
    sized(
        endian::read_u16(r, 2) as usize,
        endian::read_u16(r, 4) as usize,
    )
}

// The sizes, if they are in the table.
fn sized(m: usize, n: usize) -> Result<Sizes, Unread>
    ensures { result ≡ sizes_of m n }
{
    if !workspace::is_dimension(n) {
        return Err(Unread::Large);
    }
    if !workspace::is_constraints(m) {
        return Err(Unread::Large);
    }
    Ok(Sizes {
        constraints: m,
        variables: n,
    })
}

// No mark anywhere.
fn unmark(marks: &mut [u8])
    requires { length marks.old ≡ PLACES }
    ensures { marks.new ≡ no_marks }
{
    marks.fill(0);
}

// What a place holds that no record gives.
fn default_at(n: usize, p: usize) -> f64
    requires { 0 < n }
    ensures { result ≡ default_at n p }
{
    if p < GRADIENT {
        if p / n == p % n {
            return 1.0;
        }
        return 0.0;
    }
    if p < LOWER {
        return 0.0;
    }
    if p < UPPER {
        return f64::from_bits(0xfff0_0000_0000_0000);
    }
    if p < WIDTHS {
        return f64::from_bits(0x7ff0_0000_0000_0000);
    }
    0.0
}

// Every place at its default.
fn defaults(n: usize, vals: &mut [f64])
    requires { (0 < n) × (length vals.old ≡ PLACES) }
    ensures { vals.new ≡ default_values n }
{
    for (i, v) in vals.iter_mut().enumerate() {
        *v = default_at(n, i);
    }
}

// Whether a constraint's value is marked, and its width only beside an inequality's.
fn is_whole(value: u8, width: u8) -> bool
    ensures { result ≡ are_whole value width }
{
    if value == 0 {
        return false;
    }
    if width == 0 {
        return true;
    }
    value == 2
}

// Whether each of m constraints is whole.
fn complete(m: usize, marks: &[u8]) -> bool
    requires { (m ≤ 16) × (length marks.now ≡ PLACES) }
    ensures { result ≡ all_below m (whole_at marks.now) }
{
    for i in 0..m {
        if !is_whole(marks[VALUES + i], marks[WIDTHS + i]) {
            return false;
        }
    }
    true
}

// The records after the first.
fn walk(bytes: &[u8], sizes: Sizes, marks: &mut [u8], vals: &mut [f64]) -> Result<Sizes, Unread>
    requires in_bounds { (16 ≤ length bytes.now) × (sizes.constraints ≤ 16) × (sizes.variables ≤ 16) }
    requires marks_len { (length marks.old ≡ PLACES) × (length vals.old ≡ PLACES) }
    ensures { filling result marks.new vals.new
        ≡ walk_tables sizes.constraints sizes.variables bytes.now (length bytes.now / 16 - 1) 1 marks.old vals.old }
{
    let whole = bytes.len() / 16;
    for k in 1..whole {
        if !enter(&bytes[16 * k..16 * k + 16], sizes, marks, vals) {
            return Err(Unread::Fault(k));
        }
    }
    if bytes.len() % 16 != 0 {
        return Err(Unread::Fault(whole));
    }
    if !complete(sizes.constraints, marks) {
        return Err(Unread::Fault(whole));
    }
    Ok(sizes)
}

// The whole input, into the two tables.
pub fn decode(
    bytes: &[u8],
    marks: &mut [u8; PLACES],
    vals: &mut [f64; PLACES],
) -> Result<Sizes, Unread>
    ensures { Fills bytes.now result marks.old marks.new vals.old vals.new }
{
    if bytes.len() < 16 {
        return Err(Unread::Fault(0));
    }
    let sizes = first(&bytes[..16])?;
    unmark(marks);
    defaults(sizes.variables, vals);
    walk(bytes, sizes, marks, vals)
}
