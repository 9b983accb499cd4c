// The tables of the day's report, with their headings.
ghost use Rattle.std.specs.Prelude.{◌≡◌, ◌+◌, ◌≤◌, ◌<◌, length};
ghost use Rattle.ascii.specs.inner.Work.{Wrote};
ghost use Rattle.day_text.specs.Tables.{item_rows, item_table, balance_row, balance_rows, balance_table, limit_kind_text, slack as tables_slack, amounts_text, limit_row, limit_rows, limit_table};
ghost use Rattle.day_text.specs.Report.{tables_text};
ghost use Rattle.day_text.specs.inner.Work.{Tables};

use crate::cells::{put_cell, put_number, put_within};
use crate::items::put_item;
use crate::places::{
    AMOUNTS, BALANCE_NAMES, FIGURE_LEFT, FIGURE_LIMIT, FIGURE_MEASURED, LIMIT_KINDS, LIMIT_NAMES,
    SIGN_BALANCE, SIGN_LIMIT,
};
use ascii::{put_byte, put_text};

// ---- items

// A row for each item.
fn put_items(
    out: &mut [u8],
    at: usize,
    n: usize,
    texts: &[u8],
    wholes: &[u32],
    numbers: &[f64],
    figures: &[f64],
    signs: &[u32],
) -> usize
    requires { (at + 5088 ≤ length out.old) × (n ≤ 16) × Tables texts.now wholes.now numbers.now figures.now signs.now }
    ensures wrote { Wrote out.old at (item_rows n 0 texts.now wholes.now numbers.now figures.now signs.now) out.new result }
    ensures upper_bound { result ≤ at + 5088 }
{
    let mut to = at;
    for i in 0..n {
        to = put_item(out, to, i, texts, wholes, numbers, figures, signs);
    }
    to
}

// The table of items, and the empty line after it.
fn put_item_table(
    out: &mut [u8],
    at: usize,
    n: usize,
    texts: &[u8],
    wholes: &[u32],
    numbers: &[f64],
    figures: &[f64],
    signs: &[u32],
) -> usize
    requires { (at + 5223 ≤ length out.old) × (n ≤ 16) × Tables texts.now wholes.now numbers.now figures.now signs.now }
    ensures wrote { Wrote out.old at (item_table n texts.now wholes.now numbers.now figures.now signs.now) out.new result }
    ensures upper_bound { result ≤ at + 5223 }
{
    let a = put_text(
        out,
        at,
        b"name             kind           old          new       volume    corrected   new spread   correction   in spreads         test  marks\n",
    );
    let b = put_items(out, a, n, texts, wholes, numbers, figures, signs);
    put_byte(out, b, b'\n')
}

// ---- balances

// The row of balance j.
fn put_balance(
    out: &mut [u8],
    at: usize,
    j: usize,
    texts: &[u8],
    figures: &[f64],
    signs: &[u32],
) -> usize
    requires { (at + 66 ≤ length out.old) × (j < 16) × (length texts.now ≡ 1992) × (length figures.now ≡ 130) × (length signs.now ≡ 51) }
    ensures wrote { Wrote out.old at (balance_row j texts.now figures.now signs.now) out.new result }
    ensures upper_bound { result ≤ at + 66 }
{
    let a = put_cell(out, at, texts, BALANCE_NAMES + j);
    let b = put_number(out, a, figures[FIGURE_MEASURED + j]);
    let c = put_number(out, b, figures[FIGURE_LEFT + j]);
    put_within(out, c, signs[SIGN_BALANCE + j])
}

// A row for each balance.
fn put_balances(
    out: &mut [u8],
    at: usize,
    m: usize,
    texts: &[u8],
    figures: &[f64],
    signs: &[u32],
) -> usize
    requires { (at + 1056 ≤ length out.old) × (m ≤ 16) × (length texts.now ≡ 1992) × (length figures.now ≡ 130) × (length signs.now ≡ 51) }
    ensures wrote { Wrote out.old at (balance_rows m 0 texts.now figures.now signs.now) out.new result }
    ensures upper_bound { result ≤ at + 1056 }
{
    let mut to = at;
    for j in 0..m {
        to = put_balance(out, to, j, texts, figures, signs);
    }
    to
}

// The table of balances, and the empty line after it.
fn put_balance_table(
    out: &mut [u8],
    at: usize,
    m: usize,
    texts: &[u8],
    figures: &[f64],
    signs: &[u32],
) -> usize
    requires { (at + 1108 ≤ length out.old) × (m ≤ 16) × (length texts.now ≡ 1992) × (length figures.now ≡ 130) × (length signs.now ≡ 51) }
    ensures wrote { Wrote out.old at (balance_table m texts.now figures.now signs.now) out.new result }
    ensures upper_bound { result ≤ at + 1108 }
{
    let a = put_text(
        out,
        at,
        b"balance              measured         left  within\n",
    );
    let b = put_balances(out, a, m, texts, figures, signs);
    put_byte(out, b, b'\n')
}

// ---- limits

// `floor` or `ceiling`.
fn put_limit_kind(out: &mut [u8], at: usize, kind: u32) -> usize
    requires { at + 8 ≤ length out.old }
    ensures wrote { Wrote out.old at (limit_kind_text kind) out.new result }
    ensures upper_bound { result ≤ at + 8 }
{
    if kind == 0 {
        return put_text(out, at, b" floor  ");
    }
    put_text(out, at, b" ceiling")
}

// What is left to a limit: above a floor, below a ceiling.
fn slack(kind: u32, amount: f64, sum: f64) -> f64
    ensures { result ≡ tables_slack kind amount sum }
{
    if kind == 0 {
        return sum - amount;
    }
    amount - sum
}

// Amount, comes to, and left.
fn put_amounts(out: &mut [u8], at: usize, kind: u32, amount: f64, sum: f64) -> usize
    requires { at + 66 ≤ length out.old }
    ensures wrote { Wrote out.old at (amounts_text kind amount sum) out.new result }
    ensures upper_bound { result ≤ at + 66 }
{
    let left = slack(kind, amount, sum);
    let a = put_number(out, at, amount);
    let b = put_number(out, a, sum);
    put_number(out, b, left)
}

// The row of limit j.
fn put_limit(
    out: &mut [u8],
    at: usize,
    j: usize,
    texts: &[u8],
    wholes: &[u32],
    numbers: &[f64],
    figures: &[f64],
    signs: &[u32],
) -> usize
    requires { (at + 96 ≤ length out.old) × (j < 16) × (length texts.now ≡ 1992) × (length wholes.now ≡ 64) × (length numbers.now ≡ 577) × (length figures.now ≡ 130) × (length signs.now ≡ 51) }
    ensures wrote { Wrote out.old at (limit_row j texts.now wholes.now numbers.now figures.now signs.now) out.new result }
    ensures upper_bound { result ≤ at + 96 }
{
    let kind = wholes[LIMIT_KINDS + j];
    let a = put_cell(out, at, texts, LIMIT_NAMES + j);
    let b = put_limit_kind(out, a, kind);
    let c = put_amounts(
        out,
        b,
        kind,
        numbers[AMOUNTS + j],
        figures[FIGURE_LIMIT + j],
    );
    put_within(out, c, signs[SIGN_LIMIT + j])
}

// A row for each limit.
fn put_limits(
    out: &mut [u8],
    at: usize,
    q: usize,
    texts: &[u8],
    wholes: &[u32],
    numbers: &[f64],
    figures: &[f64],
    signs: &[u32],
) -> usize
    requires { (at + 1536 ≤ length out.old) × (q ≤ 16) × Tables texts.now wholes.now numbers.now figures.now signs.now }
    ensures wrote { Wrote out.old at (limit_rows q 0 texts.now wholes.now numbers.now figures.now signs.now) out.new result }
    ensures upper_bound { result ≤ at + 1536 }
{
    let mut to = at;
    for j in 0..q {
        to = put_limit(out, to, j, texts, wholes, numbers, figures, signs);
    }
    to
}

// The table of limits, and the empty line after it, where there is a limit.
fn put_limit_table(
    out: &mut [u8],
    at: usize,
    q: usize,
    texts: &[u8],
    wholes: &[u32],
    numbers: &[f64],
    figures: &[f64],
    signs: &[u32],
) -> usize
    requires { (at + 1609 ≤ length out.old) × (q ≤ 16) × Tables texts.now wholes.now numbers.now figures.now signs.now }
    ensures wrote { Wrote out.old at (limit_table q texts.now wholes.now numbers.now figures.now signs.now) out.new result }
    ensures upper_bound { result ≤ at + 1609 }
{
    if q == 0 {
        return at;
    }
    let a = put_text(
        out,
        at,
        b"limit            kind          amount     comes to         left  within\n",
    );
    let b = put_limits(out, a, q, texts, wholes, numbers, figures, signs);
    put_byte(out, b, b'\n')
}

// ---- all three

// The tables one after the other.
pub fn put_tables(
    out: &mut [u8],
    at: usize,
    n: usize,
    m: usize,
    q: usize,
    texts: &[u8],
    wholes: &[u32],
    numbers: &[f64],
    figures: &[f64],
    signs: &[u32],
) -> usize
    requires { (at + 7940 ≤ length out.old) × (n ≤ 16) × (m ≤ 16) × (q ≤ 16) × Tables texts.now wholes.now numbers.now figures.now signs.now }
    ensures wrote { Wrote out.old at (tables_text n m q texts.now wholes.now numbers.now figures.now signs.now) out.new result }
    ensures upper_bound { result ≤ at + 7940 }
{
    let a = put_item_table(out, at, n, texts, wholes, numbers, figures, signs);
    let b = put_balance_table(out, a, m, texts, figures, signs);
    put_limit_table(out, b, q, texts, wholes, numbers, figures, signs)
}
