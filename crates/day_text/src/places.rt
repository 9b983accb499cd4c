// Where the tables hold what is printed: specs/Places.antt says the same of the lists.

// ---- texts: the names of balances and limits stand after the items' names
pub const BALANCE_NAMES: usize = 16;

pub const LIMIT_NAMES: usize = 32;

pub const TITLE: usize = 768;

pub const DOUBTS: usize = 840;

// ---- wholes: the old readings of the items stand first
pub const NEW_READINGS: usize = 16;

pub const ITEM_KINDS: usize = 32;

pub const LIMIT_KINDS: usize = 48;

// ---- numbers: the spreads of the items stand first
pub const CONTENTS_BEFORE: usize = 16;

pub const CONTENTS_AFTER: usize = 32;

pub const AMOUNTS: usize = 304;

pub const TOLERANCE: usize = 576;

// ---- figures: the values of the items stand first
pub const FIGURE_CORRECTED: usize = 16;

pub const FIGURE_SPREAD: usize = 32;

pub const FIGURE_TEST: usize = 48;

pub const FIGURE_SHARE: usize = 64;

pub const FIGURE_MEASURED: usize = 80;

pub const FIGURE_LEFT: usize = 96;

pub const FIGURE_LIMIT: usize = 112;

pub const FIGURE_BOUND: usize = 128;

pub const FIGURE_MISFIT: usize = 129;

// ---- signs: the marks of the items stand first
pub const SIGN_BALANCE: usize = 16;

pub const SIGN_LIMIT: usize = 32;

pub const SIGN_FREEDOM: usize = 48;

pub const SIGN_AGREE: usize = 49;

pub const SIGN_KEPT: usize = 50;
