// The board (SPEC.md, "Board"): a lane for each issuer with its payments, centavos and tariffs, and the totals.
#![tactic(auto)]

mod one_lane;
mod searching;
mod whole_board;

use barcode::Issuer;
pub use searching::{cache_index, lanes_in_use, search_range};

// Payments, the centavos they received and the centavos that the banks charge for them: of one payment, of a lane, or
// of the whole board.
#[repr(C)]
#[derive(Clone, Copy, Debug, Default, PartialEq, Eq)]
pub struct Tally {
    pub payments: u64,
    pub centavos: u64,
    pub tariff: u64,
}

// An issuer and its tally. A payment is a lane of one: its issuer, 1, the centavos received and the tariff.
#[repr(C)]
#[derive(Clone, Copy, Debug, Default, PartialEq, Eq)]
pub struct Lane {
    pub issuer: Issuer,
    pub tally: Tally,
}

// The lanes in use are the first `used`; all of them if a board in an arbitrary state says more. `total` is their sum.
// An array and how many are in use, and no Vec: C reads them, and the engine has no heap.
#[repr(C)]
#[derive(Clone, Copy, Debug, PartialEq, Eq)]
pub struct Board {
    pub lanes: [Lane; Board::LANES],
    pub used: usize,
    pub total: Tally,
}

// All of a board that one payment can change: the lane at one index, the number of lanes in use and the total.
#[derive(Clone, Copy, Debug, PartialEq, Eq)]
pub struct Slot {
    pub at: usize,
    pub lane: Lane,
    pub used: usize,
    pub total: Tally,
}

// The indices at which an issuer's lane is searched: `from` and those behind it, up to `to` and without it.
#[derive(Clone, Copy, Debug, PartialEq, Eq)]
pub struct SearchRange {
    pub from: usize,
    pub to: usize,
}

// The entries of a cache of lane indices; see `cache_index`.
pub const CACHE_LENGTH: usize = 256;

// The most lanes of a board, and the most that any of its payments, centavos or tariffs, totals included, may reach.
impl Board {
    pub const LANES: usize = 64;

    pub const TOTAL: u64 = 1_000_000_000_000_000_000;
}
