// Sequence numbers (SPEC.md, "Sequence numbers"): the last accepted number of each pair of bank and agreement, and
// whether a header's number follows.
#![tactic(auto)]

ghost use Rattle.std.specs.Prelude.{◌≡◌, min, eqb};
ghost use Rattle.pairs.specs.Pairs.{most_pairs, next_number, is_same_pair, no_pair, fresh_memory, pairs_of};
ghost use Rattle.pairs.specs.Pairs.{index_of, memory_answer, memory_with};

use answer::{Answer, Reason, require};

// The bytes of a header's bank and agreement, and its sequence number.
#[repr(C)]
#[derive(Clone, Copy, Debug, PartialEq, Eq)]
pub struct Pair {
    pub bank: [u8; 3],
    pub agreement: [u8; 20],
    pub sequence: u64,
}

// The pairs in use are the first `used`, in the order in which they first were accepted; all of them if a memory in an
// arbitrary state says more. Each has the number of its last accepted file. No Vec, as in `Board`.
#[repr(C)]
#[derive(Clone, Copy, Debug, PartialEq, Eq)]
pub struct Memory {
    pub pairs: [Pair; Memory::PAIRS],
    pub used: usize,
}

// The last of the numbers that six digits can show.
const LAST_NUMBER: u64 = 999_999;

// Whether a number follows the last one: 1 behind 999,999, else one more. None follows the last number of 64 bits.
#[tactic(auto, unfolding(crate::specs::Pairs::next_number))]
fn follows(last: u64, number: u64) -> bool
    ensures { result ≡ eqb number (next_number last) }
{
    if last == LAST_NUMBER {
        return number == 1;
    }
    last.checked_add(1) == Some(number)
}

impl Pair {
    // No file: zeros.
    pub fn none() -> Self
        ensures { result ≡ no_pair }
    {
        Pair {
            bank: [0; 3],
            agreement: [0; 20],
            sequence: 0,
        }
    }

    // Whether two pairs have the same bytes. Their numbers do not count.
    #[tactic(auto, unfolding(crate::specs::Pairs::is_same_pair))]
    fn is_same(self, other: Pair) -> bool
        ensures { result ≡ is_same_pair self other }
    {
        self.bank == other.bank && self.agreement == other.agreement
    }
}

impl Memory {
    pub const PAIRS: usize = 16;

    // A fresh memory: no pair in use.
    pub fn new() -> Self
        ensures { result ≡ fresh_memory }
    {
        let unused = Pair::none();
        Memory {
            pairs: [unused; Self::PAIRS],
            used: 0,
        }
    }

    // How many pairs are in use: `used`, at most PAIRS for a memory in an arbitrary state.
    fn pairs_in_use(used: usize) -> usize
        ensures { result ≡ min used most_pairs }
    {
        used.min(Self::PAIRS)
    }

    // The index of the pair, counted from 0; how many pairs are in use if it is not there. A `for`, as in
    // `Board::lane_index`: one search for both would take a closure, and be as long as the two.
    fn pair_index(self, pair: Pair) -> usize
        ensures { result ≡ index_of pair (pairs_of self) }
    {
        let end = Self::pairs_in_use(self.used);
        for i in 0..end {
            if self.pairs[i].is_same(pair) {
                return i;
            }
        }
        end
    }

    // 26 if the pair is in use and its number is not the next one; 27 if it is not and all are.
    pub fn check(self, pair: Pair) -> Answer
        ensures { result ≡ memory_answer self pair }
    {
        let at = self.pair_index(pair);
        if at < Self::pairs_in_use(self.used) {
            let known = self.pairs[at];
            return require(
                follows(known.sequence, pair.sequence),
                Reason::NotFollowing,
                answer::SEQUENCE_PLACE,
            );
        }
        require(at < Self::PAIRS, Reason::PairsFull, answer::AGREEMENT_PLACE)
    }

    // The memory with this pair's number; as it was if the pair is new and there is no room.
    pub fn remember(mut self, pair: Pair) -> Memory
        ensures { result ≡ memory_with self pair }
    {
        let at = self.pair_index(pair);
        if Self::PAIRS <= at {
            return self;
        }
        self.pairs[at] = pair;
        if self.used <= at {
            self.used = at + 1;
        }
        self
    }
}
