// Searching a lane. `Board::lane_index` is the whole search, of a board passed by value, which copies 2.5 KB. Code that
// posts many payments keeps its board in a local and searches it there: it remembers in a cache where it found each
// issuer last (`cache_index`), tries that lane first (`search_range`), and tests each index of the range until a lane
// `is_of` the issuer; the index it ends at is the lane's, or the first free one. Both ways find the same index,
// `index_of` of specs/Boards.antt: if one changes, so does the other. proofs/Searches.antt and proofs/Caches.antt tie
// them.
ghost use Rattle.std.specs.Prelude.{◌≡◌, ◌%◌, min};
ghost use Rattle.board.specs.Lanes.{most_lanes};
ghost use Rattle.board.specs.Boards.{lanes_of, index_of};
ghost use Rattle.board.specs.Searches.{cache_length, search_range_of};

use crate::{Board, CACHE_LENGTH, Lane, SearchRange};
use barcode::Issuer;

// How many lanes of a board are in use: its `used`, at most LANES for a board in an arbitrary state.
pub fn lanes_in_use(used: usize) -> usize
    ensures { result ≡ min used most_lanes }
{
    used.min(Board::LANES)
}

// The entry of an issuer in a cache of CACHE_LENGTH lane indices. Issuers of other segments or numbers may share it, so
// what is read there is only a guess; see `search_range`.
pub fn cache_index(issuer: Issuer) -> usize
    ensures { result ≡ issuer.number % cache_length }
{
    (issuer.number % CACHE_LENGTH as u64) as usize
}

// Where to search an issuer's lane. If the guess is in use and `seen`, the lane there, is the issuer's, the search is
// over: `from` and `to` are the guess. Else it goes over all lanes in use. The guess may be any number.
pub fn search_range(issuer: Issuer, guess: usize, seen: Lane, used: usize) -> SearchRange
    ensures { result ≡ search_range_of issuer guess seen used }
{
    if guess < used {
        if seen.is_of(issuer) {
            return SearchRange {
                from: guess,
                to: guess,
            };
        }
    }
    SearchRange {
        from: 0,
        to: lanes_in_use(used),
    }
}

impl Board {
    // The index of the issuer's lane, counted from 0; how many lanes are in use if it has none.
    pub(crate) fn lane_index(self, issuer: Issuer) -> usize
        ensures { result ≡ index_of issuer (lanes_of self) }
    {
        let end = lanes_in_use(self.used);
        for i in 0..end {
            if self.lanes[i].is_of(issuer) {
                return i;
            }
        }
        end
    }
}
