// A session takes the records of return files one after the other (SPEC.md, "Sessions").
#![tactic(auto)]

mod ends;
mod leading;
mod opening;
mod running;
mod taking;

ghost use Rattle.std.specs.Prelude.{◌≡◌};
ghost use Rattle.session.specs.Sessions.{session_limits};

use answer::Answer;
use board::Board;
use file::File;
use pairs::{Memory, Pair};

// The board shown has the payments of accepted files only. While a file is open, the working board has its payments
// too, and `file` their number, their sum, the version that the header names and whether CR and LF follow each record;
// otherwise the working board equals the board shown, and `file` is all zeros and not lined. `opening` is the bank, the
// agreement and the number of the open file, all zeros with none open. The memory has the last accepted number of each
// bank and agreement: it is plain data, and a session that starts tomorrow with today's refuses today's files. A
// trailer whose file has neither a place there nor room for one is accepted and not remembered; no session that started
// fresh comes to that. `opened` beside `file`, and no Option: C reads the members.
#[repr(C)]
#[derive(Clone, Copy, Debug, PartialEq, Eq)]
pub struct Session {
    pub shown: Board,
    pub work: Board,
    pub opened: bool,
    pub file: File,
    pub opening: Pair,
    pub memory: Memory,
}

// The answer of a run, the first refusal, and how many records were accepted and files closed before it, and how many
// bytes those records had, CR and LF included. The session is the one after those records. No Result: what comes before
// a refusal keeps its effect (`RunIsItsTakes`), so session and counts are there beside it.
#[derive(Clone, Copy, Debug, PartialEq, Eq)]
pub struct RunResult {
    pub answer: Answer,
    pub session: Session,
    pub records: u64,
    pub files: u64,
    pub bytes: usize,
}

// The limits of a session: the lanes of its board, the bytes of a record, the most payments and the most centavos of a
// file, the most that the payments, the centavos or the tariffs of the board may reach, and the pairs of its memory.
#[repr(C)]
#[derive(Clone, Copy, Debug, PartialEq, Eq)]
pub struct Limits {
    pub lanes: usize,
    pub record_length: usize,
    pub payments: u64,
    pub file_total: u64,
    pub board_total: u64,
    pub pairs: usize,
}

// The limits one by one, from the crates that check them.
impl Session {
    pub const LANES: usize = Board::LANES;

    pub const RECORD: usize = layout::LENGTH;

    pub const PAYMENTS: u64 = File::MOST_PAYMENTS;

    pub const FILE_TOTAL: u64 = File::MOST_CENTAVOS;

    pub const BOARD_TOTAL: u64 = Board::TOTAL;

    pub const PAIRS: usize = Memory::PAIRS;

    // The six constants in one value, the same for every session. A contract cannot name a constant: this ties them.
    pub fn limits() -> Limits
        ensures { result ≡ session_limits }
    {
        Limits {
            lanes: Self::LANES,
            record_length: Self::RECORD,
            payments: Self::PAYMENTS,
            file_total: Self::FILE_TOTAL,
            board_total: Self::BOARD_TOTAL,
            pairs: Self::PAIRS,
        }
    }
}
