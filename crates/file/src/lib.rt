// An open file (SPEC.md, "Records", "Line ends", "Sessions"): the payments it took so far, whether it takes one more,
// the one trailer that is right for it, and its form, lined or bare. Session and writer share it.
#![tactic(auto)]

ghost use Rattle.std.specs.Prelude.{◌≡◌};
ghost use Rattle.answer.specs.Answers.{◌gives◌, answer_of, state_behind};
ghost use Rattle.file.specs.Files.{fresh_file, file_answer, file_with, file_result_of, figures_answer, closing_answer};
ghost use Rattle.file.specs.Files.{figures_of, close_result_of};
ghost use Rattle.file.specs.Forms.{length_of, has_line_end};

use answer::{Answer, Reason, Refusal, require};

// How many payments were taken, the centavos they received in all, the version of the layout that the header names, 4
// or 6, and whether CR and LF follow each record. In a session all are 0 and false while no file is open. The version
// is a number and no enum: C reads it, and under one that is no version each payment record is refused 10.
#[repr(C)]
#[derive(Clone, Copy, Debug, PartialEq, Eq)]
pub struct File {
    pub taken: u64,
    pub total: u64,
    pub version: u64,
    pub lined: bool,
}

// What a trailer shows: how many records the file has, header and trailer included, and the centavos received.
#[derive(Clone, Copy, Debug, PartialEq, Eq)]
pub struct Figures {
    pub count: u64,
    pub total: u64,
}

// The bytes of a record with CR and LF behind it.
pub const LINED: usize = layout::LENGTH + 2;

// The two bytes that follow each record of a lined file.
pub const CR: u8 = 13;

pub const LF: u8 = 10;

// The bytes of a record in a file of this form, CR and LF included.
pub fn record_length(lined: bool) -> usize
    ensures { result ≡ length_of lined }
{
    if lined {
        return LINED;
    }
    layout::LENGTH
}

// Whether CR and LF follow the 150 bytes of a record, and nothing more.
pub fn has_line_end(bytes: &[u8]) -> bool
    ensures { result ≡ has_line_end bytes.now }
{
    if bytes.len() != LINED {
        return false;
    }
    if bytes[layout::LENGTH] != CR {
        return false;
    }
    bytes[layout::LENGTH + 1] == LF
}

// Where a trailer shows its count and its total.
const COUNT_PLACE: usize = 2;

const TOTAL_PLACE: usize = 8;

impl File {
    // The most payments of a file, and the most centavos: what a trailer's six and seventeen digits can show.
    pub const MOST_PAYMENTS: u64 = 999_997;

    pub const MOST_CENTAVOS: u64 = 99_999_999_999_999_999;

    // A file without payments, whose header names this version, lined or bare. Any number is taken; under one that is
    // no version each payment record is refused.
    pub fn new(version: u64, lined: bool) -> Self
        ensures { result ≡ fresh_file version lined }
    {
        File {
            taken: 0,
            total: 0,
            version,
            lined,
        }
    }

    // The file with one payment more, which received so many centavos: refused 15 where the file has the most payments,
    // then 16 where the total would pass the most centavos; both also of a file in an arbitrary state.
    #[tactic(auto, unfolding(crate::specs::Files::file_answer))]
    pub fn take(self, received: u64) -> Result<File, Refusal>
        ensures answer { result ≡ (file_answer self received gives file_with self received) }
        ensures kept { file_result_of self received
            ≡ record { answer = answer_of result; file = state_behind self result } }
    {
        require(self.taken < Self::MOST_PAYMENTS, Reason::FileFull, 1)?;
        // A sum past 64 bits stays at the largest number, which is past the most centavos too.
        require(
            self.total.saturating_add(received) <= Self::MOST_CENTAVOS,
            Reason::FileTotalPassed,
            answer::RECEIVED_PLACE,
        )?;
        Ok(File {
            taken: self.taken + 1,
            total: self.total + received,
            ..self
        })
    }

    // Checks a trailer that was read: refused 13, then 14, where it shows another count or total than this file has.
    #[tactic(auto, unfolding(crate::specs::Files::figures_answer))]
    pub fn check_trailer(self, shown: Figures) -> Answer
        ensures { result ≡ figures_answer self shown }
    {
        require(
            shown.count.checked_sub(2) == Some(self.taken),
            Reason::CountDiffers,
            COUNT_PLACE,
        )?;
        require(shown.total == self.total, Reason::TotalDiffers, TOTAL_PLACE)
    }

    // The figures of this file's trailer. Refused 15, then 16, where a trailer has no room for them, which only happens
    // to a file in an arbitrary state.
    #[tactic(auto, unfolding(crate::specs::Files::closing_answer))]
    pub fn close(self) -> Result<Figures, Refusal>
        ensures answer { result ≡ (closing_answer self gives figures_of self) }
        ensures zeros { close_result_of self
            ≡ record { answer = answer_of result; figures = state_behind (record { count = 0; total = 0 }) result } }
    {
        require(self.taken <= Self::MOST_PAYMENTS, Reason::FileFull, 1)?;
        require(
            self.total <= Self::MOST_CENTAVOS,
            Reason::FileTotalPassed,
            answer::RECEIVED_PLACE,
        )?;
        Ok(Figures {
            count: self.taken + 2,
            total: self.total,
        })
    }
}
