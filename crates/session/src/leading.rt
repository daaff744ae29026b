// The fast path of a run: the accepted payments at the front of a slice, posted in place on one copy of the working
// board. It mirrors what `Session::take_judged` (taking.rt) does with an accepted payment: the length, that the kind is
// expected, `record::judged::decode`, `File::take`, `Board::post`, `check_end`. Everything else, refused payments
// included, is left to `Session::take_judged`: no refusal is made here, so the order of these checks does not matter.
// It cuts as `run_judged` does: `record_needs` and `file::record_length` mirror `least_left` and `cut_length`
// (ends.rt). What must change together: if `take_judged` checks one more thing of a payment, so does `next_payment`; if
// a payment changes one more member of the session, so does the loop, and `run_judged` (running.rt) takes it over from
// `LeadingPayments`. The proof that ties them is proofs/Payments.antt: by `payment_taken` and `payment_leaves`, a
// payment posted here is accepted by `take_answer` and leaves the session that `take_judged` leaves, `next_session`; by
// `one_more` it is the next piece. What is slow and so avoided: a board by value is 2.5 KB, and each call that takes
// one copies it. So the loop itself reads and stores lanes, and the board's functions get numbers and one lane (board:
// src/searching.rt, `Slot::post`).
ghost use Rattle.std.specs.Prelude.{◌≡◌, ◌≤◌, length};
ghost use Rattle.answer.specs.Answers.{◌gives◌};
ghost use Rattle.board.specs.Boards.{slot_answer, grown_slot};
ghost use Rattle.session.specs.LeadingPayments.{NextPaymentOf, LeadingPaymentsOf};

use crate::{Session, ends};
use answer::Refusal;
use board::{Board, Lane, Slot, Tally};
use file::File;
use record::judged;

// How far the payments came: the open file with them, their number, and the index behind the last.
#[derive(Clone, Copy)]
pub(crate) struct Progress {
    pub(crate) file: File,
    pub(crate) records: u64,
    pub(crate) at: usize,
}

// What accepted payments leave: the working board with them, and how far they came.
#[derive(Clone, Copy)]
pub(crate) struct LeadingPayments {
    pub(crate) work: Board,
    pub(crate) progress: Progress,
}

// The progress of no payments.
fn no_progress(file: File) -> Progress
    ensures { result ≡ record { file = file; records = 0; at = 0 } }
{
    Progress {
        file,
        records: 0,
        at: 0,
    }
}

// The next payment as a lane of one, and the progress behind it, if the file is open, its record is there whole and
// accepted, and the file takes it.
fn next_payment(
    opened: bool,
    more: bool,
    done: Progress,
    bytes: &[u8],
    agreed: &[u64],
) -> Option<(Lane, Progress)>
    requires { (done.records ≤ done.at) × (done.at ≤ length bytes.now) }
    ensures { NextPaymentOf agreed.now opened more done bytes.now result }
{
    let at = done.at;
    let file = done.file;
    if !opened {
        return None;
    }
    if bytes.len() - at < ends::record_needs(file.lined, more) {
        return None;
    }
    let end = at + file::record_length(file.lined);
    ends::check_end(true, file.lined, &bytes[at..end]).ok()?;
    let rec = &bytes[at..at + layout::LENGTH];
    let due = judged::accepted_payment(rec, file.version, agreed)?;
    let file = file.take(due.received).ok()?;
    let next = Progress {
        file,
        records: done.records + 1,
        at: end,
    };
    Some((Lane::of_payment(due.issuer, due.received, due.tariff), next))
}

// A payment posted at an index of a board that has this lane there, so many lanes in use and this total.
fn post_at(at: usize, lane: Lane, used: usize, total: Tally, payment: Lane) -> Result<Slot, Refusal>
    ensures { result ≡ (slot_answer (record { at = at; lane = lane; used = used; total = total }) payment
        gives grown_slot (record { at = at; lane = lane; used = used; total = total }) payment) }
{
    let slot = Slot {
        at,
        lane,
        used,
        total,
    };
    slot.post(payment)
}

impl Session {
    // Takes the accepted payments at the front, up to the first record of any other kind, or refused, or not expected.
    pub(crate) fn take_leading_payments(
        self,
        bytes: &[u8],
        more: bool,
        agreed: &[u64],
    ) -> LeadingPayments
        ensures { LeadingPaymentsOf agreed.now self more bytes.now result }
    {
        let mut work = self.work;
        let mut progress = no_progress(self.file);
        // Where each issuer's lane was found last. No payment moves a lane, so an index once found stays right.
        // An array, since the engine has no heap.
        let mut cache = [0u8; board::CACHE_LENGTH];
        while let Some((payment, next)) = next_payment(self.opened, more, progress, bytes, agreed) {
            let entry = board::cache_index(payment.issuer);
            let guess = cache[entry] as usize;
            let range = board::search_range(payment.issuer, guess, work.lanes[guess], work.used);
            // Not by `position`: over a slice of the lanes it takes 10 instructions more for each payment.
            let mut at = range.to;
            for i in range.from..range.to {
                if work.lanes[i].is_of(payment.issuer) {
                    at = i;
                    break;
                }
            }
            if Self::LANES <= at {
                break;
            }
            let Ok(slot) = post_at(at, work.lanes[at], work.used, work.total, payment) else {
                break;
            };
            work.lanes[at] = slot.lane;
            work.used = slot.used;
            work.total = slot.total;
            cache[entry] = at as u8;
            progress = next;
        }
        LeadingPayments { work, progress }
    }
}
