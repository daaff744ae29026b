// One record at a time, in the order of SPEC.md, "Refusals".
ghost use Rattle.std.specs.Prelude.{◌≡◌};
ghost use Rattle.answer.specs.Answers.{◌gives◌, answer_of, state_behind};
ghost use Rattle.answer.specs.Orders.{◌then◌};
ghost use Rattle.barcode.specs.Agreed.{list_answer};
ghost use Rattle.record.specs.Values.{decoded_record_under};
ghost use Rattle.file.specs.Files.{figures_answer};
ghost use Rattle.board.specs.Lanes.{lane_of_one};
ghost use Rattle.session.specs.Sessions.{closed_at, fresh_session, session_terms, session_expects, pay_answer};
ghost use Rattle.session.specs.Sessions.{session_with_payment, session_closed, session_answer, session_with};
ghost use Rattle.session.specs.Sessions.{take_answer, next_session, take_of, abandon_of, finish_of};

use crate::{Session, ends, opening};
use answer::{Answer, Reason, Refusal, require};
use barcode::Issuer;
use board::Board;
use file::{Figures, File};
use layout::Record;
use pairs::{Memory, Pair};
use record::Contents;

// Whether a record of this kind is expected: a header with no file open, a payment or a trailer in an open file.
fn is_expected(opened: bool, named: Option<Record>) -> bool
    ensures { result ≡ session_expects opened named }
{
    match named {
        Some(Record::Header) => !opened,
        Some(Record::Payment | Record::Trailer) => opened,
        None => false,
    }
}

impl Session {
    // No file open, this board shown and these numbers remembered.
    fn closed_at(shown: Board, memory: Memory) -> Session
        ensures { result ≡ closed_at shown memory }
    {
        Session {
            shown,
            work: shown,
            opened: false,
            file: File::new(0, false),
            opening: Pair::none(),
            memory,
        }
    }

    // A fresh session: no file open, an empty board and no numbers.
    pub fn new() -> Self
        ensures { result ≡ fresh_session }
    {
        Self::closed_at(Board::new(), Memory::new())
    }

    // Takes a payment into the open file and onto the working board: 15, 16, 17, 18, the answer to what follows the
    // record, or the session with it.
    fn take_payment(
        mut self,
        issuer: Issuer,
        received: u64,
        tariff: u64,
        ending: Answer,
    ) -> Result<Session, Refusal>
        ensures { result ≡ ((pay_answer self (lane_of_one issuer received tariff) then ending)
            gives session_with_payment self (lane_of_one issuer received tariff)) }
    {
        let file = self.file.take(received)?;
        let work = self.work.post(issuer, received, tariff)?;
        ending?;
        self.file = file;
        self.work = work;
        Ok(self)
    }

    // Closes the open file if its trailer shows these figures: 13, 14, the answer to what follows the record, or the
    // session that shows the file's payments and remembers its number.
    fn take_trailer(self, shown: Figures, ending: Answer) -> Result<Session, Refusal>
        ensures { result ≡ ((figures_answer self.file shown then ending) gives session_closed self) }
    {
        self.file.check_trailer(shown)?;
        ending?;
        Ok(Self::closed_at(self.work, self.memory.remember(self.opening)))
    }

    // Takes the 150 bytes of a record whose kind is expected; `ended` is whether CR and LF follow it, and `ending` the
    // answer to what follows it. The record's own refusal, or what the session makes of it.
    fn take_expected(
        self,
        rec: &[u8; Self::RECORD],
        ended: bool,
        ending: Answer,
        agreed: &[u64],
    ) -> Result<Session, Refusal>
        ensures { result ≡ ((session_answer self rec.now
            (decoded_record_under (session_terms agreed.now self) rec.now) then ending)
            gives session_with self ended rec.now
            (decoded_record_under (session_terms agreed.now self) rec.now)) }
    {
        match record::judged::decode(rec, self.file.version, agreed)? {
            Contents::Header(h) => {
                let opening = opening::pair_numbered(rec, h.sequence);
                self.take_header(h.version, ended, opening, ending)
            }
            Contents::Payment(p) => {
                self.take_payment(p.barcode.issuer, p.received, p.tariff, ending)
            }
            Contents::Trailer(t) => self.take_trailer(
                Figures {
                    count: t.count,
                    total: t.total,
                },
                ending,
            ),
        }
    }

    // Takes one record under a list of agreed issuers that was judged: the session with it, or the first refusal: 1, 9,
    // the record's own, then 13 to 18, 26 or 27, then 22.
    pub(crate) fn take_judged(self, rec: &[u8], agreed: &[u64]) -> Result<Session, Refusal>
        ensures { result ≡ (take_answer agreed.now self rec.now
            gives next_session agreed.now self rec.now) }
    {
        let lined = self.file.lined;
        let whole = ends::record_of(self.opened, lined, rec).ok_or(Refusal {
            why: Reason::WrongLength,
            place: 0,
        })?;
        let expected = is_expected(self.opened, layout::named_by(rec[0]));
        require(expected, Reason::NotExpected, 1)?;
        let ending = ends::check_end(self.opened, lined, rec);
        let ended = file::has_line_end(rec);
        self.take_expected(whole, ended, ending, agreed)
    }

    // Takes one record of any bytes and any length, with CR and LF behind it in a lined file: the session with it, or
    // the first refusal, 25 for the list before everything. The list is that of this record alone. For many records use
    // `run`: it judges the list once and copies no board for a payment.
    pub fn take(self, rec: &[u8], agreed: &[u64]) -> Result<Session, Refusal>
        ensures answer { result ≡ ((list_answer agreed.now then take_answer agreed.now self rec.now)
            gives next_session agreed.now self rec.now) }
        ensures kept { take_of agreed.now self rec.now
            ≡ record { answer = answer_of result; session = state_behind self result } }
    {
        barcode::check_list(agreed)?;
        self.take_judged(rec, agreed)
    }

    // The session without its open file: the board shown stays, the file's number is not remembered, and a header is
    // expected. With no file open, the very same session, one in an arbitrary state included.
    pub fn abandon(self) -> Session
        ensures { result ≡ abandon_of self }
    {
        if self.opened {
            return Self::closed_at(self.shown, self.memory);
        }
        self
    }

    // The end of the input: 19 while a file is open, else this very session.
    pub fn finish(self) -> Result<Session, Refusal>
        ensures answer { result ≡ ((finish_of self).answer gives self) }
        ensures kept { finish_of self
            ≡ record { answer = answer_of result; session = state_behind self result } }
    {
        require(!self.opened, Reason::FileOpen, 0)?;
        Ok(self)
    }
}
