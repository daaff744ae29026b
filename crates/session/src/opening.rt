// A header: its bank, agreement and number, and the file that it opens.
ghost use Rattle.std.specs.Prelude.{◌≡◌};
ghost use Rattle.answer.specs.Answers.{◌gives◌};
ghost use Rattle.answer.specs.Orders.{◌then◌};
ghost use Rattle.pairs.specs.Pairs.{memory_answer};
ghost use Rattle.session.specs.Sessions.{pair_numbered, opened_at};

use crate::Session;
use answer::{Answer, Refusal};
use file::File;
use layout::a;
use pairs::Pair;

// The bank and the agreement of a header, byte for byte, with its sequence number.
pub(crate) fn pair_numbered(rec: &[u8; Session::RECORD], sequence: u64) -> Pair
    ensures { result ≡ pair_numbered rec.now sequence }
{
    let mut bank = [0u8; 3];
    let mut agreement = [0u8; 20];
    let from = a::BANK.first - 1;
    let to = a::BANK.last;
    bank.copy_from_slice(&rec[from..to]);
    let from = a::AGREEMENT.first - 1;
    let to = a::AGREEMENT.last;
    agreement.copy_from_slice(&rec[from..to]);
    Pair {
        bank,
        agreement,
        sequence,
    }
}

impl Session {
    // Opens a file of this version, form, pair and number: 26, 27, the answer to what follows the record, or the
    // session with the file open. What follows a header is never refused by `take`: 22 is given in an open file alone.
    pub(crate) fn take_header(
        self,
        version: u64,
        lined: bool,
        opening: Pair,
        ending: Answer,
    ) -> Result<Session, Refusal>
        ensures { result ≡ ((memory_answer self.memory opening then ending)
            gives opened_at self.shown self.memory version lined opening) }
    {
        self.memory.check(opening)?;
        ending?;
        Ok(Session {
            work: self.shown,
            opened: true,
            file: File::new(version, lined),
            opening,
            ..self
        })
    }
}
