// A record made under a list of agreed issuers that was judged: what the writer calls once `barcode::check_list` has
// accepted the list. It never answers 25.
ghost use Rattle.std.specs.Prelude.{[], ◌∷◌, ◌≡◌, length};
ghost use Rattle.answer.specs.Orders.{if_accepted};
ghost use Rattle.layout.specs.Layouts.{layout_of};
ghost use Rattle.kinds.specs.Terms.{told};
ghost use Rattle.fields.specs.Making.{made_of, make_answer};

use crate::making;
use answer::{Answer, Reason, require};
use layout::Record;

// Writes the record with these field bytes and amounts into the caller's buffer: a header takes no amount, a payment
// received and tariff, a trailer its total; amounts that the record has no field for are ignored. A refusal leaves the
// buffer unchanged: 1 unless it has 150 bytes and the field bytes are as many as the record takes, then 10 at 80 for a
// payment under a number other than 4 and 6, then the fields in their order, with their places in the record.
#[tactic(auto, unfolding(crate::specs::Making::make_answer))]
pub fn make(
    which: Record,
    given: &[u8],
    version: u64,
    first: u64,
    second: u64,
    agreed: &[u64],
    out: &mut [u8],
) -> Answer
    ensures answer { result ≡ make_answer (told version agreed.now) which given.now
        (first ∷ second ∷ []) (length out.old) }
    ensures bytes { out.new ≡ if_accepted result
        (made_of (layout_of which) given.now (first ∷ second ∷ [])) out.old }
{
    require(out.len() == layout::LENGTH, Reason::WrongLength, 0)?;
    require(
        given.len() == layout::given_length(which),
        Reason::WrongLength,
        0,
    )?;
    let mut made = [0u8; layout::LENGTH];
    making::make_named(which, given, version, first, second, agreed, &mut made)?;
    out.copy_from_slice(&made);
    Ok(())
}
