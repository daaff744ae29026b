// The field bytes of a record (SPEC.md, "Field bytes"): joined from an accepted record, and a record made from them and
// its amounts, both along layout's table and under the list of agreed issuers that the caller lends.
#![tactic(auto)]

mod given;
mod joining;
pub mod judged;
mod making;

ghost use Rattle.std.specs.Prelude.{[], ◌∷◌, ◌≡◌, length, get_or};
ghost use Rattle.answer.specs.Orders.{if_accepted};
ghost use Rattle.layout.specs.Layouts.{layout_of, named_by};
ghost use Rattle.kinds.specs.Terms.{told};
ghost use Rattle.fields.specs.Joining.{join_check, joined_in};
ghost use Rattle.fields.specs.Making.{made_of, make_check};

use answer::Answer;
use layout::Record;

// Writes the field bytes of an accepted A or G, 80 or 121, into the caller's buffer, which must be exactly as long. A
// refusal leaves the buffer unchanged: 25 for the list, 1 for the record's length, 9 for a Z or a byte that names no
// record, 1 for the buffer's length, then the record's own under this version, which an A ignores.
pub fn join(rec: &[u8], version: u64, agreed: &[u64], out: &mut [u8]) -> Answer
    ensures answer { result ≡ join_check (told version agreed.now) rec.now
        (length out.old) }
    ensures bytes { out.new ≡ if_accepted result
        (joined_in (named_by (get_or rec.now 0 0)) rec.now) out.old }
{
    barcode::check_list(agreed)?;
    joining::join(rec, version, agreed, out)
}

// Writes the record with these field bytes and amounts into the caller's buffer, as `judged::make` does, unless the
// list is refused: 25 comes before everything, whatever the record.
pub fn make(
    which: Record,
    given: &[u8],
    version: u64,
    first: u64,
    second: u64,
    agreed: &[u64],
    out: &mut [u8],
) -> Answer
    ensures answer { result ≡ make_check (told version agreed.now) which given.now
        (first ∷ second ∷ []) (length out.old) }
    ensures bytes { out.new ≡ if_accepted result
        (made_of (layout_of which) given.now (first ∷ second ∷ [])) out.old }
{
    barcode::check_list(agreed)?;
    judged::make(which, given, version, first, second, agreed, out)
}
