// Exports for one record, without the order and the sums of its file.
ghost use Rattle.std.specs.Prelude.{◌≡◌, length, get_or};
ghost use Rattle.answer.specs.Orders.{if_accepted};
ghost use Rattle.layout.specs.Layouts.{named_by};
ghost use Rattle.kinds.specs.Terms.{told};
ghost use Rattle.record.specs.Records.{record_check};
ghost use Rattle.record.specs.Values.{decoded_record};
ghost use Rattle.fields.specs.Joining.{join_check, joined_in};
ghost use Rattle.hollytrot.specs.Forms.{c_answer_of, c_record_of, field_part};

use hollytrot::{CAnswer, CPart, CRecord};

#[unsafe(no_mangle)]
pub extern "C" fn hollytrot_record_check(rec: &[u8], version: u64, agreed: &[u64]) -> CAnswer
    ensures { result ≡ c_answer_of (record_check (told version agreed.now) rec.now) }
{
    hollytrot::hollytrot_record_check(rec, version, agreed)
}

#[unsafe(no_mangle)]
pub extern "C" fn hollytrot_record_decode(rec: &[u8], version: u64, agreed: &[u64]) -> CRecord
    ensures { result ≡ c_record_of (decoded_record (told version agreed.now) rec.now) }
{
    hollytrot::hollytrot_record_decode(rec, version, agreed)
}

#[unsafe(no_mangle)]
pub extern "C" fn hollytrot_record_field(
    rec: &[u8],
    version: u64,
    row: usize,
    agreed: &[u64],
) -> CPart
    ensures { result ≡ field_part (told version agreed.now) row rec.now }
{
    hollytrot::hollytrot_record_field(rec, version, row, agreed)
}

#[unsafe(no_mangle)]
pub extern "C" fn hollytrot_record_join(
    rec: &[u8],
    version: u64,
    agreed: &[u64],
    out: &mut [u8],
) -> CAnswer
    ensures answer { result
        ≡ c_answer_of
        (join_check (told version agreed.now) rec.now (length out.old)) }
    ensures bytes { out.new
        ≡ if_accepted (join_check (told version agreed.now) rec.now (length out.old))
        (joined_in (named_by (get_or rec.now 0 0)) rec.now) out.old }
{
    hollytrot::hollytrot_record_join(rec, version, agreed, out)
}
