// Exports for one record, without the order and the sums of its file.
ghost use Rattle.std.specs.Prelude.{◌≡◌, length, get_or};
ghost use Rattle.answer.specs.Orders.{if_accepted};
ghost use Rattle.layout.specs.Layouts.{named_by};
ghost use Rattle.kinds.specs.Terms.{told};
ghost use Rattle.record.specs.Records.{record_check};
ghost use Rattle.record.specs.Values.{decoded_record};
ghost use Rattle.fields.specs.Joining.{join_check, joined_in};
ghost use Rattle.hollytrot.specs.Forms.{c_answer_of, c_record_of, field_part};

use crate::{CAnswer, CPart, CRecord, forms};

// Accepted, or the first refusal: that of the list, then the record's. Any length; all but 150 bytes are refused. The
// version is that of the record's file, 4 or 6: a G that is told any other number is refused 10 at 80, an A or a Z
// ignores it.
#[unsafe(no_mangle)]
pub extern "C" fn hollytrot_record_check(rec: &[u8], version: u64, agreed: &[u64]) -> CAnswer
    ensures { result ≡ c_answer_of (record_check (told version agreed.now) rec.now) }
{
    CAnswer::from(record::check(rec, version, agreed))
}

// The same answer, with the values of an accepted record.
#[unsafe(no_mangle)]
pub extern "C" fn hollytrot_record_decode(rec: &[u8], version: u64, agreed: &[u64]) -> CRecord
    ensures { result ≡ c_record_of (decoded_record (told version agreed.now) rec.now) }
{
    CRecord::from(record::decode(rec, version, agreed))
}

// Where a field of an accepted record is, by its row in the table of fields. The empty part if the record or the list
// is refused, if the row is another record's, and past the table.
#[unsafe(no_mangle)]
pub extern "C" fn hollytrot_record_field(
    rec: &[u8],
    version: u64,
    row: usize,
    agreed: &[u64],
) -> CPart
    ensures { result ≡ field_part (told version agreed.now) row rec.now }
{
    let field = record::field(rec, version, row, agreed);
    let length = field.len();
    let shape = layout::row(row);
    forms::c_part(shape.first - 1, length)
}

// Joins the fields of an accepted A into 80 bytes, or of an accepted G into 121, as the writer takes them. A refusal
// leaves `out` as it was.
#[unsafe(no_mangle)]
pub extern "C" fn hollytrot_record_join(
    rec: &[u8],
    version: u64,
    agreed: &[u64],
    out: &mut [u8],
) -> CAnswer
    ensures answer { result
        ≡ c_answer_of
        (join_check (told version agreed.now) rec.now (length out.old)) }
    ensures bytes { out.new
        ≡ if_accepted (join_check (told version agreed.now) rec.now (length out.old))
        (joined_in (named_by (get_or rec.now 0 0)) rec.now) out.old }
{
    CAnswer::from(fields::join(rec, version, agreed, out))
}
