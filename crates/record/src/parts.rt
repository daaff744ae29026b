// A field of a record, below the walk and the fast path: its bytes, by its name or by its row, its number, its date,
// its barcode.
ghost use Rattle.std.specs.Prelude.{◌≡◌, ◌≤◌, IfOk, eqb, length, get_or};
ghost use Rattle.answer.specs.Answers.{answer_of};
ghost use Rattle.answer.specs.Orders.{require};
ghost use Rattle.answer.specs.declared.Reason.TheVariants.{WrongLength};
ghost use Rattle.decimal.specs.LowHalves.{low_number_of};
ghost use Rattle.calendar.specs.Dates.{date_of};
ghost use Rattle.barcode.specs.Shown.{decoded_under};
ghost use Rattle.layout.specs.Layouts.{record_length, named_by, InRecord};
ghost use Rattle.record.specs.FastPath.{span_of};
ghost use Rattle.record.specs.Records.{field_bytes};
ghost use Rattle.record.specs.Values.{has_row, field_in};

use answer::{Reason, Refusal};
use barcode::Decoded as Barcoded;
use calendar::Date;
use layout::{Field, Record};

// The 150 bytes of a record; refused 1 for any other length. It is its own for the reason that barcode's `whole` gives.
pub(crate) fn whole(rec: &[u8]) -> Result<&[u8; layout::LENGTH], Refusal>
    ensures bytes { IfOk result (λ whole. whole.now ≡ rec.now) }
    ensures answer { answer_of result ≡ require (eqb (length rec.now) record_length) WrongLength 0 }
{
    <&[u8; layout::LENGTH]>::try_from(rec).or(Err(Refusal {
        why: Reason::WrongLength,
        place: 0,
    }))
}

// The bytes from the first of one field to the last of another, a part of the record and no copy. Being in the record
// is asked here and is no invariant of `Field`: a row past the table is a field too (`layout::row`).
pub(crate) fn span(rec: &[u8; layout::LENGTH], from: Field, to: Field) -> &[u8]
    requires { (InRecord from) × (InRecord to) × (from.first ≤ to.last) }
    ensures { result.now ≡ span_of from to rec.now }
{
    &rec[from.first - 1..to.last]
}

// A field's bytes.
pub(crate) fn field_bytes(rec: &[u8; layout::LENGTH], f: Field) -> &[u8]
    requires { InRecord f }
    ensures { result.now ≡ field_bytes f rec.now }
{
    span(rec, f, f)
}

// The number of a field of digits, at most 19 of them. Each byte counts by its low half, so the caller must know that
// they are digits: of other bytes it is some number.
pub(crate) fn number_in(rec: &[u8; layout::LENGTH], f: Field) -> u64
    requires { InRecord f }
    ensures { result ≡ low_number_of (field_bytes f rec.now) }
{
    decimal::low_number(field_bytes(rec, f))
}

// The date that a field spells, or none.
pub(crate) fn date_in(rec: &[u8; layout::LENGTH], f: Field) -> Option<Date>
    requires { InRecord f }
    ensures { result ≡ date_of (field_bytes f rec.now) }
{
    calendar::read_date(field_bytes(rec, f))
}

// A field's barcode, decoded or refused, under a list of agreed issuers that was judged.
pub(crate) fn barcode_in(rec: &[u8; layout::LENGTH], f: Field, agreed: &[u64]) -> Barcoded
    requires { InRecord f }
    ensures { result ≡ decoded_under agreed.now (field_bytes f rec.now) }
{
    barcode::judged::decode(field_bytes(rec, f), agreed)
}

// Whether a row of the table is one of the record that a first byte names.
fn has_row(named: Option<Record>, row: usize) -> bool
    ensures { result ≡ has_row named row }
{
    match named {
        Some(which) => {
            let rows = layout::rows_of(which);
            rows.from <= row && row < rows.to
        }
        None => false,
    }
}

// The bytes at a row of the named record; none for a row of another record or past the table.
pub(crate) fn field_of_row(rec: &[u8; layout::LENGTH], row: usize) -> &[u8]
    ensures { result.now ≡ field_in (named_by (get_or rec.now 0 0)) row rec.now }
{
    if has_row(layout::named_by(rec[0]), row) {
        field_bytes(rec, layout::row(row))
    } else {
        &rec[0..0]
    }
}
