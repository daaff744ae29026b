// The field bytes of an accepted A or G, joined in record order (SPEC.md, "Field bytes").
ghost use Rattle.std.specs.Prelude.{None, Some};
ghost use Rattle.std.specs.Prelude.{◌≤◌, ◌≡◌, length, get_or};
ghost use Rattle.answer.specs.Orders.{if_accepted};
ghost use Rattle.decimal.specs.Places.{part_at};
ghost use Rattle.layout.specs.Layouts.{named_by, given_at, given_length, joined_of, InRecord};
ghost use Rattle.kinds.specs.Terms.{told};
ghost use Rattle.fields.specs.Making.{given_width};
ghost use Rattle.fields.specs.Joining.{is_given, named_join, join_answer, joined_in};

use crate::given::given_width;
use answer::{Answer, Reason, Refusal, require};
use layout::{Field, Record};

// A and G have field bytes; a Z is the writer's own.
fn is_given(which: Record) -> bool
    ensures { result ≡ is_given which }
{
    matches!(which, Record::Header | Record::Payment)
}

// The given part of one field.
fn join_field(f: Field, rec: &[u8; layout::LENGTH], out: &mut [u8])
    requires placed { (InRecord f) × ((given_at f).last ≤ f.last) }
    requires sized { length out.old ≡ given_width f }
    ensures { out.new ≡ part_at (given_at f) rec.now }
{
    let kind = f.kind;
    let before = f.first - 1;
    let part = layout::given_of(kind, f.last - before);
    out.copy_from_slice(&rec[before + part.from..before + part.to]);
}

// The given parts of all fields of a record, one after the other.
fn join_rows(which: Record, rec: &[u8; layout::LENGTH], out: &mut [u8])
    requires { length out.old ≡ given_length which }
    ensures { out.new ≡ joined_of which rec.now }
{
    let table = layout::table();
    let mut at = 0;
    let rows = layout::rows_of(which);
    for f in &table[rows.from..rows.to] {
        let next = at + given_width(*f);
        join_field(*f, rec, &mut out[at..next]);
        at = next;
    }
}

// The record that its first byte names: 9 for a Z, 1 unless the buffer has the length of its field bytes, then the
// record's own. A refusal leaves the buffer unchanged.
fn join_named(
    which: Record,
    rec: &[u8; layout::LENGTH],
    version: u64,
    agreed: &[u64],
    out: &mut [u8],
) -> Answer
    requires { named_by (get_or rec.now 0 0) ≡ Some which }
    ensures answer { result ≡ named_join (told version agreed.now) (Some which) rec.now
        (length out.old) }
    ensures bytes { out.new ≡ if_accepted result (joined_of which rec.now) out.old }
{
    require(is_given(which), Reason::NotExpected, 1)?;
    require(
        out.len() == layout::given_length(which),
        Reason::WrongLength,
        0,
    )?;
    record::judged::check(rec, version, agreed)?;
    join_rows(which, rec, out);
    Ok(())
}

// Under a list of agreed issuers that was judged: 1 for the record's length, 9 for a byte that names no record, then
// the answer of `join_named`.
#[tactic(auto, unfolding(crate::specs::Joining::join_answer))]
pub(crate) fn join(rec: &[u8], version: u64, agreed: &[u64], out: &mut [u8]) -> Answer
    ensures answer { result ≡ join_answer (told version agreed.now) rec.now
        (length out.old) }
    ensures bytes { out.new ≡ if_accepted result
        (joined_in (named_by (get_or rec.now 0 0)) rec.now) out.old }
{
    let rec = <&[u8; layout::LENGTH]>::try_from(rec).or(Err(Refusal {
        why: Reason::WrongLength,
        place: 0,
    }))?;
    match layout::named_by(rec[0]) {
        Some(which) => join_named(which, rec, version, agreed, out),
        None => Err(Refusal {
            why: Reason::NotExpected,
            place: 1,
        }),
    }
}
