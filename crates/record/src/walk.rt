// The check in order: a record's fields from left to right along layout's table (SPEC.md, "Records"). Every refusal of
// a record and its place comes from here; fast.rt only recognizes an accepted G.
ghost use Rattle.std.specs.Prelude.{◌≡◌, Some};
ghost use Rattle.layout.specs.Layouts.{InRecord};
ghost use Rattle.kinds.specs.Terms.{told};
ghost use Rattle.record.specs.Records.{field_answer, layout_answer, named_answer, record_answer};

use crate::parts;
use answer::{Answer, Reason, Refusal, require};
use layout::{Field, Record};

// A field checked by its kind, with places of the record.
fn field_answer(rec: &[u8; layout::LENGTH], version: u64, agreed: &[u64], f: Field) -> Answer
    requires { InRecord f }
    ensures { result ≡ field_answer (told version agreed.now) rec.now f }
{
    let kind = f.kind;
    let answer = kinds::check(kind, parts::field_bytes(rec, f), version, agreed);
    answer::behind(answer, f.first - 1)
}

// The first refusal among the fields of a layout.
fn layout_answer(which: Record, rec: &[u8; layout::LENGTH], version: u64, agreed: &[u64]) -> Answer
    ensures { result ≡ layout_answer (told version agreed.now) which rec.now }
{
    let table = layout::table();
    let rows = layout::rows_of(which);
    for f in &table[rows.from..rows.to] {
        field_answer(rec, version, agreed, *f)?;
    }
    Ok(())
}

// The answer to 150 bytes that name a record: 10 for a G that is told a number other than 4 and 6, then its fields.
fn named_answer(which: Record, rec: &[u8; layout::LENGTH], version: u64, agreed: &[u64]) -> Answer
    ensures { result ≡ named_answer (told version agreed.now) (Some which) rec.now }
{
    kinds::check_version(which, version)?;
    layout_answer(which, rec, version, agreed)
}

// The answer to a record alone, of any length: 1 unless it has 150 bytes, 9 unless it is A, G or Z, then the answer of
// `named_answer`.
#[tactic(auto, unfolding(crate::specs::Records::record_answer))]
pub(crate) fn check_in_order(rec: &[u8], version: u64, agreed: &[u64]) -> Answer
    ensures { result ≡ record_answer (told version agreed.now) rec.now }
{
    check_whole(parts::whole(rec)?, version, agreed)
}

// The same of a record that has 150 bytes.
#[tactic(auto, unfolding(crate::specs::Records::record_answer))]
pub(crate) fn check_whole(rec: &[u8; layout::LENGTH], version: u64, agreed: &[u64]) -> Answer
    ensures { result ≡ record_answer (told version agreed.now) rec.now }
{
    let which = layout::named_by(rec[0]).ok_or(Refusal {
        why: Reason::NotExpected,
        place: 1,
    })?;
    named_answer(which, rec, version, agreed)
}
