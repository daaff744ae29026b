// A record made from its field bytes and amounts, along layout's table (SPEC.md, "Field bytes").
ghost use Rattle.std.specs.Prelude.{◌+◌, ◌≤◌, false, cond, [], ◌∷◌, ◌≡◌, length, get_or, replicate};
ghost use Rattle.answer.specs.Answers as answers;
ghost use Rattle.answer.specs.Orders.{◌then◌};
ghost use Rattle.layout.specs.Layouts.{layout_of, given_length};
ghost use Rattle.kinds.specs.Terms.{told, version_answer};
ghost use Rattle.kinds.specs.Kinds.{service_of};
ghost use Rattle.fields.specs.Making.{written_of, is_money, written_answer, made_of, making_answer};

use crate::given::given_width;
use answer::Answer;
use layout::{Kind, Record};

// Whether a field is written from an amount.
fn is_money(kind: Kind) -> bool
    ensures { result ≡ is_money kind }
{
    matches!(kind, Kind::Money)
}

// This and the next take a part that is cut by its ends, and no array: a conversion would bring a case that nothing can
// reach.
fn put_mark(byte: u8, out: &mut [u8])
    requires { length out.old ≡ 1 }
    ensures { out.new ≡ byte ∷ [] }
{
    out.copy_from_slice(&[byte]);
}

// The service field with the given second byte, 0 where none is given.
fn put_service(given: &[u8], out: &mut [u8])
    requires { length out.old ≡ 17 }
    ensures { out.new ≡ service_of (get_or given.now 0 0) }
{
    let spelled = kinds::service(kinds::byte_at(given, 0));
    out.copy_from_slice(&spelled);
}

fn put_blanks(out: &mut [u8])
    ensures { out.new ≡ replicate (length out.old) 32 }
{
    out.fill(32);
}

// Writes a field that is no amount: what is fixed, else the bytes given for it.
fn put_bytes(kind: Kind, given: &[u8], out: &mut [u8])
    requires no_amount { is_money kind ≡ false }
    requires sized { length (written_of kind (length out.old) given.now 0) ≡ length out.old }
    ensures { out.new ≡ written_of kind (length out.old) given.now 0 }
{
    match kind {
        Kind::Mark(byte) => put_mark(byte, out),
        Kind::Service => put_service(given, out),
        Kind::Blank => put_blanks(out),
        Kind::Money => {}
        Kind::Version
        | Kind::Text
        | Kind::Digits
        | Kind::Date
        | Kind::Barcode
        | Kind::Capture
        | Kind::Form => out.copy_from_slice(given),
    }
}

// Writes a field and then checks what was written, by the reader's own check of the kind: an amount can only be too
// wide, 21. After a refusal the field's bytes are unspecified.
fn put_field(
    kind: Kind,
    given: &[u8],
    version: u64,
    amount: u64,
    agreed: &[u64],
    out: &mut [u8],
) -> Answer
    requires { length (written_of kind (length out.old) given.now amount) ≡ length out.old }
    ensures answer { result ≡ written_answer (told version agreed.now) kind (length out.old)
        given.now amount }
    ensures bytes { result ≡ answers.Accepted
        → out.new ≡ written_of kind (length out.old) given.now amount }
{
    if is_money(kind) {
        return decimal::put_number(amount, out.len(), out, 0);
    }
    put_bytes(kind, given, out);
    kinds::check(kind, out, version, agreed)
}

// The next of two amounts, and after them 0.
fn amount_at(used: usize, first: u64, second: u64) -> u64
    ensures { result ≡ get_or (first ∷ second ∷ []) used 0 }
{
    [first, second].get(used).copied().unwrap_or(0)
}

// How many amounts are used after a field of this kind.
fn used_after(kind: Kind, used: usize) -> usize
    requires { used ≤ 28 }
    ensures { result ≡ cond (is_money kind) (used + 1) used }
{
    if is_money(kind) { used + 1 } else { used }
}

// Makes the record field by field, up to the first refusal, with its place in the record; then the bytes made are
// unspecified.
fn make_rows(
    which: Record,
    given: &[u8],
    version: u64,
    first: u64,
    second: u64,
    agreed: &[u64],
    made: &mut [u8; layout::LENGTH],
) -> Answer
    requires { length given.now ≡ given_length which }
    ensures answer { result ≡ making_answer (told version agreed.now) (layout_of which) given.now
        (first ∷ second ∷ []) }
    ensures bytes { result ≡ answers.Accepted
        → made.new ≡ made_of (layout_of which) given.now (first ∷ second ∷ []) }
{
    let table = layout::table();
    let rows = layout::rows_of(which);
    let mut done = 0;
    let mut at = 0;
    let mut used = 0;
    for f in &table[rows.from..rows.to] {
        let kind = f.kind;
        let end = f.last;
        let next = at + given_width(*f);
        let amount = amount_at(used, first, second);
        let part = &given[at..next];
        let field = &mut made[done..end];
        if let Err(refusal) = put_field(kind, part, version, amount, agreed, field) {
            return Err(refusal.behind(done));
        }
        used = used_after(kind, used);
        at = next;
        done = end;
    }
    Ok(())
}

// Makes the record: 10 for a G under a number other than 4 and 6, then field by field. After a refusal the bytes made
// are unspecified.
pub(crate) fn make_named(
    which: Record,
    given: &[u8],
    version: u64,
    first: u64,
    second: u64,
    agreed: &[u64],
    made: &mut [u8; layout::LENGTH],
) -> Answer
    requires { length given.now ≡ given_length which }
    ensures answer { result ≡ version_answer version which then making_answer (told version agreed.now)
        (layout_of which) given.now (first ∷ second ∷ []) }
    ensures bytes { result ≡ answers.Accepted
        → made.new ≡ made_of (layout_of which) given.now (first ∷ second ∷ []) }
{
    kinds::check_version(which, version)?;
    make_rows(which, given, version, first, second, agreed, made)
}
