// The fast path for G: it recognizes an accepted G, exactly, and reads it. It finds no refusal; what it does not
// recognize goes to the check in order (walk.rt).
//
// It mirrors the walk along layout's rows of G (SPEC.md, "Records"), but checks neighbouring fields of one class at
// once: `is_plain` texts, digits and blanks, `is_coded` capture and payment form, `is_dated` or `date_in` the dates,
// `accepted_issuer` or `barcode_in` the barcode. What must change together:
// - A row of G moves, appears or gets another kind (layout::g): the three functions above, their definitions in
//   specs/FastPath.antt, and the places in proofs/Exact.antt (`holds`, `seen`). A span keeps from 16 to 32 bytes.
// - A kind gets another rule (kinds::check): what checks that kind here, and its law in proofs/KindRules.antt. The
//   capture is checked as text too, since it is inside the span from branch to authentication: each code must be text
//   (`capture_is_text`). The version itself is not checked: a number that is no version has no captures
//   (`capture_has_version`).
// The proof that ties the two is proofs/Exact.antt: `accepted_payment` is `payment_due_of` and `decode_payment` is
// `fast_decoded_of`, both of `decoded_record_under t rec`, which is defined by the walk's answer.
ghost use Rattle.std.specs.Prelude.{◌-◌, ◌≤◌, cond, ◌≡◌, length, take, drop};
ghost use Rattle.layout.specs.Layouts.{record_length, named_by, InRecord};
ghost use Rattle.kinds.specs.Terms.{told};
ghost use Rattle.record.specs.Records.{is_payment};
ghost use Rattle.record.specs.Values.{decoded_record_under, payment_due_of};
ghost use Rattle.record.specs.FastPath.{column_holds, SixteenEach, rows_hold, parts_hold, TwoRows, span_of};
ghost use Rattle.record.specs.FastPath.{is_plain, is_coded, is_dated, looks_like_payment, fast_decoded_of};

use crate::{Payment, PaymentDue, parts};
use decimal::Class;
use layout::{Field, Record, g};

// 0 if the first four bytes are text and the last two are digits, else 1.
fn column_error_bit(a: u8, b: u8, c: u8, d: u8, e: u8, f: u8) -> u8
    ensures { result ≡ cond (column_holds a b c d e f) 0 1 }
{
    (decimal::class_error_bit(Class::Text, a) | decimal::class_error_bit(Class::Text, b))
        | ((decimal::class_error_bit(Class::Text, c) | decimal::class_error_bit(Class::Text, d))
            | (decimal::class_error_bit(Class::Digit, e)
                | decimal::class_error_bit(Class::Digit, f)))
}

// Four rows of text and two of digits, sixteen bytes each, under one flag. No early exit, so the loop vectorizes. The
// rows are cut by their ends, so they are slices and no arrays.
fn rows_hold(a: &[u8], b: &[u8], c: &[u8], d: &[u8], e: &[u8], f: &[u8]) -> bool
    requires { SixteenEach a.now b.now c.now d.now e.now f.now }
    ensures { result ≡ rows_hold a.now b.now c.now
        d.now e.now f.now }
{
    let mut flags: u8 = 0;
    for i in 0..16 {
        flags |= column_error_bit(a[i], b[i], c[i], d[i], e[i], f[i]);
    }
    flags == 0
}

fn first_row(part: &[u8]) -> &[u8]
    requires { 16 ≤ length part.now }
    ensures { (result.now ≡ take 16 part.now) × (length result.now ≡ 16) }
{
    &part[0..16]
}

fn last_row(part: &[u8]) -> &[u8]
    requires { 16 ≤ length part.now }
    ensures { (result.now ≡ drop (length part.now - 16) part.now)
        × (length result.now ≡ 16) }
{
    &part[part.len() - 16..]
}

// Two texts and one part of digits. Each has from 16 to 32 bytes, so its first sixteen and its last sixteen cover it.
fn parts_hold(text: &[u8], other: &[u8], digits: &[u8]) -> bool
    requires text_rows { TwoRows text.now }
    requires other_rows { TwoRows other.now }
    requires digit_rows { TwoRows digits.now }
    ensures { result ≡ parts_hold text.now other.now digits.now }
{
    rows_hold(
        first_row(text),
        last_row(text),
        first_row(other),
        last_row(other),
        first_row(digits),
        last_row(digits),
    )
}

// Texts, with the capture between them; digits; blanks.
fn is_plain(rec: &[u8; layout::LENGTH]) -> bool
    ensures { result ≡ is_plain rec.now }
{
    let behind = parts::span(rec, g::BRANCH, g::AUTHENTICATION);
    let numbers = parts::span(rec, g::RECEIVED, g::NUMBER);
    if !parts_hold(parts::field_bytes(rec, g::ACCOUNT), behind, numbers) {
        return false;
    }
    decimal::all_of(Class::Blank, parts::field_bytes(rec, g::BLANK))
}

// Capture and payment form are codes of the version. A number that is no version has no codes, so this tests the
// version too.
fn is_coded(rec: &[u8; layout::LENGTH], version: u64) -> bool
    ensures { result ≡ is_coded version rec.now }
{
    if !kinds::is_capture(
        kinds::byte_at(parts::field_bytes(rec, g::CAPTURE), 0),
        version,
    ) {
        return false;
    }
    kinds::is_form(kinds::byte_at(parts::field_bytes(rec, g::FORM), 0), version)
}

// Both dates are dates.
fn is_dated(rec: &[u8; layout::LENGTH]) -> bool
    ensures { result ≡ is_dated rec.now }
{
    if !calendar::is_date_text(parts::field_bytes(rec, g::PAID)) {
        return false;
    }
    calendar::is_date_text(parts::field_bytes(rec, g::CREDITED))
}

// Whether a first byte names G.
fn is_payment(mark: u8) -> bool
    ensures { result ≡ is_payment (named_by mark) }
{
    matches!(layout::named_by(mark), Some(Record::Payment))
}

// All fields of a G but its dates and its barcode.
fn looks_like_payment(rec: &[u8; layout::LENGTH], version: u64) -> bool
    ensures { result ≡ looks_like_payment version rec.now }
{
    if !is_payment(rec[0]) {
        return false;
    }
    if !is_plain(rec) {
        return false;
    }
    is_coded(rec, version)
}

// The issuer, the centavos received and the tariff of an accepted G; none for every other record.
fn due_of(rec: &[u8; layout::LENGTH], version: u64, agreed: &[u64]) -> Option<PaymentDue>
    ensures { result ≡ payment_due_of (decoded_record_under (told version agreed.now) rec.now) }
{
    if !looks_like_payment(rec, version) {
        return None;
    }
    if !is_dated(rec) {
        return None;
    }
    let issuer = barcode::judged::accepted_issuer(parts::field_bytes(rec, g::BARCODE), agreed)?;
    let received = parts::number_in(rec, g::RECEIVED);
    let tariff = parts::number_in(rec, g::TARIFF);
    Some(PaymentDue {
        issuer,
        received,
        tariff,
    })
}

// The same of any length.
pub(crate) fn accepted_payment(rec: &[u8], version: u64, agreed: &[u64]) -> Option<PaymentDue>
    ensures { result ≡ payment_due_of (decoded_record_under (told version agreed.now) rec.now) }
{
    due_of(parts::whole(rec).ok()?, version, agreed)
}

// All that an accepted G shows; none for every other record.
fn payment_of(rec: &[u8; layout::LENGTH], version: u64, agreed: &[u64]) -> Option<Payment>
    ensures { result ≡ fast_decoded_of (decoded_record_under (told version agreed.now) rec.now) }
{
    if !looks_like_payment(rec, version) {
        return None;
    }
    Some(Payment {
        paid: parts::date_in(rec, g::PAID)?,
        credited: parts::date_in(rec, g::CREDITED)?,
        barcode: parts::barcode_in(rec, g::BARCODE, agreed).ok()?,
        received: parts::number_in(rec, g::RECEIVED),
        tariff: parts::number_in(rec, g::TARIFF),
        number: parts::number_in(rec, g::NUMBER),
    })
}

// The same of any length.
pub(crate) fn decode_payment(rec: &[u8], version: u64, agreed: &[u64]) -> Option<Payment>
    ensures { result ≡ fast_decoded_of (decoded_record_under (told version agreed.now) rec.now) }
{
    payment_of(parts::whole(rec).ok()?, version, agreed)
}
