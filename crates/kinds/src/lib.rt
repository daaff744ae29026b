// What each kind of field may hold (SPEC.md, "Records" and "Field bytes").
#![tactic(auto)]

mod versions;

ghost use Rattle.std.specs.Prelude.{◌≡◌, [], ◌∷◌, get_or};
ghost use Rattle.kinds.specs.Terms.{told};
ghost use Rattle.kinds.specs.Kinds.{same, is_version_text, service_of, is_spelling, is_service};
ghost use Rattle.kinds.specs.Kinds.{date_answer, kind_answer};

use answer::{Answer, Reason, Refusal, require};
use decimal::Class;
use layout::Kind;
pub use versions::{check_version, is_capture, is_form};

// Whether two slices have the same bytes.
pub fn same_bytes(a: &[u8], b: &[u8]) -> bool
    ensures { result ≡ same a.now b.now }
{
    a == b
}

// The byte at an index; 0 past the end.
pub fn byte_at(part: &[u8], i: usize) -> u8
    ensures { result ≡ get_or part.now i 0 }
{
    if i < part.len() { part[i] } else { 0 }
}

// Whether a field is this one byte.
fn is_mark(part: &[u8], byte: u8) -> bool
    ensures { result ≡ same part.now (byte ∷ []) }
{
    same_bytes(part, &[byte])
}

// Whether a field is the two digits of a version, 04 or 06.
fn is_version_text(part: &[u8]) -> bool
    ensures { result ≡ is_version_text part.now }
{
    if part.len() != 2 {
        return false;
    }
    if !decimal::all_of(Class::Digit, part) {
        return false;
    }
    versions::is_version(decimal::number(part))
}

const SERVICE: [u8; 17] = *b"CODIGO DE BARRAS ";

// The 17 bytes of the service field with this second byte, which in a right field is O with or without its accent.
pub fn service(second: u8) -> [u8; 17]
    ensures { result ≡ service_of second }
{
    let mut service = SERVICE;
    service[1] = second;
    service
}

// Whether the second byte of the service field is one of its two spellings, O and the accented O of ISO 8859-1.
fn is_spelling(second: u8) -> bool
    ensures { result ≡ is_spelling second }
{
    second == 79 || second == 211
}

// Whether a field is the service field in one of its two spellings.
#[tactic(auto, unfolding(crate::specs::Kinds::is_service))]
fn is_service(part: &[u8]) -> bool
    ensures { result ≡ is_service part.now }
{
    let second = byte_at(part, 1);
    is_spelling(second) && same_bytes(part, &service(second))
}

// A date is accepted at once; only what is none is searched for a byte that is no digit.
#[tactic(auto, using(crate::proofs::KindLaws::date_accepted), unfolding(crate::specs::Kinds::date_answer))]
fn check_date(part: &[u8]) -> Answer
    ensures { result ≡ date_answer part.now }
{
    if calendar::read_date(part).is_some() {
        return Ok(());
    }
    decimal::require_class(Class::Digit, Reason::NoDigit, part)?;
    Err(Refusal {
        why: Reason::NoDate,
        place: 1,
    })
}

// The first refusal of a field's bytes under its kind, with its place in the field; accepted where there is none. Text,
// digits, money and blanks may have any width, capture and form go by the first byte and the version, the other kinds
// have one width. A barcode is asked for its due date by the list of agreed issuers, which was judged: it is never
// refused 25 here. Version and list travel together, here and above, as two parameters: a struct that borrows the list
// would be taken apart in every clause, `told terms.version terms.agreed.now`.
#[tactic(auto, unfolding(crate::specs::Kinds::kind_answer))]
pub fn check(kind: Kind, part: &[u8], version: u64, agreed: &[u64]) -> Answer
    ensures { result ≡ kind_answer (told version agreed.now) kind part.now }
{
    match kind {
        Kind::Mark(byte) => require(is_mark(part, byte), Reason::FixedDiffers, 1),
        Kind::Version => require(is_version_text(part), Reason::FixedDiffers, 1),
        Kind::Service => require(is_service(part), Reason::FixedDiffers, 1),
        Kind::Blank => require(decimal::all_of(Class::Blank, part), Reason::FixedDiffers, 1),
        Kind::Text => decimal::require_class(Class::Text, Reason::NoText, part),
        Kind::Digits => decimal::require_class(Class::Digit, Reason::NoDigit, part),
        Kind::Money => decimal::require_class(Class::Digit, Reason::NoDigit, part),
        Kind::Date => check_date(part),
        Kind::Barcode => barcode::judged::check(part, agreed),
        Kind::Capture => require(
            is_capture(byte_at(part, 0), version),
            Reason::UnknownCode,
            1,
        ),
        Kind::Form => require(is_form(byte_at(part, 0), version), Reason::UnknownCode, 1),
    }
}
