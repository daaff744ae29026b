// A barcode built from its fields (SPEC.md, "Builder").
ghost use Rattle.std.specs.Prelude.{◌≡◌, ◌≤◌, length, drop, ◌∷◌, ◌++◌};
ghost use Rattle.answer.specs.Answers as answers;
ghost use Rattle.barcode.specs.Codes.{code_length, general_check};
ghost use Rattle.barcode.specs.Building.{head_of, code_with, built_of, build_answer, build_check, built_into};

use crate::{Issuer, agreed, parts};
use answer::{Answer, Reason, require};
use decimal::Class;

// The builder's checks after that of the buffer's length, in their order. Places are those in the barcode.
#[tactic(auto, unfolding(crate::specs::Building::build_answer))]
fn check_fields(issuer: Issuer, kind: u64, value: u64, free: &[u8]) -> Answer
    ensures { result ≡ build_answer code_length issuer kind value free.now }
{
    require(parts::is_segment(issuer.segment), Reason::UnknownSegment, 2)?;
    require(parts::is_kind(kind), Reason::UnknownKind, 3)?;
    let end = parts::issuer_end(issuer.segment);
    let width = parts::issuer_width(issuer.segment);
    require(free.len() == parts::LENGTH - end, Reason::WrongLength, 0)?;
    require(decimal::fits_width(value, 11), Reason::TooWide, 5)?;
    require(
        decimal::fits_width(issuer.number, width),
        Reason::TooWide,
        16,
    )?;
    answer::behind(
        decimal::require_class(Class::Digit, Reason::NoDigit, free),
        end,
    )
}

// Places 1 to 4, with 0 for the check.
fn put_head(segment: u64, kind: u64, code: &mut [u8; parts::LENGTH])
    requires { (segment ≤ 9) × (kind ≤ 9) }
    ensures { code.new ≡ head_of segment kind ++ 48 ∷ drop 4 code.old }
{
    code[0] = 56;
    code[1] = (48 + segment) as u8;
    code[2] = (48 + kind) as u8;
    code[3] = 48;
}

// The digits of all fields, with 0 for the check.
fn put_fields(issuer: Issuer, kind: u64, value: u64, free: &[u8], code: &mut [u8; parts::LENGTH])
    requires { build_answer code_length issuer kind value free.now ≡ answers.Accepted }
    ensures { code.new ≡ code_with 0 issuer kind value free.now }
{
    let width = parts::issuer_width(issuer.segment);
    put_head(issuer.segment, kind, code);
    let _ = decimal::put_number(value, 11, code, 4);
    let _ = decimal::put_number(issuer.number, width, code, 15);
    decimal::put(free, code, 15 + width);
}

// The check digit of the 43 digits without place 4.
fn general_check(code: &[u8; parts::LENGTH]) -> u64
    ensures value { result ≡ general_check code.now }
    ensures small { result ≤ 9 }
{
    let m = parts::modulus_of_kind(parts::digit(code, 2));
    let left = modulus::weighted_remainder(m, &code[0..3], 40);
    let right = modulus::weighted_remainder(m, &code[4..parts::LENGTH], 0);
    modulus::digit_of_remainder(m, modulus::remainder(m, left + right))
}

// The barcode with its check.
fn built_of(issuer: Issuer, kind: u64, value: u64, free: &[u8]) -> [u8; parts::LENGTH]
    requires { build_answer code_length issuer kind value free.now ≡ answers.Accepted }
    ensures { result ≡ built_of issuer kind value free.now }
{
    let mut code = [48u8; parts::LENGTH];
    put_fields(issuer, kind, value, free, &mut code);
    let check = general_check(&code);
    code[3] = (48 + check) as u8;
    code
}

// The builder's checks: the list, the buffer's length, the fields, then the due date of an issuer on the list.
#[tactic(auto, unfolding(crate::specs::Building::build_answer))]
fn check_call(
    issuer: Issuer,
    kind: u64,
    value: u64,
    free: &[u8],
    agreed: &[u64],
    size: usize,
) -> Answer
    ensures { result ≡ build_check agreed.now size issuer kind value free.now }
{
    agreed::check_list(agreed)?;
    require(size == parts::LENGTH, Reason::WrongLength, 0)?;
    check_fields(issuer, kind, value, free)?;
    agreed::check_free(issuer, free, agreed)
}

// Builds the barcode with its general check into the caller's buffer of 44 bytes. A refusal leaves the buffer as it
// was; its place is a place in the barcode, and 0 for a wrong list, a wrong length of the buffer or of the free field.
pub fn build(
    issuer: Issuer,
    kind: u64,
    value: u64,
    free: &[u8],
    agreed: &[u64],
    out: &mut [u8],
) -> Answer
    ensures answer { result ≡ build_check agreed.now (length out.old) issuer kind value
        free.now }
    ensures bytes { out.new ≡ built_into result issuer kind value free.now out.old }
{
    check_call(issuer, kind, value, free, agreed, out.len())?;
    out.copy_from_slice(&built_of(issuer, kind, value, free));
    Ok(())
}
