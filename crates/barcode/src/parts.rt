// What the checks in order, the fast path and the builder share: a barcode's length, its first digits and the places of
// the issuer (SPEC.md, "Barcode").
ghost use Rattle.std.specs.Prelude.{◌≡◌, ◌≤◌, IfOk, eqb, length, get_or};
ghost use Rattle.answer.specs.Answers.{answer_of};
ghost use Rattle.answer.specs.Orders.{require};
ghost use Rattle.answer.specs.declared.Reason.TheVariants.{WrongLength};
ghost use Rattle.decimal.specs.Numbers.{value_of};
ghost use Rattle.decimal.specs.Places.{width_of};
ghost use Rattle.barcode.specs.Codes.{code_length, is_segment, is_kind, modulus_of, issuer, issuer_end};
ghost use Rattle.barcode.specs.Codes.{first_three_answer, prefix_answer};

use answer::{Answer, Reason, Refusal, require};
use decimal::Class;
use modulus::Modulus;

// The bytes of a barcode.
pub const LENGTH: usize = 44;

// The 44 bytes of a barcode; refused 1 for any other length. Line and record have one of their own: a generic one in a
// crate below would be public, and need a promise for every length (`OneOutcome`), for one line of code.
pub(crate) fn whole(code: &[u8]) -> Result<&[u8; LENGTH], Refusal>
    ensures same { IfOk result (λ whole. whole.now ≡ code.now) }
    ensures answer { answer_of result ≡ require (eqb (length code.now) code_length) WrongLength 0 }
{
    <&[u8; LENGTH]>::try_from(code).or(Err(Refusal {
        why: Reason::WrongLength,
        place: 0,
    }))
}

pub(crate) fn is_segment(segment: u64) -> bool
    ensures { result ≡ is_segment segment }
{
    if segment == 9 {
        return true;
    }
    1 <= segment && segment <= 7
}

pub(crate) fn is_kind(kind: u64) -> bool
    ensures { result ≡ is_kind kind }
{
    6 <= kind && kind <= 9
}

// The modulus that a value kind names: 6 and 7 name 10, 8 and 9 name 11. What is no value kind names 10 below 6 and 11
// above 9.
pub fn modulus_of_kind(kind: u64) -> Modulus
    ensures { result ≡ modulus_of kind }
{
    if kind <= 7 {
        Modulus::Ten
    } else {
        Modulus::Eleven
    }
}

// How many digits the issuer's number has in a barcode: 4, in segment 6 the 8 of the CNPJ. Any number is taken; only 6
// differs.
pub fn issuer_width(segment: u64) -> usize
    ensures { result ≡ width_of (issuer segment) }
{
    if segment == 6 { 8 } else { 4 }
}

// The index behind the issuer's number, where the free field starts.
pub(crate) fn issuer_end(segment: u64) -> usize
    ensures value { result ≡ issuer_end segment }
    ensures range { (19 ≤ result) × (result ≤ 23) }
{
    15 + issuer_width(segment)
}

// The value of the digit at an index; 0 for a byte that is no digit, and past the end.
pub(crate) fn digit(l: &[u8], i: usize) -> u64
    ensures { result ≡ value_of (get_or l.now i 0) }
{
    if i < l.len() { decimal::value(l[i]) } else { 0 }
}

// Product, segment and value kind: refusals 3, 4 and 5.
#[tactic(auto, unfolding(crate::specs::Codes::first_three_answer))]
pub(crate) fn check_first_three(l: &[u8]) -> Answer
    ensures { result ≡ first_three_answer l.now }
{
    require(digit(l, 0) == 8, Reason::WrongProduct, 1)?;
    require(is_segment(digit(l, 1)), Reason::UnknownSegment, 2)?;
    require(is_kind(digit(l, 2)), Reason::UnknownKind, 3)
}

// The checks that a barcode and a typed line begin with, whatever the length: that every byte is a digit (2), then
// product, segment and value kind (3, 4, 5). A byte that is missing is refused as if it were 0.
pub fn check_prefix(l: &[u8]) -> Answer
    ensures { result ≡ prefix_answer l.now }
{
    decimal::require_class(Class::Digit, Reason::NoDigit, l)?;
    check_first_three(l)
}
