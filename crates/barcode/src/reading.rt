// What 44 digits say, accepted or not: issuer, due date, all fields.
ghost use Rattle.std.specs.Prelude.{true, ◌≡◌};
ghost use Rattle.decimal.specs.Bytes.{is_of, all};
ghost use Rattle.barcode.specs.Codes.{issuer_of, free_of};
ghost use Rattle.barcode.specs.Agreed.{due_answer};
ghost use Rattle.barcode.specs.Shown.{fields_of};

use crate::{Fields, Issuer, agreed, parts};
use answer::Answer;
use decimal::Class;

pub(crate) fn issuer_of(code: &[u8; parts::LENGTH]) -> Issuer
    requires { all (is_of Class.Digit) code.now ≡ true }
    ensures { result ≡ issuer_of code.now }
{
    let segment = parts::digit(code, 1);
    let end = parts::issuer_end(segment);
    Issuer {
        segment,
        number: decimal::low_number(&code[15..end]),
    }
}

pub(crate) fn free_of(code: &[u8; parts::LENGTH]) -> &[u8]
    ensures { result.now ≡ free_of code.now }
{
    let end = parts::issuer_end(parts::digit(code, 1));
    &code[end..parts::LENGTH]
}

// 11 if the issuer is on the list and the free field does not start with a date. Under an empty list nothing is read.
pub(crate) fn check_due(code: &[u8; parts::LENGTH], agreed: &[u64]) -> Answer
    requires { all (is_of Class.Digit) code.now ≡ true }
    ensures { result ≡ due_answer agreed.now code.now }
{
    if agreed.is_empty() {
        return Ok(());
    }
    agreed::check_free(issuer_of(code), free_of(code), agreed)
}

pub(crate) fn fields_of(code: &[u8; parts::LENGTH], agreed: &[u64]) -> Fields
    requires { all (is_of Class.Digit) code.now ≡ true }
    ensures { result ≡ fields_of agreed.now code.now }
{
    let issuer = issuer_of(code);
    Fields {
        kind: parts::digit(code, 2),
        value: decimal::low_number(&code[4..15]),
        issuer,
        due: agreed::due_of(issuer, free_of(code), agreed),
    }
}
