// The fast path: whether a barcode passes its checks, in one pass over its digits. Of any other it says nothing more:
// `first_refusal` in in_order.rt then finds the reason and its place.
//
// The two must change together: what `is_accepted` refuses and `first_refusal` does not look for would be called a
// wrong general check. The contracts of both cite one definition, `barcode_answer`; the laws that tie this path to it
// are in proofs/OnePass.antt, those of `first_refusal` in proofs/Codes.antt.
//
// Two things are not as in the specification's order. Places 5 to 44 are tested and summed in one go, by
// `modulus::sums_of_forty`. Places 1 to 4 are not tested for digits: a byte that is none has the value 0, which is no
// product, segment or value kind, and the fourth must equal a check digit.
ghost use Rattle.std.specs.Prelude.{true, ◌↔◌, ◌≡◌, take, drop};
ghost use Rattle.answer.specs.Answers as answers;
ghost use Rattle.modulus.specs.Checks.{weighted_sum};
ghost use Rattle.barcode.specs.Codes.{digit_at, modulus_of, general_right, barcode_answer};

use crate::parts;
use modulus::Modulus;

// A byte as a number.
fn wide(b: u8) -> u64
    ensures { result ≡ b }
{
    b as u64
}

// Whether the general check is right, from the sum of the forty digits behind it.
fn is_general_check_right(m: Modulus, code: &[u8; parts::LENGTH], sum: u64) -> bool
    requires named { m ≡ modulus_of (digit_at 3 code.now) }
    requires summed { sum ≡ weighted_sum m 0 (take 40 (drop 4 code.now)) }
    ensures { result ≡ general_right code.now }
{
    let left = modulus::weighted_remainder(m, &code[0..3], 40);
    wide(code[3]) == 48 + modulus::digit_of_remainder(m, modulus::remainder(m, left + sum))
}

// Whether all checks of a barcode hold.
pub(crate) fn is_accepted(code: &[u8; parts::LENGTH]) -> bool
    ensures { (result ≡ true) ↔ (barcode_answer code.now ≡ answers.Accepted) }
{
    if parts::check_first_three(code).is_err() {
        return false;
    }
    let Some(sums) = modulus::sums_of_forty(&code[4..parts::LENGTH]) else {
        return false;
    };
    match parts::modulus_of_kind(parts::digit(code, 2)) {
        Modulus::Ten => is_general_check_right(Modulus::Ten, code, sums.ten),
        Modulus::Eleven => is_general_check_right(Modulus::Eleven, code, sums.eleven),
    }
}
