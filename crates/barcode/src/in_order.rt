// The first refusal of a barcode, by the checks in their order (SPEC.md, "Refusals"). It is looked for only when the
// fast path has not accepted the barcode; see fast.rt.
ghost use Rattle.std.specs.Prelude.{◌≡◌, Err};
ghost use Rattle.answer.specs.Answers as answers;
ghost use Rattle.barcode.specs.Codes.{barcode_answer};

use crate::parts;
use answer::{Reason, Refusal};

// 2, 3, 4, 5, 7. One that passes all but the last has a wrong general check: no other of these is left.
pub(crate) fn first_refusal(code: &[u8; parts::LENGTH]) -> Refusal
    requires { barcode_answer code.now ≡ answers.Accepted → ⊥ }
    ensures { Err result ≡ barcode_answer code.now }
{
    match parts::check_prefix(code) {
        Err(refusal) => refusal,
        Ok(()) => Refusal {
            why: Reason::WrongGeneralCheck,
            place: 4,
        },
    }
}
