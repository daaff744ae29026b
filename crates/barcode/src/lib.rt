// The collection barcode of 44 digits (SPEC.md, "Barcode"): checked, decoded, and built from its fields, under the list
// of agreed issuers that the caller lends.
#![tactic(auto)]

mod agreed;
pub mod builder;
mod fast;
mod in_order;
pub mod judged;
mod parts;
mod reading;

ghost use Rattle.std.specs.Prelude.{◌≡◌};
ghost use Rattle.barcode.specs.Agreed.{barcode_check};
ghost use Rattle.barcode.specs.Shown.{decoded_barcode, shown_free};

pub use agreed::{check_list, key_of};
use answer::{Answer, Refusal};
use calendar::Date;
pub use parts::{LENGTH, check_prefix, issuer_width, modulus_of_kind};

// An issuer is the segment together with its number: the same number in two segments is two issuers. The segment is a
// number and no enum: C reads it, and the builder answers 4 to what is none.
#[repr(C)]
#[derive(Clone, Copy, Debug, Default, PartialEq, Eq)]
pub struct Issuer {
    pub segment: u64,
    pub number: u64,
}

// What a barcode says beside its free field. The value is centavos under kinds 6 and 8, a reference quantity under 7
// and 9. The due date is the first eight digits of the free field, of an issuer that agreed on due dates; of any other
// there is none. The kind is a number and no enum, as C has it, and the builder answers 5 to what is none.
#[derive(Clone, Copy, Debug, PartialEq, Eq)]
pub struct Fields {
    pub kind: u64,
    pub value: u64,
    pub issuer: Issuer,
    pub due: Option<Date>,
}

// The fields of an accepted barcode, or the first refusal and its place; 0 where there is no place.
pub type Decoded = Result<Fields, Refusal>;

// The functions below judge the list and go on in `judged`, as those of line, record, fields, writer and session do:
// two lines each, which one function over closures would not shorten.

// Accepted, or the first refusal with its place: 25 for the list, with no place, then the barcode's; the place of a
// wrong length is 0.
pub fn check(code: &[u8], agreed: &[u64]) -> Answer
    ensures { result ≡ barcode_check agreed.now code.now }
{
    agreed::check_list(agreed)?;
    judged::check(code, agreed)
}

// The fields of an accepted barcode, or the first refusal with its place, as `check` gives it.
pub fn decode(code: &[u8], agreed: &[u64]) -> Decoded
    ensures { result ≡ decoded_barcode agreed.now code.now }
{
    agreed::check_list(agreed)?;
    judged::decode(code, agreed)
}

// The free field as a part of the caller's bytes: 25 of them, in segment 6 21. Empty if `check` refuses.
pub fn free_field<'a>(code: &'a [u8], agreed: &[u64]) -> &'a [u8]
    ensures { result.now ≡ shown_free agreed.now code.now }
{
    let Ok(whole) = parts::whole(code) else {
        return &code[0..0];
    };
    match check(code, agreed) {
        Ok(()) => reading::free_of(whole),
        Err(_) => &code[0..0],
    }
}
