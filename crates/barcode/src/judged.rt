// A barcode under a list of agreed issuers that was judged: what other crates call once `check_list` has accepted the
// list. Nothing here answers 25; a list that was not judged is only searched for the issuer.
ghost use Rattle.std.specs.Prelude.{◌≡◌};
ghost use Rattle.barcode.specs.Agreed.{barcode_under};
ghost use Rattle.barcode.specs.Shown.{decoded_under, accepted_issuer};

use crate::{Decoded, Issuer, fast, in_order, parts, reading};
use answer::Answer;

// The answer to 44 bytes.
fn check_whole(code: &[u8; parts::LENGTH], agreed: &[u64]) -> Answer
    ensures { result ≡ barcode_under agreed.now code.now }
{
    if fast::is_accepted(code) {
        return reading::check_due(code, agreed);
    }
    Err(in_order::first_refusal(code))
}

// Accepted, or the barcode's first refusal with its place; the place of a wrong length is 0.
pub fn check(code: &[u8], agreed: &[u64]) -> Answer
    ensures { result ≡ barcode_under agreed.now code.now }
{
    check_whole(parts::whole(code)?, agreed)
}

// The fields of an accepted barcode, or its first refusal with its place.
pub fn decode(code: &[u8], agreed: &[u64]) -> Decoded
    ensures { result ≡ decoded_under agreed.now code.now }
{
    let code = parts::whole(code)?;
    check_whole(code, agreed)?;
    Ok(reading::fields_of(code, agreed))
}

// The issuer of an accepted barcode; of a refused one, none, and not why it is refused.
pub fn accepted_issuer(code: &[u8], agreed: &[u64]) -> Option<Issuer>
    ensures { result ≡ accepted_issuer agreed.now code.now }
{
    let code = parts::whole(code).ok()?;
    if !fast::is_accepted(code) {
        return None;
    }
    reading::check_due(code, agreed).ok()?;
    Some(reading::issuer_of(code))
}
