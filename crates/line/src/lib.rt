// The typed line of 48 digits (SPEC.md, "Typed line"): checked, decoded, and turned into a barcode and back, under the
// list of agreed issuers that the caller lends.
#![tactic(auto)]

ghost use Rattle.std.specs.Prelude.{◌≡◌, ◌+◌, ◌≤◌, ◌<◌, IfOk, eqb, length};
ghost use Rattle.answer.specs.Answers.{answer_of};
ghost use Rattle.answer.specs.Answers as answers;
ghost use Rattle.answer.specs.Refusals.{answer_place};
ghost use Rattle.answer.specs.Orders.{◌then◌, require, first_refusal, moved_by, if_accepted};
ghost use Rattle.answer.specs.declared.Reason.TheVariants.{WrongLength};
ghost use Rattle.decimal.specs.Places.{put_at};
ghost use Rattle.modulus.specs.Checks.{check_of};
ghost use Rattle.barcode.specs.Codes.{digit_at, modulus_of, prefix_answer, barcode_answer};
ghost use Rattle.barcode.specs.Shown.{fields_of, decoded};
ghost use Rattle.line.specs.Lines.{line_length, boxes, code_of, in_line, box_right, box_answer, boxes_then};
ghost use Rattle.line.specs.Lines.{line_under, line_check, decoded_line, checked_box, line_of};
ghost use Rattle.line.specs.Lines.{to_line_check, to_code_check};

use answer::{Answer, Reason, Refusal, require};
use barcode::Decoded;
use modulus::Modulus;

// The bytes of a line.
pub const LENGTH: usize = 48;

// The bytes of a line or of a barcode, as many as their type says; refused 1 for any other length. It is no public
// function in a crate below, which barcode and record would share, for the reason that barcode's `whole` gives.
fn whole<const N: usize>(bytes: &[u8]) -> Result<&[u8; N], Refusal>
    ensures same { IfOk result (λ whole. whole.now ≡ bytes.now) }
    ensures answer { answer_of result ≡ require (eqb (length bytes.now) N) WrongLength 0 }
{
    <&[u8; N]>::try_from(bytes).or(Err(Refusal {
        why: Reason::WrongLength,
        place: 0,
    }))
}

// The check digit of a box, as a byte.
fn check_byte(m: Modulus, part: &[u8]) -> u8
    ensures { result ≡ 48 + check_of m part.now }
{
    (48 + modulus::check(m, part)) as u8
}

// Whether the eleven digits from an index on are followed by their check.
fn is_box_right(m: Modulus, line: &[u8; LENGTH], from: usize) -> bool
    requires { from + 11 < line_length }
    ensures { result ≡ box_right m line.now (record { first = from + 1; last = from + 11 }) }
{
    let end = from + 11;
    line[end] == check_byte(m, &line[from..end])
}

// The four boxes, lowest first, all under the modulus that the line's third digit names.
fn check_boxes(m: Modulus, line: &[u8; LENGTH]) -> Answer
    requires { m ≡ modulus_of (digit_at 3 line.now) }
    ensures { result ≡ first_refusal (box_answer line.now) boxes }
{
    require(is_box_right(m, line, 0), Reason::WrongBoxCheck, 12)?;
    require(is_box_right(m, line, 12), Reason::WrongBoxCheck, 24)?;
    require(is_box_right(m, line, 24), Reason::WrongBoxCheck, 36)?;
    require(is_box_right(m, line, 36), Reason::WrongBoxCheck, 48)
}

// Where a place of the barcode is in the line; no place, 0, stays none.
fn in_line(place: usize) -> usize
    requires { place ≤ 45 }
    ensures { result ≡ in_line place }
{
    place + place.saturating_sub(1) / 11
}

// An answer about the barcode, at its place in the line.
fn moved_to_line(a: Answer) -> Answer
    requires { answer_place a ≤ 45 }
    ensures { result ≡ moved_by in_line a }
{
    a.map_err(
        |refusal|
            requires { refusal.place ≤ 45 }
        {
            Refusal {
                place: in_line(refusal.place),
                ..refusal
            }
        },
    )
}

// The barcode that a line's 48 bytes hold.
fn code_of(line: &[u8; LENGTH]) -> [u8; barcode::LENGTH]
    ensures { result ≡ code_of line.now }
{
    let mut code = [48u8; barcode::LENGTH];
    decimal::put(&line[0..11], &mut code, 0);
    decimal::put(&line[12..23], &mut code, 11);
    decimal::put(&line[24..35], &mut code, 22);
    decimal::put(&line[36..47], &mut code, 33);
    code
}

// 6, then what is left of the answer of the line's barcode.
fn check_check_digits(line: &[u8; LENGTH], code: Answer) -> Answer
    requires { answer_place code ≤ 45 }
    ensures { result ≡ boxes_then line.now code }
{
    check_boxes(barcode::modulus_of_kind(decimal::value(line[2])), line)?;
    moved_to_line(code)
}

// All checks but that of the length, given the answer about the line's barcode. If that and the boxes accept, so does
// the line (`LineIsBoxesAndCode`); only otherwise is an earlier refusal, 2 to 5, looked for.
fn check_full_length(line: &[u8; LENGTH], code: Answer) -> Answer
    requires placed { answer_place code ≤ 45 }
    requires right { code ≡ answers.Accepted → barcode_answer (code_of line.now) ≡ answers.Accepted }
    ensures { result ≡ prefix_answer line.now then boxes_then line.now code }
{
    let checks = check_check_digits(line, code);
    if checks.is_ok() {
        return checks;
    }
    barcode::check_prefix(line)?;
    checks
}

// The answer under a list that was judged.
fn check_judged(line: &[u8; LENGTH], agreed: &[u64]) -> Answer
    ensures { result ≡ line_under agreed.now line.now }
{
    check_full_length(line, barcode::judged::check(&code_of(line), agreed))
}

// The same answer, with the fields of an accepted line's barcode.
fn decode_judged(line: &[u8; LENGTH], agreed: &[u64]) -> Decoded
    ensures { result ≡ decoded (line_under agreed.now line.now)
        (fields_of agreed.now (code_of line.now)) }
{
    let decoded = barcode::judged::decode(&code_of(line), agreed);
    check_full_length(line, decoded.map(|_| ()))?;
    decoded
}

// Accepted, or the first refusal with its place in the line: 25 for the list, with no place, then the line's; the place
// of a wrong length is 0.
pub fn check(line: &[u8], agreed: &[u64]) -> Answer
    ensures { result ≡ line_check agreed.now line.now }
{
    barcode::check_list(agreed)?;
    check_judged(whole(line)?, agreed)
}

// The fields of an accepted line's barcode, or the first refusal with its place in the line, as `check` gives it.
pub fn decode(line: &[u8], agreed: &[u64]) -> Decoded
    ensures { result ≡ decoded_line agreed.now line.now }
{
    barcode::check_list(agreed)?;
    decode_judged(whole(line)?, agreed)
}

// Puts the barcode of an accepted line into the caller's buffer of 44 bytes. A refusal leaves the buffer as it was: 25
// for the list, 1 for the buffer's length, then the line's own, with places in the line.
pub fn to_barcode(line: &[u8], agreed: &[u64], out: &mut [u8]) -> Answer
    ensures answer { result ≡ to_code_check agreed.now (length out.old) line.now }
    ensures bytes { out.new ≡ if_accepted result (code_of line.now) out.old }
{
    barcode::check_list(agreed)?;
    require(out.len() == barcode::LENGTH, Reason::WrongLength, 0)?;
    let line = whole(line)?;
    check_judged(line, agreed)?;
    out.copy_from_slice(&code_of(line));
    Ok(())
}

// A box with its check, twelve bytes from an index on.
// The part stays a slice: it is cut by its ends, and a conversion would have a refusal that nothing can reach.
fn put_box(m: Modulus, part: &[u8], out: &mut [u8], at: usize)
    requires { length part.now ≡ 11 }
    ensures { out.new ≡ put_at at (checked_box m part.now) out.old }
{
    let mut twelve = [48u8; 12];
    decimal::put(part, &mut twelve, 0);
    twelve[11] = check_byte(m, part);
    decimal::put(&twelve, out, at);
}

// The line of a barcode's 44 bytes.
fn line_of(code: &[u8; barcode::LENGTH]) -> [u8; LENGTH]
    ensures { result ≡ line_of code.now }
{
    let mut line = [48u8; LENGTH];
    let m = barcode::modulus_of_kind(decimal::value(code[2]));
    put_box(m, &code[0..11], &mut line, 0);
    put_box(m, &code[11..22], &mut line, 12);
    put_box(m, &code[22..33], &mut line, 24);
    put_box(m, &code[33..barcode::LENGTH], &mut line, 36);
    line
}

// Writes the line of an accepted barcode into the caller's buffer of 48 bytes. A refusal leaves the buffer as it was:
// 25 for the list, 1 for the buffer's length, then the barcode's own, with places in the barcode.
pub fn from_barcode(code: &[u8], agreed: &[u64], out: &mut [u8]) -> Answer
    ensures answer { result ≡ to_line_check agreed.now (length out.old) code.now }
    ensures bytes { out.new ≡ if_accepted result (line_of code.now) out.old }
{
    barcode::check_list(agreed)?;
    require(out.len() == LENGTH, Reason::WrongLength, 0)?;
    let code = whole(code)?;
    barcode::judged::check(code, agreed)?;
    out.copy_from_slice(&line_of(code));
    Ok(())
}
