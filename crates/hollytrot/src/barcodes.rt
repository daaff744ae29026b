// Exports for barcodes, typed lines, dates and check digits.
ghost use Rattle.std.specs.Prelude.{◌≡◌, length};
ghost use Rattle.answer.specs.Orders.{if_accepted};
ghost use Rattle.modulus.specs.declared.Modulus.TheVariants.{Ten, Eleven};
ghost use Rattle.modulus.specs.Checks.{check_of};
ghost use Rattle.calendar.specs.Dates.{is_date, date_of};
ghost use Rattle.record.specs.Values.{day_of};
ghost use Rattle.barcode.specs.Agreed.{key_of, barcode_check};
ghost use Rattle.barcode.specs.Shown.{decoded_barcode};
ghost use Rattle.barcode.specs.Building.{build_check, built_of};
ghost use Rattle.line.specs.Lines as lines;
ghost use Rattle.hollytrot.specs.Forms.{c_answer_of, c_decoded_of, free_part};

use crate::{CAnswer, CDecoded, CPart, forms};
use barcode::Issuer;
use calendar::Date;
use modulus::Modulus;

// The key by which an issuer is put on a list of agreed issuers; 0, which no list may have, for what is no issuer.
#[unsafe(no_mangle)]
pub extern "C" fn hollytrot_issuer_key(issuer: Issuer) -> u64
    ensures { result ≡ key_of issuer }
{
    barcode::key_of(issuer)
}

// Accepted, or the first refusal: that of the list, then the barcode's. Any length; all but 44 bytes are refused.
#[unsafe(no_mangle)]
pub extern "C" fn hollytrot_barcode_check(code: &[u8], agreed: &[u64]) -> CAnswer
    ensures { result ≡ c_answer_of (barcode_check agreed.now code.now) }
{
    CAnswer::from(barcode::check(code, agreed))
}

// The same answer, with the fields of an accepted barcode.
#[unsafe(no_mangle)]
pub extern "C" fn hollytrot_barcode_decode(code: &[u8], agreed: &[u64]) -> CDecoded
    ensures { result ≡ c_decoded_of (decoded_barcode agreed.now code.now) }
{
    CDecoded::from(barcode::decode(code, agreed))
}

// Where the free field is in the barcode: its last 25 bytes, in segment 6 its last 21. The empty part if the barcode or
// the list is refused.
#[unsafe(no_mangle)]
pub extern "C" fn hollytrot_barcode_free_field(code: &[u8], agreed: &[u64]) -> CPart
    ensures { result ≡ free_part agreed.now code.now }
{
    let free = barcode::free_field(code, agreed);
    let length = free.len();
    forms::c_part(barcode::LENGTH - length, length)
}

// Builds a barcode into `out`, 44 bytes, from its fields and the free field's digits: 25, in segment 6 21. A refusal
// leaves `out` as it was.
#[unsafe(no_mangle)]
pub extern "C" fn hollytrot_barcode_build(
    issuer: Issuer,
    kind: u64,
    value: u64,
    free: &[u8],
    agreed: &[u64],
    out: &mut [u8],
) -> CAnswer
    ensures answer { result
        ≡ c_answer_of
        (build_check agreed.now (length out.old) issuer kind value free.now) }
    ensures bytes { out.new
        ≡ if_accepted
        (build_check agreed.now (length out.old) issuer kind value free.now)
        (built_of issuer kind value free.now) out.old }
{
    CAnswer::from(barcode::builder::build(issuer, kind, value, free, agreed, out))
}

// Accepted, or the first refusal: that of the list, then the typed line's. Any length; all but 48 bytes are refused.
#[unsafe(no_mangle)]
pub extern "C" fn hollytrot_line_check(line: &[u8], agreed: &[u64]) -> CAnswer
    ensures { result ≡ c_answer_of (lines.line_check agreed.now line.now) }
{
    CAnswer::from(line::check(line, agreed))
}

// The same answer, with the fields of an accepted line.
#[unsafe(no_mangle)]
pub extern "C" fn hollytrot_line_decode(line: &[u8], agreed: &[u64]) -> CDecoded
    ensures { result ≡ c_decoded_of (lines.decoded_line agreed.now line.now) }
{
    CDecoded::from(line::decode(line, agreed))
}

// Writes the barcode of a line into `out`, 44 bytes. A refusal leaves `out` as it was.
#[unsafe(no_mangle)]
pub extern "C" fn hollytrot_line_to_barcode(line: &[u8], agreed: &[u64], out: &mut [u8]) -> CAnswer
    ensures answer { result ≡ c_answer_of (lines.to_code_check agreed.now (length out.old) line.now) }
    ensures bytes { out.new
        ≡ if_accepted (lines.to_code_check agreed.now (length out.old) line.now)
        (lines.code_of line.now) out.old }
{
    CAnswer::from(line::to_barcode(line, agreed, out))
}

// Writes the typed line of a barcode into `out`, 48 bytes. A refusal leaves `out` as it was.
#[unsafe(no_mangle)]
pub extern "C" fn hollytrot_line_from_barcode(
    code: &[u8],
    agreed: &[u64],
    out: &mut [u8],
) -> CAnswer
    ensures answer { result ≡ c_answer_of (lines.to_line_check agreed.now (length out.old) code.now) }
    ensures bytes { out.new
        ≡ if_accepted (lines.to_line_check agreed.now (length out.old) code.now)
        (lines.line_of code.now) out.old }
{
    CAnswer::from(line::from_barcode(code, agreed, out))
}

// The date that eight digits, YYYYMMDD, are; all zeros if they are no date or are not eight digits.
#[unsafe(no_mangle)]
pub extern "C" fn hollytrot_date_read(bytes: &[u8]) -> Date
    ensures { result ≡ day_of (date_of bytes.now) }
{
    forms::date_or_zeros(calendar::read_date(bytes))
}

// Whether there is such a date in the years 1900 to 2199.
#[unsafe(no_mangle)]
pub extern "C" fn hollytrot_date_check(date: Date) -> bool
    ensures { result ≡ is_date date }
{
    calendar::is_date(date)
}

// The check digit, 0 to 9, of any number of digits under modulo 10. A byte that is no digit counts as 0.
#[unsafe(no_mangle)]
pub extern "C" fn hollytrot_check_ten(digits: &[u8]) -> u64
    ensures { result ≡ check_of Ten digits.now }
{
    modulus::check(Modulus::Ten, digits)
}

// The same under modulo 11.
#[unsafe(no_mangle)]
pub extern "C" fn hollytrot_check_eleven(digits: &[u8]) -> u64
    ensures { result ≡ check_of Eleven digits.now }
{
    modulus::check(Modulus::Eleven, digits)
}
