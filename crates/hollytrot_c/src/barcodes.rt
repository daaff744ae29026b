// Exports for barcodes, typed lines, dates and check digits.
ghost use Rattle.std.specs.Prelude.{◌≡◌, length};
ghost use Rattle.answer.specs.Orders.{if_accepted};
ghost use Rattle.modulus.specs.declared.Modulus.TheVariants.{Ten, Eleven};
ghost use Rattle.modulus.specs.Checks.{check_of};
ghost use Rattle.calendar.specs.Dates.{is_date, date_of};
ghost use Rattle.record.specs.Values.{day_of};
ghost use Rattle.barcode.specs.Agreed.{key_of, barcode_check};
ghost use Rattle.barcode.specs.Shown.{decoded_barcode};
ghost use Rattle.barcode.specs.Building.{build_check, built_of};
ghost use Rattle.line.specs.Lines as lines;
ghost use Rattle.hollytrot.specs.Forms.{c_answer_of, c_decoded_of, free_part};

use barcode::Issuer;
use calendar::Date;
use hollytrot::{CAnswer, CDecoded, CPart};

#[unsafe(no_mangle)]
pub extern "C" fn hollytrot_issuer_key(issuer: Issuer) -> u64
    ensures { result ≡ key_of issuer }
{
    hollytrot::hollytrot_issuer_key(issuer)
}

#[unsafe(no_mangle)]
pub extern "C" fn hollytrot_barcode_check(code: &[u8], agreed: &[u64]) -> CAnswer
    ensures { result ≡ c_answer_of (barcode_check agreed.now code.now) }
{
    hollytrot::hollytrot_barcode_check(code, agreed)
}

#[unsafe(no_mangle)]
pub extern "C" fn hollytrot_barcode_decode(code: &[u8], agreed: &[u64]) -> CDecoded
    ensures { result ≡ c_decoded_of (decoded_barcode agreed.now code.now) }
{
    hollytrot::hollytrot_barcode_decode(code, agreed)
}

#[unsafe(no_mangle)]
pub extern "C" fn hollytrot_barcode_free_field(code: &[u8], agreed: &[u64]) -> CPart
    ensures { result ≡ free_part agreed.now code.now }
{
    hollytrot::hollytrot_barcode_free_field(code, agreed)
}

#[unsafe(no_mangle)]
pub extern "C" fn hollytrot_barcode_build(
    issuer: Issuer,
    kind: u64,
    value: u64,
    free: &[u8],
    agreed: &[u64],
    out: &mut [u8],
) -> CAnswer
    ensures answer { result
        ≡ c_answer_of
        (build_check agreed.now (length out.old) issuer kind value free.now) }
    ensures bytes { out.new
        ≡ if_accepted
        (build_check agreed.now (length out.old) issuer kind value free.now)
        (built_of issuer kind value free.now) out.old }
{
    hollytrot::hollytrot_barcode_build(issuer, kind, value, free, agreed, out)
}

#[unsafe(no_mangle)]
pub extern "C" fn hollytrot_line_check(line: &[u8], agreed: &[u64]) -> CAnswer
    ensures { result ≡ c_answer_of (lines.line_check agreed.now line.now) }
{
    hollytrot::hollytrot_line_check(line, agreed)
}

#[unsafe(no_mangle)]
pub extern "C" fn hollytrot_line_decode(line: &[u8], agreed: &[u64]) -> CDecoded
    ensures { result ≡ c_decoded_of (lines.decoded_line agreed.now line.now) }
{
    hollytrot::hollytrot_line_decode(line, agreed)
}

#[unsafe(no_mangle)]
pub extern "C" fn hollytrot_line_to_barcode(line: &[u8], agreed: &[u64], out: &mut [u8]) -> CAnswer
    ensures answer { result ≡ c_answer_of (lines.to_code_check agreed.now (length out.old) line.now) }
    ensures bytes { out.new
        ≡ if_accepted (lines.to_code_check agreed.now (length out.old) line.now)
        (lines.code_of line.now) out.old }
{
    hollytrot::hollytrot_line_to_barcode(line, agreed, out)
}

#[unsafe(no_mangle)]
pub extern "C" fn hollytrot_line_from_barcode(
    code: &[u8],
    agreed: &[u64],
    out: &mut [u8],
) -> CAnswer
    ensures answer { result ≡ c_answer_of (lines.to_line_check agreed.now (length out.old) code.now) }
    ensures bytes { out.new
        ≡ if_accepted (lines.to_line_check agreed.now (length out.old) code.now)
        (lines.line_of code.now) out.old }
{
    hollytrot::hollytrot_line_from_barcode(code, agreed, out)
}

#[unsafe(no_mangle)]
pub extern "C" fn hollytrot_date_read(bytes: &[u8]) -> Date
    ensures { result ≡ day_of (date_of bytes.now) }
{
    hollytrot::hollytrot_date_read(bytes)
}

#[unsafe(no_mangle)]
pub extern "C" fn hollytrot_date_check(date: Date) -> bool
    ensures { result ≡ is_date date }
{
    hollytrot::hollytrot_date_check(date)
}

#[unsafe(no_mangle)]
pub extern "C" fn hollytrot_check_ten(digits: &[u8]) -> u64
    ensures { result ≡ check_of Ten digits.now }
{
    hollytrot::hollytrot_check_ten(digits)
}

#[unsafe(no_mangle)]
pub extern "C" fn hollytrot_check_eleven(digits: &[u8]) -> u64
    ensures { result ≡ check_of Eleven digits.now }
{
    hollytrot::hollytrot_check_eleven(digits)
}
