// Bytes of a class, and numbers as decimal digits (SPEC.md, "Words").
#![tactic(auto)]

ghost use Rattle.std.specs.Prelude.{◌≡◌, cond, ◌+◌, ◌*◌, ◌%◌, ◌^◌, ◌≤◌, leb, ltb, length};
ghost use Rattle.answer.specs.Orders.{if_accepted};
ghost use Rattle.decimal.specs.Bytes.{within, is_of, all, each_is};
ghost use Rattle.decimal.specs.Places.{put_at};
ghost use Rattle.decimal.specs.Numbers.{value_of, number_of, digits_of, capped, put_number_answer};
ghost use Rattle.decimal.specs.LowHalves.{low_number_of};

use answer::{Answer, Reason, Refusal, require};

// What a byte has to be.
#[derive(Clone, Copy, Debug, PartialEq, Eq)]
pub enum Class {
    Digit,
    Blank,
    Text,
}

// Whether a byte is one of `lo` to `hi`, both included.
pub fn in_range(lo: u8, hi: u8, b: u8) -> bool
    ensures { result ≡ within lo hi b }
{
    (lo..=hi).contains(&b)
}

// Whether a byte is of the class: a digit is 48 to 57, a blank 32, text 32 to 126 or 160 to 255.
#[tactic(auto, unfolding(crate::specs::Bytes::is_of))]
pub fn is_of(class: Class, b: u8) -> bool
    ensures { result ≡ is_of class b }
{
    match class {
        Class::Digit => b.is_ascii_digit(),
        Class::Blank => b == b' ',
        Class::Text => in_range(32, 126, b) || in_range(160, 255, b),
    }
}

// 0 for a byte of the class, else 1: a loop joins them with `|`, without a branch. A number and no bool: it is promised
// as one (`OneOutcome`).
pub fn class_error_bit(class: Class, b: u8) -> u8
    ensures { result ≡ cond (is_of class b) 0 1 }
{
    u8::from(!is_of(class, b))
}

// Whether every byte is of the class; true of no bytes. One flag over all bytes and no early exit, so the loop
// vectorizes.
pub fn all_of(class: Class, part: &[u8]) -> bool
    ensures { result ≡ all (is_of class) part.now }
{
    let mut flags: u8 = 0;
    for &b in part {
        flags |= class_error_bit(class, b);
    }
    flags == 0
}

// Whether all are digits, in rows of a known length, which vectorize. The last row ends at the last byte and may
// overlap the one before it, so that no byte is checked alone. The rows before it leave the last byte out, so that none
// of them is the last row too.
fn digit_rows(part: &[u8]) -> bool
    ensures { result ≡ all (is_of Class.Digit) part.now }
{
    let n = part.len();
    if n < 8 {
        return all_of(Class::Digit, part);
    }
    if n < 16 {
        return all_of(Class::Digit, &part[..8]) && all_of(Class::Digit, &part[n - 8..]);
    }
    for row in part[..n - 1].chunks_exact(16) {
        if !all_of(Class::Digit, row) {
            return false;
        }
    }
    all_of(Class::Digit, &part[n - 16..])
}

// Digits in rows, since every typed line is checked for them; the other classes are checked seldom.
fn rows_of(class: Class, part: &[u8]) -> bool
    ensures { result ≡ all (is_of class) part.now }
{
    match class {
        Class::Digit => digit_rows(part),
        Class::Blank => all_of(Class::Blank, part),
        Class::Text => all_of(Class::Text, part),
    }
}

// Refused at the first byte that is not of the class, byte by byte.
fn search(class: Class, why: Reason, part: &[u8]) -> Answer
    ensures { result ≡ each_is (is_of class) why 1 part.now }
{
    for (i, &b) in part.iter().enumerate() {
        if !is_of(class, b) {
            return Err(Refusal { why, place: i + 1 });
        }
    }
    Ok(())
}

// Refused for `why` at the first byte that is not of the class, with its place in the part; accepted where there is
// none, also of no bytes. The place is searched for only after the fast check of all bytes failed.
pub fn require_class(class: Class, why: Reason, part: &[u8]) -> Answer
    ensures { result ≡ each_is (is_of class) why 1 part.now }
{
    if rows_of(class, part) {
        return Ok(());
    }
    search(class, why, part)
}

// The value of a digit, 0 to 9; 0 for any other byte.
#[tactic(auto, unfolding(crate::specs::Numbers::value_of, crate::specs::Bytes::is_of))]
pub fn value(b: u8) -> u64
    ensures { result ≡ value_of b }
{
    if is_of(Class::Digit, b) {
        (b - 48) as u64
    } else {
        0
    }
}

// `n` with one digit more, or u64::MAX where that is larger.
fn with_digit(n: u64, digit: u64) -> u64
    ensures { result ≡ capped (n * 10 + digit) }
{
    n.saturating_mul(10).saturating_add(digit)
}

// `number` for any length and any bytes.
fn long_number(part: &[u8]) -> u64
    ensures { result ≡ capped (number_of part.now) }
{
    let mut n: u64 = 0;
    for &b in part {
        n = with_digit(n, value(b));
    }
    n
}

// The low four bits of a byte, which are the value of a digit.
pub fn low_half(b: u8) -> u8
    ensures value { result ≡ b % 16 }
    ensures small { result ≤ 15 }
{
    b % 16
}

// `number` of at most nineteen bytes that the caller knows to be digits: it adds up their low halves and checks none.
// 0 for more than nineteen bytes.
#[tactic(auto, using(crate::proofs::Numbers::low_fit), unfolding(crate::specs::LowHalves::low_number_of))]
pub fn low_number(part: &[u8]) -> u64
    ensures { result ≡ low_number_of part.now }
{
    if 20 <= part.len() {
        return 0;
    }
    let mut n: u64 = 0;
    for &b in part {
        n = n * 10 + low_half(b) as u64;
    }
    n
}

// The number that the bytes spell, highest digit first: 0 of no bytes, and a byte that is no digit counts as 0. A
// number that 64 bits do not hold is u64::MAX.
pub fn number(part: &[u8]) -> u64
    ensures { result ≡ capped (number_of part.now) }
{
    if 19 < part.len() {
        return long_number(part);
    }
    if all_of(Class::Digit, part) {
        return low_number(part);
    }
    long_number(part)
}

// Whether a number has at most `width` digits; 0 has none.
pub fn fits_width(n: u64, width: usize) -> bool
    ensures { result ≡ ltb n (10 ^ width) }
{
    let mut rest = n;
    for _ in 0..width {
        if rest == 0 {
            return true;
        }
        rest /= 10;
    }
    rest == 0
}

// Fills the buffer with the last digits of a number, as many as it is long.
fn put_digits(n: u64, out: &mut [u8])
    ensures { out.new ≡ digits_of (length out.old) n }
{
    let mut rest = n;
    for i in (0..out.len()).rev() {
        out[i] = (48 + rest % 10) as u8;
        rest /= 10;
    }
}

// Whether a buffer of `size` bytes has `width` bytes from index `at` on.
fn has_room(size: usize, at: usize, width: usize) -> bool
    ensures { result ≡ leb (at + width) size }
{
    width <= size && at <= size - width
}

// Copies a piece into the caller's buffer from index `at` on; where it does not fit, nothing is written.
pub fn put(piece: &[u8], out: &mut [u8], at: usize)
    ensures { out.new ≡ put_at at piece.now out.old }
{
    if !has_room(out.len(), at, piece.len()) {
        return;
    }
    let end = at + piece.len();
    out[at..end].copy_from_slice(piece);
}

// Writes a number into the caller's buffer as `width` digits with leading zeros, from index `at` on. A refusal leaves
// the buffer as it was: 1 at place 0 where it does not have those bytes, then 21 at place 1 where the number has more
// digits.
pub fn put_number(n: u64, width: usize, out: &mut [u8], at: usize) -> Answer
    ensures answer { result ≡ put_number_answer (length out.old) at width n }
    ensures bytes { out.new ≡ if_accepted result (put_at at (digits_of width n) out.old) out.old }
{
    require(has_room(out.len(), at, width), Reason::WrongLength, 0)?;
    require(fits_width(n, width), Reason::TooWide, 1)?;
    put_digits(n, &mut out[at..at + width]);
    Ok(())
}
