// Fast path: both sums of forty digits at once, and whether they are digits.
//
// It gives what `weighted_remainder` adds up for each modulus, before the remainder, so the weights and the digits of a
// product here must change together with `weight` and `product_part` (both follow specs/Checks.antt). It reads three
// rows of sixteen bytes, so that a column, one byte of each row, has one weight: the weights of both moduli come again
// after sixteen digits. The last row overlaps the one before it by eight bytes, which count there. proofs/Columns.antt
// ties the columns to the sums; only `sums_of_forty` is called from outside.
ghost use Rattle.std.specs.Prelude.{cond, ◌&&◌, ◌≡◌, ◌%◌, ◌≤◌, ◌<◌, leb, ltb, length};
ghost use Rattle.decimal.specs.Bytes.{is_of};
ghost use Rattle.modulus.specs.Checks.{both_sums};
ghost use Rattle.modulus.specs.Columns.{column_adds, ColumnsAdded};

use crate::{BothSums, Modulus};
use decimal::Class;

// The sums over sixteen columns; `error` is 0 where all bytes are digits, else the sums mean nothing. No Option: the
// loop that makes the three has no branch.
#[derive(Clone, Copy)]
struct ColumnSums {
    error: u8,
    ten: u16,
    eleven: u16,
}

// 0 where all three bytes are digits, else 1.
fn column_error_bit(x: u8, y: u8, z: u8) -> u8
    ensures { result ≡ cond (is_of Class.Digit x && (is_of Class.Digit y && is_of Class.Digit z)) 0 1 }
{
    decimal::class_error_bit(Class::Digit, x)
        | (decimal::class_error_bit(Class::Digit, y) | decimal::class_error_bit(Class::Digit, z))
}

// The value of a digit in column i of the last row: 0 in the first eight, which count in the row before it.
fn last_row_value(i: usize, b: u8) -> u8
    ensures value { result ≡ cond (ltb i 8) 0 (b % 16) }
    ensures small { result ≤ 15 }
{
    if i < 8 { 0 } else { decimal::low_half(b) }
}

// 1 where twice the value has two digits.
fn carry(d: u8) -> u8
    ensures value { result ≡ cond (leb 5 d) 1 0 }
    ensures small { result ≤ 1 }
{
    u8::from(5 <= d)
}

// What the three values of column i add under modulo 10: every second column is doubled.
fn column_ten(i: usize, a: u8, b: u8, c: u8) -> u16
    requires { (i < 16) × (a ≤ 15) × (b ≤ 15) × (c ≤ 15) }
    ensures value { a ≤ 9 → b ≤ 9 → c ≤ 9 → result ≡ column_adds Modulus.Ten i a b c }
    ensures small { result ≤ 90 }
{
    let sum = a + (b + c);
    if i % 2 == 0 {
        return sum as u16;
    }
    (2 * sum - 9 * (carry(a) + (carry(b) + carry(c)))) as u16
}

// What the three values of column i add under modulo 11.
fn column_eleven(i: usize, a: u8, b: u8, c: u8) -> u16
    requires { (i < 16) × (a ≤ 15) × (b ≤ 15) × (c ≤ 15) }
    ensures value { result ≡ column_adds Modulus.Eleven i a b c }
    ensures small { result ≤ 405 }
{
    let sum = a + (b + c);
    (2 + (15 - i) % 8) as u16 * sum as u16
}

// Digits and both sums in one pass with no early exit, so the loop vectorizes. Slices and no arrays: the parts are cut
// by their ends, and a conversion would bring a case that nothing can reach.
fn add_columns(x: &[u8], y: &[u8], z: &[u8]) -> ColumnSums
    requires { (length x.now ≡ 16) × (length y.now ≡ 16) × (length z.now ≡ 16) }
    ensures { ColumnsAdded x.now y.now z.now result.error result.ten result.eleven }
{
    let mut error: u8 = 0;
    let mut tens: u16 = 0;
    let mut elevens: u16 = 0;
    for i in 0..16 {
        let a = decimal::low_half(x[i]);
        let b = decimal::low_half(y[i]);
        let c = last_row_value(i, z[i]);
        error |= column_error_bit(x[i], y[i], z[i]);
        tens += column_ten(i, a, b, c);
        elevens += column_eleven(i, a, b, c);
    }
    ColumnSums {
        error,
        ten: tens,
        eleven: elevens,
    }
}

// The weighted sums over forty digits under both moduli; none where there are not forty bytes, or one of them is no
// digit.
pub fn sums_of_forty(digits: &[u8]) -> Option<BothSums>
    ensures { result ≡ both_sums digits.now }
{
    if digits.len() != 40 {
        return None;
    }
    let sums = add_columns(&digits[0..16], &digits[16..32], &digits[24..40]);
    if sums.error != 0 {
        return None;
    }
    Some(BothSums {
        ten: sums.ten as u64,
        eleven: sums.eleven as u64,
    })
}
