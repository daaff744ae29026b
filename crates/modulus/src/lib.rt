// Check digits under modulo 10 and modulo 11 (SPEC.md, "Check digits").
#![tactic(auto)]

ghost use Rattle.std.specs.Prelude.{◌≡◌, ◌-◌, ◌%◌, ◌≤◌, ◌<◌, length};
ghost use Rattle.modulus.specs.Checks.{size_of, weight_of, product_part, term_of, weighted_sum, digit_of_remainder};
ghost use Rattle.modulus.specs.Checks.{check_of};

mod forty;

pub use forty::sums_of_forty;

#[derive(Clone, Copy, Debug, PartialEq, Eq)]
pub enum Modulus {
    Ten,
    Eleven,
}

// The weighted sums of some digits under modulo 10 and under modulo 11.
#[derive(Clone, Copy, Debug, PartialEq, Eq)]
pub struct BothSums {
    pub ten: u64,
    pub eleven: u64,
}

// The remainder of a sum by 10 or 11. Where a sum has parts, they are added first.
pub fn remainder(m: Modulus, sum: u64) -> u64
    ensures { result ≡ sum % size_of m }
{
    match m {
        Modulus::Ten => sum % 10,
        Modulus::Eleven => sum % 11,
    }
}

// The check digit that a remainder gives: the modulus less the remainder, and 0 for remainder 0, under modulo 11 also
// for 1. 0 for a number that is no remainder.
#[tactic(auto, unfolding(crate::specs::Checks::digit_of_remainder))]
pub fn digit_of_remainder(m: Modulus, rest: u64) -> u64
    ensures { result ≡ digit_of_remainder m rest }
{
    match m {
        Modulus::Ten => match rest {
            1..=9 => 10 - rest,
            _ => 0,
        },
        Modulus::Eleven => match rest {
            2..=10 => 11 - rest,
            _ => 0,
        },
    }
}

// The weight of a digit with `right` digits to its right.
fn weight(m: Modulus, right: usize) -> u16
    ensures { result ≡ weight_of m right }
{
    match m {
        Modulus::Ten => (2 - right % 2) as u16,
        Modulus::Eleven => (2 + right % 8) as u16,
    }
}

// What a product adds to the sum: under modulo 10 its decimal digits.
fn product_part(m: Modulus, product: u16) -> u16
    ensures { result ≡ product_part m product }
{
    match m {
        Modulus::Ten => product / 10 + product % 10,
        Modulus::Eleven => product,
    }
}

// What a byte with `right` digits to its right adds to the sum; 0 where it is no digit.
fn term(m: Modulus, right: usize, b: u8) -> u16
    ensures { result ≡ term_of m right b }
{
    product_part(m, weight(m, right) * decimal::value(b) as u16)
}

// The sum over a part so short that 16 bits hold it, so the loop vectorizes.
fn short_sum(m: Modulus, digits: &[u8], right: usize) -> u64
    requires { (length digits.now ≤ 512) × (right < 8) }
    ensures { result ≡ weighted_sum m right digits.now }
{
    let mut sum: u16 = 0;
    for (i, &b) in digits.iter().enumerate() {
        sum += term(m, right + (digits.len() - 1 - i), b);
    }
    sum as u64
}

// The remainder of the weighted sum over a part that has `right` more digits to its right; a byte that is no digit adds
// 0. The sum is made in blocks from the right, so that no length wraps it. The weights come again after eight digits,
// so blocks of 512 to the right of a block change none of its weights.
pub fn weighted_remainder(m: Modulus, digits: &[u8], right: usize) -> u64
    ensures { result ≡ weighted_sum m right digits.now % size_of m }
{
    let mut sum: u64 = 0;
    for block in digits.rchunks(512) {
        sum = remainder(m, sum + short_sum(m, block, right % 8));
    }
    sum
}

// The check digit of some digits, 0 to 9; a byte that is no digit counts as 0.
pub fn check(m: Modulus, digits: &[u8]) -> u64
    ensures { result ≡ check_of m digits.now }
{
    digit_of_remainder(m, weighted_remainder(m, digits, 0))
}
