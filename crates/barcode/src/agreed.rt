// Issuers that agreed on due dates (SPEC.md, "Agreed issuers"): the list that a caller lends, and what it asks of a
// free field. A list is judged once, by `check_list`; the other functions take any list.
ghost use Rattle.std.specs.Prelude.{true, ◌&&◌, ◌≡◌, leb};
ghost use Rattle.decimal.specs.Bytes.{all};
ghost use Rattle.barcode.specs.Agreed.{is_issuer, key_of, names_issuer, is_among, are_distinct, list_answer};
ghost use Rattle.barcode.specs.Agreed.{is_agreed, due_digits, free_answer, due_of};

use crate::{Issuer, parts};
use answer::{Answer, Reason, require};
use calendar::Date;

// The most issuers of a list.
const MOST_AGREED: usize = 64;

// A key is so many times the segment, and the issuer's number.
const KEY_UNIT: u64 = 100_000_000;

// Whether the segment is known and the number has no more digits than a barcode has for it.
fn is_issuer(issuer: Issuer) -> bool
    ensures { result ≡ is_issuer issuer }
{
    if !parts::is_segment(issuer.segment) {
        return false;
    }
    decimal::fits_width(issuer.number, parts::issuer_width(issuer.segment))
}

// The key of an issuer, by which it is put on a list: its segment times 10^8, and its number. 0, which no list may
// have, for what is no issuer.
pub fn key_of(issuer: Issuer) -> u64
    ensures { result ≡ key_of issuer }
{
    if !is_issuer(issuer) {
        return 0;
    }
    issuer.segment * KEY_UNIT + issuer.number
}

// Whether a number is the key of an issuer.
fn names_issuer(key: u64) -> bool
    ensures { result ≡ names_issuer key }
{
    is_issuer(Issuer {
        segment: key / KEY_UNIT,
        number: key % KEY_UNIT,
    })
}

// Whether a key is one of these.
fn is_among(key: u64, keys: &[u64]) -> bool
    ensures { result ≡ is_among key keys.now }
{
    keys.contains(&key)
}

// The same, told a number that none of them is below: a lower key needs no search.
fn is_among_from(key: u64, lowest: u64, keys: &[u64]) -> bool
    requires { all (leb lowest) keys.now ≡ true }
    ensures { result ≡ is_among key keys.now }
{
    if key < lowest {
        return false;
    }
    is_among(key, keys)
}

// Whether each key names an issuer, and none comes twice: from the last to the first, so that a list in rising order is
// judged in one pass.
fn are_distinct_issuers(keys: &[u64]) -> bool
    ensures { result ≡ (all names_issuer keys.now && are_distinct keys.now) }
{
    let mut lowest = u64::MAX;
    for i in (0..keys.len()).rev() {
        let key = keys[i];
        if !names_issuer(key) {
            return false;
        }
        if is_among_from(key, lowest, &keys[i + 1..]) {
            return false;
        }
        lowest = key.min(lowest);
    }
    true
}

// 25, with no place, for a list of more than 64 keys, with a key that names no issuer, or with one key twice. An empty
// list, which most callers lend, costs one test.
#[tactic(auto, unfolding(crate::specs::Agreed::list_answer))]
pub fn check_list(agreed: &[u64]) -> Answer
    ensures { result ≡ list_answer agreed.now }
{
    if agreed.is_empty() {
        return Ok(());
    }
    require(agreed.len() <= MOST_AGREED, Reason::WrongList, 0)?;
    require(are_distinct_issuers(agreed), Reason::WrongList, 0)
}

// Whether an issuer is on the list: it agreed on due dates.
fn is_agreed(issuer: Issuer, agreed: &[u64]) -> bool
    ensures { result ≡ is_agreed agreed.now issuer }
{
    if agreed.is_empty() {
        return false; // nobody is on it, and no key is made
    }
    is_among(key_of(issuer), agreed)
}

// The first eight digits of a free field, where a due date is if there is one; fewer if it has fewer.
fn due_digits(free: &[u8]) -> &[u8]
    ensures { result.now ≡ due_digits free.now }
{
    if free.len() < 8 {
        return free;
    }
    &free[..8]
}

// 11 at the free field's first place in a barcode, if its issuer is on the list and its first eight digits are no date.
#[tactic(auto, unfolding(crate::specs::Agreed::free_answer))]
pub(crate) fn check_free(issuer: Issuer, free: &[u8], agreed: &[u64]) -> Answer
    ensures { result ≡ free_answer agreed.now issuer free.now }
{
    if !is_agreed(issuer, agreed) {
        return Ok(());
    }
    let place = parts::issuer_end(issuer.segment) + 1;
    require(
        calendar::is_date_text(due_digits(free)),
        Reason::NoDate,
        place,
    )
}

// The due date: the first eight digits of the free field of an issuer that is on the list, if they are a date.
pub(crate) fn due_of(issuer: Issuer, free: &[u8], agreed: &[u64]) -> Option<Date>
    ensures { result ≡ due_of agreed.now issuer free.now }
{
    if is_agreed(issuer, agreed) {
        calendar::read_date(due_digits(free))
    } else {
        None
    }
}
