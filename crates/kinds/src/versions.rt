// The versions of the layout, and which codes each of them has (SPEC.md, "Records").
ghost use Rattle.std.specs.Prelude.{◌≤◌, ◌≡◌};
ghost use Rattle.kinds.specs.Terms.{is_version, version_answer};
ghost use Rattle.kinds.specs.Kinds.{is_capture_among, is_capture, is_form};

use answer::{Answer, Reason, require};
use layout::{Record, a};

const VERSION_04: u64 = 4;

const VERSION_06: u64 = 6;

// Whether a number is a version of the layout: 4 or 6.
pub(crate) fn is_version(version: u64) -> bool
    ensures { result ≡ is_version version }
{
    version == VERSION_04 || version == VERSION_06
}

// Whether a byte is one of so many captures, which count from 1 with the customer's bill and from a without it.
fn is_capture_among(count: u8, b: u8) -> bool
    requires { count ≤ 9 }
    ensures { result ≡ is_capture_among count b }
{
    decimal::in_range(b'1', 48 + count, b) || decimal::in_range(b'a', 96 + count, b)
}

// Whether a byte is a capture of the version: 1 to 6 or a to f under 04, 1 to 9 or a to i under 06, none under a number
// that is no version. Every payment comes here: a branch for each version makes its bounds constants.
pub fn is_capture(b: u8, version: u64) -> bool
    ensures { result ≡ is_capture version b }
{
    if version == VERSION_04 {
        return is_capture_among(6, b);
    }
    if version == VERSION_06 {
        return is_capture_among(9, b);
    }
    false
}

// Whether a byte is a payment form of the version: 1 to 3 under 04, 1 to 6 under 06, none under a number that is no
// version.
pub fn is_form(b: u8, version: u64) -> bool
    ensures { result ≡ is_form version b }
{
    if version == VERSION_04 {
        return decimal::in_range(b'1', b'3', b);
    }
    if version == VERSION_06 {
        return decimal::in_range(b'1', b'6', b);
    }
    false
}

// Whether a record can be read or written under this version: a G is refused 10, at the version's place in a header,
// for a number other than 4 and 6; a header and a trailer ignore it.
#[tactic(auto, unfolding(crate::specs::Terms::version_answer))]
pub fn check_version(which: Record, version: u64) -> Answer
    ensures { result ≡ version_answer version which }
{
    match which {
        Record::Payment => { require(is_version(version), Reason::FixedDiffers, a::VERSION.first) }
        Record::Header | Record::Trailer => Ok(()),
    }
}
