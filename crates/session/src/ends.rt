// How long what is taken may be, what must follow a record, and where a run cuts, in a bare file and in a lined one.
ghost use Rattle.std.specs.Prelude.{true, false, ◌≡◌, ◌<◌, ◌≤◌, MatchOption, min, length};
ghost use Rattle.layout.specs.Layouts.{record_length};
ghost use Rattle.file.specs.Forms.{fits_length, body_of, end_answer, is_next_lined, next_length};
ghost use Rattle.session.specs.Runs.{least_left};
ghost use Rattle.session.specs.LeadingPayments.{record_needs};

use answer::{Answer, Reason, require};

// The place of a record's line end.
const END_PLACE: usize = layout::LENGTH + 1;

// Whether a record may be so long: with no file open 150 bytes, or 152 that end in CR and LF; in an open bare file 150;
// in an open lined file 150 to 152.
fn fits_length(opened: bool, lined: bool, rec: &[u8]) -> bool
    ensures value { result ≡ fits_length opened lined rec.now }
    ensures long { result ≡ true → record_length ≤ length rec.now }
{
    if rec.len() < layout::LENGTH {
        return false;
    }
    if rec.len() == layout::LENGTH {
        return true;
    }
    if !opened {
        return file::has_line_end(rec);
    }
    if !lined {
        return false;
    }
    rec.len() <= file::LINED
}

// The 150 bytes of a record, without what follows them; none if its length does not fit.
pub(crate) fn record_of(opened: bool, lined: bool, rec: &[u8]) -> Option<&[u8; layout::LENGTH]>
    ensures { MatchOption result (fits_length opened lined rec.now ≡ false)
        (λ whole. (fits_length opened lined rec.now ≡ true) × (whole.now ≡ body_of rec.now)
        × (record_length ≤ length rec.now)) }
{
    if fits_length(opened, lined, rec) {
        return rec.first_chunk();
    }
    None
}

// 22 for a record of an open lined file, unless CR and LF and nothing more follow it.
pub(crate) fn check_end(opened: bool, lined: bool, rec: &[u8]) -> Answer
    ensures { result ≡ end_answer opened lined rec.now }
{
    if !opened || !lined {
        return Ok(());
    }
    require(file::has_line_end(rec), Reason::NoLineEnd, END_PLACE)
}

// The bytes that a run must have left to take one more record: one, or 152 if more bytes are to follow.
pub(crate) fn least_left(more: bool) -> usize
    ensures { result ≡ least_left more }
{
    if more {
        return file::LINED;
    }
    1
}

// The bytes that a run must have left to take one more record of an open file of this form: a record's, or 152 if more
// bytes are to follow.
pub(crate) fn record_needs(lined: bool, more: bool) -> usize
    ensures { result ≡ record_needs lined more }
{
    if more {
        return file::LINED;
    }
    file::record_length(lined)
}

// Whether the next piece is lined: as the open file is; with no file open if CR and LF are where they follow a header.
fn is_next_lined(opened: bool, lined: bool, bytes: &[u8]) -> bool
    ensures { result ≡ is_next_lined opened lined bytes.now }
{
    if opened {
        return lined;
    }
    if bytes.len() < file::LINED {
        return false;
    }
    file::has_line_end(&bytes[..file::LINED])
}

// How many bytes the next piece has: 150 or 152, or what is left if that is less.
pub(crate) fn cut_length(opened: bool, lined: bool, bytes: &[u8]) -> usize
    ensures value { result ≡ min (next_length opened lined bytes.now) (length bytes.now) }
    ensures some { (0 < length bytes.now → 0 < result) × (result ≤ length bytes.now) }
{
    let length = file::record_length(is_next_lined(opened, lined, bytes));
    if bytes.len() < length {
        return bytes.len();
    }
    length
}
