// One record under a list of agreed issuers that was judged: what other crates call once `barcode::check_list` has
// accepted the list. Nothing here answers 25. A G that the fast path recognizes is accepted and needs no walk; of
// everything else the walk finds the first refusal, or that it is an accepted A or Z.
ghost use Rattle.std.specs.Prelude.{Ok, None, false, [], ◌≡◌, length, get_or};
ghost use Rattle.answer.specs.Answers as answers;
ghost use Rattle.layout.specs.declared.Record.TheVariants as layouts;
ghost use Rattle.layout.specs.Layouts.{record_length, named_by};
ghost use Rattle.kinds.specs.Terms.{Terms, told};
ghost use Rattle.record.specs.Records.{is_payment, is_trailer, layout_answer, record_answer};
ghost use Rattle.record.specs.Values.{day_of, header_shown, trailer_shown, record_shown, decoded_record_under};
ghost use Rattle.record.specs.Values.{payment_due_of};
ghost use Rattle.record.specs.FastPath.{fast_decoded_of};

use crate::{Contents, Decoded, Header, PaymentDue, Trailer, fast, parts, walk};
use answer::Answer;
use calendar::Date;
use layout::{Record, a, z};

// The issuer, the centavos received and the tariff of an accepted G; none for every other record, of any length. It is
// what a session needs of a G: decoding all of it would cost as much again.
pub fn accepted_payment(rec: &[u8], version: u64, agreed: &[u64]) -> Option<PaymentDue>
    ensures { result ≡ payment_due_of (decoded_record_under (told version agreed.now) rec.now) }
{
    fast::accepted_payment(rec, version, agreed)
}

// The answer to a record alone, of any length: accepted, or the first refusal with its place in the record. The version
// is that of the record's file, 4 or 6: a G that is told any other number is 10 at 80, an A or a Z ignores it.
pub fn check(rec: &[u8], version: u64, agreed: &[u64]) -> Answer
    ensures { result ≡ record_answer (told version agreed.now) rec.now }
{
    if fast::accepted_payment(rec, version, agreed).is_some() {
        return Ok(());
    }
    walk::check_in_order(rec, version, agreed)
}

// A date that was found; 0/0/0 for none, which an accepted record never shows.
fn day_of(found: Option<Date>) -> Date
    ensures { result ≡ day_of found }
{
    found.unwrap_or(Date {
        year: 0,
        month: 0,
        day: 0,
    })
}

// What an accepted A shows: its numbers are known to be digits.
fn read_header(rec: &[u8; layout::LENGTH]) -> Header
    requires { (t : Terms) → layout_answer t layouts.Header rec.now ≡ answers.Accepted }
    ensures { result ≡ header_shown rec.now }
{
    Header {
        bank: parts::number_in(rec, a::BANK),
        date: day_of(parts::date_in(rec, a::DATE)),
        sequence: parts::number_in(rec, a::SEQUENCE),
        version: parts::number_in(rec, a::VERSION),
    }
}

// What an accepted Z shows.
fn read_trailer(rec: &[u8; layout::LENGTH]) -> Trailer
    requires { (t : Terms) → layout_answer t layouts.Trailer rec.now ≡ answers.Accepted }
    ensures { result ≡ trailer_shown rec.now }
{
    Trailer {
        count: parts::number_in(rec, z::COUNT),
        total: parts::number_in(rec, z::TOTAL),
    }
}

// Whether a first byte names Z.
fn is_trailer(mark: u8) -> bool
    ensures { result ≡ is_trailer (named_by mark) }
{
    matches!(layout::named_by(mark), Some(Record::Trailer))
}

// What an accepted A or Z shows; it is accepted under any terms.
fn header_or_trailer(rec: &[u8; layout::LENGTH]) -> Contents
    requires accepted { (t : Terms) → record_answer t rec.now ≡ answers.Accepted }
    requires other { is_payment (named_by (get_or rec.now 0 0)) ≡ false }
    ensures { Ok result ≡ record_shown [] (named_by (get_or rec.now 0 0)) rec.now }
{
    if is_trailer(rec[0]) {
        return Contents::Trailer(read_trailer(rec));
    }
    Contents::Header(read_header(rec))
}

// A record that the fast path does not recognize: it is refused, or an accepted A or Z.
#[tactic(auto, unfolding(crate::specs::Records::record_answer))]
fn decode_in_order(rec: &[u8], version: u64, agreed: &[u64]) -> Decoded
    requires { None ≡ fast_decoded_of (decoded_record_under (told version agreed.now) rec.now) }
    ensures { result ≡ decoded_record_under (told version agreed.now) rec.now }
{
    let rec = parts::whole(rec)?;
    walk::check_whole(rec, version, agreed)?;
    Ok(header_or_trailer(rec))
}

// Everything that a record shows, or why and where it is refused; `check` gives the same refusal. Any length is taken.
// The version is as in `check`.
pub fn decode(rec: &[u8], version: u64, agreed: &[u64]) -> Decoded
    ensures { result ≡ decoded_record_under (told version agreed.now) rec.now }
{
    match fast::decode_payment(rec, version, agreed) {
        Some(payment) => Ok(Contents::Payment(payment)),
        None => decode_in_order(rec, version, agreed),
    }
}
