// The three records A, G and Z (SPEC.md, "Records"), each read alone, under the list of agreed issuers that the caller
// lends. Modules, lowest first: parts (a field's bytes and values), walk (the check in order) beside fast (the fast
// path for an accepted G), judged (the operations once the list is judged).
#![tactic(auto)]

mod fast;
pub mod judged;
mod parts;
mod walk;

ghost use Rattle.std.specs.Prelude.{◌≡◌};
ghost use Rattle.kinds.specs.Terms.{told};
ghost use Rattle.record.specs.Records.{record_check};
ghost use Rattle.record.specs.Values.{decoded_record, payment_due_of, shown_field};

use answer::{Answer, Refusal};
use barcode::{Fields, Issuer};
use calendar::Date;

// What an accepted A shows. Its version, a number since C reads it, is the one to pass with each G of the same file.
#[repr(C)]
#[derive(Clone, Copy, Debug, Default, PartialEq, Eq)]
pub struct Header {
    pub bank: u64,
    pub date: Date,
    pub sequence: u64,
    pub version: u64,
}

// What an accepted G shows. Received and tariff are centavos; number is the record's own, which nobody counts.
#[derive(Clone, Copy, Debug, PartialEq, Eq)]
pub struct Payment {
    pub paid: Date,
    pub credited: Date,
    pub barcode: Fields,
    pub received: u64,
    pub tariff: u64,
    pub number: u64,
}

// What an accepted Z shows: the count of all records, header and trailer included, and the centavos received.
#[repr(C)]
#[derive(Clone, Copy, Debug, Default, PartialEq, Eq)]
pub struct Trailer {
    pub count: u64,
    pub total: u64,
}

// To whom an accepted G pays, the centavos received and the tariff.
#[derive(Clone, Copy, Debug, PartialEq, Eq)]
pub struct PaymentDue {
    pub issuer: Issuer,
    pub received: u64,
    pub tariff: u64,
}

// All that an accepted record shows.
#[derive(Clone, Copy, Debug, PartialEq, Eq)]
pub enum Contents {
    Header(Header),
    Payment(Payment),
    Trailer(Trailer),
}

// An accepted record with all that it shows, or why it is refused and at which place, 0 for none.
pub type Decoded = Result<Contents, Refusal>;

// The answer to a record alone, of any length: accepted, or the first refusal with its place in the record; 25 for the
// list, with no place, comes before everything. The version is that of the record's file, 4 or 6: a G that is told any
// other number is 10 at 80, an A or a Z ignores it.
pub fn check(rec: &[u8], version: u64, agreed: &[u64]) -> Answer
    ensures { result ≡ record_check (told version agreed.now) rec.now }
{
    barcode::check_list(agreed)?;
    judged::check(rec, version, agreed)
}

// Everything that a record shows, or why and where it is refused; `check` gives the same refusal. Any length is taken.
pub fn decode(rec: &[u8], version: u64, agreed: &[u64]) -> Decoded
    ensures { result ≡ decoded_record (told version agreed.now) rec.now }
{
    barcode::check_list(agreed)?;
    judged::decode(rec, version, agreed)
}

// The issuer, the centavos received and the tariff of an accepted G; none for every other record and under a wrong
// list.
pub fn accepted_payment(rec: &[u8], version: u64, agreed: &[u64]) -> Option<PaymentDue>
    ensures { result ≡ payment_due_of (decoded_record (told version agreed.now) rec.now) }
{
    barcode::check_list(agreed).ok()?;
    judged::accepted_payment(rec, version, agreed)
}

// A field of an accepted record by its row in layout's table, as a part of the caller's bytes. The part is empty if
// `check` refuses, for a row of another record and for a row past the table.
pub fn field<'a>(rec: &'a [u8], version: u64, row: usize, agreed: &[u64]) -> &'a [u8]
    ensures { result.now ≡ shown_field (told version agreed.now) row rec.now }
{
    let Ok(whole) = parts::whole(rec) else {
        return &rec[0..0];
    };
    match check(rec, version, agreed) {
        Ok(()) => parts::field_of_row(whole, row),
        Err(_) => &rec[0..0],
    }
}
