// The layouts of the three records (SPEC.md, "Records"): one table of their fields.
#![tactic(auto)]

pub mod a;
pub mod g;
pub mod z;

ghost use Rattle.std.specs.Prelude.{◌≡◌};
ghost use Rattle.layout.specs.Layouts.{table, row_at, named_by, rows_of, given_of, given_length};

// The header, A, the payment, G, and the trailer, Z.
#[derive(Clone, Copy, Debug, PartialEq, Eq)]
pub enum Record {
    Header,
    Payment,
    Trailer,
}

// What a field holds (crate kinds checks it): `Mark` this one byte, `Version` a version of the layout, `Service` the
// name of the service, `Capture` and `Form` one byte that says how the payment was taken in and made.
#[derive(Clone, Copy, Debug, PartialEq, Eq)]
pub enum Kind {
    Mark(u8),
    Version,
    Service,
    Blank,
    Text,
    Digits,
    Money,
    Date,
    Barcode,
    Capture,
    Form,
}

// A field of a record, from its first place to its last; places count from 1.
#[derive(Clone, Copy, Debug, PartialEq, Eq)]
pub struct Field {
    pub first: usize,
    pub last: usize,
    pub kind: Kind,
}

// Rows of the table, from `from` up to `to`, which is not included.
#[derive(Clone, Copy, Debug, PartialEq, Eq)]
pub struct Rows {
    pub from: usize,
    pub to: usize,
}

// A part of a field, from index `from` up to `to`, which is not included.
#[derive(Clone, Copy, Debug, PartialEq, Eq)]
pub struct Given {
    pub from: usize,
    pub to: usize,
}

// How many bytes a record has.
pub const LENGTH: usize = 150;

// How many fields the three records have.
pub const FIELD_COUNT: usize = 28;

const FIELDS: [Field; FIELD_COUNT] = [
    a::MARK,
    a::RETURN,
    a::AGREEMENT,
    a::COMPANY,
    a::BANK,
    a::BANK_NAME,
    a::DATE,
    a::SEQUENCE,
    a::VERSION,
    a::SERVICE,
    a::BLANK,
    g::MARK,
    g::ACCOUNT,
    g::PAID,
    g::CREDITED,
    g::BARCODE,
    g::RECEIVED,
    g::TARIFF,
    g::NUMBER,
    g::BRANCH,
    g::CAPTURE,
    g::AUTHENTICATION,
    g::FORM,
    g::BLANK,
    z::MARK,
    z::COUNT,
    z::TOTAL,
    z::BLANK,
];

// The fields of all three records: the header's from left to right, then the payment's, then the trailer's.
pub fn table() -> [Field; FIELD_COUNT]
    ensures { result ≡ table }
{
    FIELDS
}

// A row of the table, counted from 0; past its end a field with no place: its last comes before its first.
pub fn row(i: usize) -> Field
    ensures { result ≡ row_at i }
{
    if i < FIELD_COUNT {
        FIELDS[i]
    } else {
        Field {
            first: 1,
            last: 0,
            kind: Kind::Blank,
        }
    }
}

// The record that a first byte names; none for any byte but A, G and Z.
#[tactic(auto, unfolding(crate::specs::Layouts::named_by))]
pub fn named_by(mark: u8) -> Option<Record>
    ensures { result ≡ named_by mark }
{
    match mark {
        a::LETTER => Some(Record::Header),
        g::LETTER => Some(Record::Payment),
        z::LETTER => Some(Record::Trailer),
        _ => None,
    }
}

// The rows of the table that are a record's fields.
pub fn rows_of(which: Record) -> Rows
    ensures { result ≡ rows_of which }
{
    match which {
        Record::Header => Rows { from: 0, to: 11 },
        Record::Payment => Rows { from: 11, to: 24 },
        Record::Trailer => Rows { from: 24, to: 28 },
    }
}

// The part of a field, of this kind and this many bytes, that a caller of the writer gives as bytes: all of it, but
// nothing of what is fixed or money, and of the service field the second byte.
pub fn given_of(kind: Kind, width: usize) -> Given
    ensures { result ≡ given_of kind width }
{
    let none = Given { from: 0, to: 0 };
    let all = Given { from: 0, to: width };
    match kind {
        Kind::Mark(_) => none,
        Kind::Version => all,
        Kind::Service => Given { from: 1, to: 2 },
        Kind::Blank => none,
        Kind::Text => all,
        Kind::Digits => all,
        Kind::Money => none,
        Kind::Date => all,
        Kind::Barcode => all,
        Kind::Capture => all,
        Kind::Form => all,
    }
}

// How many such bytes a record has in all.
pub fn given_length(which: Record) -> usize
    ensures { result ≡ given_length which }
{
    match which {
        Record::Header => 80,
        Record::Payment => 121,
        Record::Trailer => 6,
    }
}
