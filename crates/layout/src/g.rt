// The fields of a payment, G (SPEC.md, "Records"). The proof of `table` holds them to `layout_of Payment`.
use crate::{Field, Kind};

// The byte that names the record.
pub const LETTER: u8 = b'G';

pub const MARK: Field = Field {
    first: 1,
    last: 1,
    kind: Kind::Mark(LETTER),
};

pub const ACCOUNT: Field = Field {
    first: 2,
    last: 21,
    kind: Kind::Text,
};

// The day of the payment.
pub const PAID: Field = Field {
    first: 22,
    last: 29,
    kind: Kind::Date,
};

// The day on which the company is credited.
pub const CREDITED: Field = Field {
    first: 30,
    last: 37,
    kind: Kind::Date,
};

pub const BARCODE: Field = Field {
    first: 38,
    last: 81,
    kind: Kind::Barcode,
};

// What was received, in centavos.
pub const RECEIVED: Field = Field {
    first: 82,
    last: 93,
    kind: Kind::Money,
};

// What the bank charges, in centavos.
pub const TARIFF: Field = Field {
    first: 94,
    last: 100,
    kind: Kind::Money,
};

// The record's number in the bank's sequence.
pub const NUMBER: Field = Field {
    first: 101,
    last: 108,
    kind: Kind::Digits,
};

pub const BRANCH: Field = Field {
    first: 109,
    last: 116,
    kind: Kind::Text,
};

// How the payment was taken in.
pub const CAPTURE: Field = Field {
    first: 117,
    last: 117,
    kind: Kind::Capture,
};

pub const AUTHENTICATION: Field = Field {
    first: 118,
    last: 140,
    kind: Kind::Text,
};

// The payment form.
pub const FORM: Field = Field {
    first: 141,
    last: 141,
    kind: Kind::Form,
};

pub const BLANK: Field = Field {
    first: 142,
    last: 150,
    kind: Kind::Blank,
};
