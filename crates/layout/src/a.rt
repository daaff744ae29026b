// The fields of the header, A (SPEC.md, "Records"). The proof of `table` holds them to `layout_of Header`.
use crate::{Field, Kind};

// The byte that names the record.
pub const LETTER: u8 = b'A';

pub const MARK: Field = Field {
    first: 1,
    last: 1,
    kind: Kind::Mark(LETTER),
};

// The digit 2: the file goes from the bank to the company.
pub const RETURN: Field = Field {
    first: 2,
    last: 2,
    kind: Kind::Mark(b'2'),
};

pub const AGREEMENT: Field = Field {
    first: 3,
    last: 22,
    kind: Kind::Text,
};

pub const COMPANY: Field = Field {
    first: 23,
    last: 42,
    kind: Kind::Text,
};

pub const BANK: Field = Field {
    first: 43,
    last: 45,
    kind: Kind::Digits,
};

pub const BANK_NAME: Field = Field {
    first: 46,
    last: 65,
    kind: Kind::Text,
};

pub const DATE: Field = Field {
    first: 66,
    last: 73,
    kind: Kind::Date,
};

pub const SEQUENCE: Field = Field {
    first: 74,
    last: 79,
    kind: Kind::Digits,
};

pub const VERSION: Field = Field {
    first: 80,
    last: 81,
    kind: Kind::Version,
};

pub const SERVICE: Field = Field {
    first: 82,
    last: 98,
    kind: Kind::Service,
};

pub const BLANK: Field = Field {
    first: 99,
    last: 150,
    kind: Kind::Blank,
};
