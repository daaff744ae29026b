// The fields of the trailer, Z (SPEC.md, "Records"). The proof of `table` holds them to `layout_of Trailer`.
use crate::{Field, Kind};

// The byte that names the record.
pub const LETTER: u8 = b'Z';

pub const MARK: Field = Field {
    first: 1,
    last: 1,
    kind: Kind::Mark(LETTER),
};

// All records of the file, header and trailer included.
pub const COUNT: Field = Field {
    first: 2,
    last: 7,
    kind: Kind::Digits,
};

// What all payments received, in centavos.
pub const TOTAL: Field = Field {
    first: 8,
    last: 24,
    kind: Kind::Money,
};

pub const BLANK: Field = Field {
    first: 25,
    last: 150,
    kind: Kind::Blank,
};
