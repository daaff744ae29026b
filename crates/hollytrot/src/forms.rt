// The engine's values in the forms that cross to C, and a writer back from its form. A value that is not there is all
// zeros, its form's `default`.
ghost use Rattle.std.specs.Prelude.{◌≡◌};
ghost use Rattle.record.specs.Values.{day_of};
ghost use Rattle.hollytrot.specs.Forms.{c_answer_of, c_part_of, c_fields_of, c_decoded_of, c_payment_of, c_record_of};
ghost use Rattle.hollytrot.specs.Forms.{stage_of, stage_number, writer_of, c_writer_of};

use crate::{CAnswer, CDecoded, CFields, CPart, CPayment, CRecord, CWriter};
use answer::Answer;
use barcode::{Decoded, Fields};
use calendar::Date;
use layout::{a, g, z};
use record::{Contents, Header, Payment, Trailer};
use writer::{Stage, Writer};

// An answer as its number and place; 0 and 0 if it is accepted.
impl From<Answer> for CAnswer {
    ghost from_gives = { λ a c. c ≡ c_answer_of a };

    fn from(a: Answer) -> CAnswer {
        CAnswer {
            number: u64::from(answer::number(a)),
            place: answer::place(a),
        }
    }
}

// The empty part is 0 and 0, whatever its offset would be.
pub(crate) fn c_part(from: usize, length: usize) -> CPart
    ensures { result ≡ c_part_of from length }
{
    if length == 0 {
        return CPart { from: 0, length: 0 };
    }
    CPart { from, length }
}

// The date, or three zeros.
pub(crate) fn date_or_zeros(d: Option<Date>) -> Date
    ensures { result ≡ day_of d }
{
    d.unwrap_or_default()
}

// Without a due date its three numbers are 0.
impl From<Fields> for CFields {
    ghost from_gives = { λ f c. c ≡ c_fields_of f };

    fn from(f: Fields) -> CFields {
        CFields {
            kind: f.kind,
            value: f.value,
            issuer: f.issuer,
            due: date_or_zeros(f.due),
        }
    }
}

// The fields of a barcode or a typed line; of a refused one zeros.
impl From<Decoded> for CDecoded {
    ghost from_gives = { λ d c. c ≡ c_decoded_of d };

    fn from(d: Decoded) -> CDecoded {
        match d {
            Ok(f) => CDecoded {
                answer: CAnswer::from(Ok(())),
                fields: CFields::from(f),
            },
            Err(refusal) => CDecoded {
                answer: CAnswer::from(Err(refusal)),
                fields: CFields::default(),
            },
        }
    }
}

impl From<Payment> for CPayment {
    ghost from_gives = { λ p c. c ≡ c_payment_of p };

    fn from(p: Payment) -> CPayment {
        CPayment {
            paid: p.paid,
            credited: p.credited,
            barcode: CFields::from(p.barcode),
            received: p.received,
            tariff: p.tariff,
            number: p.number,
        }
    }
}

// The values of the record that it is; those of the other two, and all of a refused one, are zeros.
impl From<record::Decoded> for CRecord {
    ghost from_gives = { λ d c. c ≡ c_record_of d };

    fn from(d: record::Decoded) -> CRecord {
        let none = CRecord {
            answer: CAnswer::from(d.map(|_| ())),
            letter: 0,
            header: Header::default(),
            payment: CPayment::default(),
            trailer: Trailer::default(),
        };
        match d {
            Ok(Contents::Header(header)) => CRecord {
                letter: u64::from(a::LETTER),
                header,
                ..none
            },
            Ok(Contents::Payment(payment)) => CRecord {
                letter: u64::from(g::LETTER),
                payment: CPayment::from(payment),
                ..none
            },
            Ok(Contents::Trailer(trailer)) => CRecord {
                letter: u64::from(z::LETTER),
                trailer,
                ..none
            },
            Err(_) => none,
        }
    }
}

// Every number but 0 and 1 is a closed file.
fn stage_from_number(n: u64) -> Stage
    ensures { result ≡ stage_of n }
{
    if n == 0 {
        return Stage::Fresh;
    }
    if n == 1 {
        return Stage::Open;
    }
    Stage::Closed
}

fn stage_number(s: Stage) -> u64
    ensures { result ≡ stage_number s }
{
    match s {
        Stage::Fresh => 0,
        Stage::Open => 1,
        Stage::Closed => 2,
    }
}

// A writer from its form, whatever the number of its stage.
impl From<CWriter> for Writer {
    ghost from_gives = { λ p w. w ≡ writer_of p };

    fn from(p: CWriter) -> Writer {
        Writer {
            stage: stage_from_number(p.stage),
            file: p.file,
        }
    }
}

// A writer in its form.
impl From<Writer> for CWriter {
    ghost from_gives = { λ w p. p ≡ c_writer_of w };

    fn from(w: Writer) -> CWriter {
        CWriter {
            stage: stage_number(w.stage),
            file: w.file,
        }
    }
}
