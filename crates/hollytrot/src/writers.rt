// Exports for the writer of one return file, a value that the caller holds: each call returns the writer after it.
ghost use Rattle.std.specs.Prelude.{◌≡◌, length};
ghost use Rattle.answer.specs.Answers.{answer_of};
ghost use Rattle.answer.specs.Orders.{if_accepted};
ghost use Rattle.file.specs.Forms.{in_form};
ghost use Rattle.writer.specs.Writers as writers;
ghost use Rattle.hollytrot.specs.Forms.{c_answer_of, writer_of, c_writer_of, writer_behind, c_write_result_of};

use crate::{CAnswer, CWriteResult, CWriter};
use answer::Refusal;
use writer::Writer;

// A writer that has written nothing.
#[unsafe(no_mangle)]
pub extern "C" fn hollytrot_writer_new() -> CWriter
    ensures { result ≡ c_writer_of writers.fresh_writer }
{
    CWriter::from(Writer::new())
}

// Writes the A from its 80 field bytes into `out`: 150 bytes for a bare file, 152 for a lined one, whose records all
// get CR and LF behind them. A refusal returns the given writer and leaves `out` as it was.
#[unsafe(no_mangle)]
pub extern "C" fn hollytrot_writer_header(
    writer: CWriter,
    fields: &[u8],
    out: &mut [u8],
) -> CWriteResult
    ensures answer { result
        ≡ c_write_result_of writer
        (writers.header_written (writer_of writer) fields.now (length out.old)) }
    ensures bytes { out.new
        ≡ if_accepted (writers.header_answer (writer_of writer) fields.now (length out.old))
        (in_form (writers.is_lined_buffer (length out.old)) (writers.header_bytes fields.now))
        out.old }
{
    let w = Writer::from(writer);
    c_write_result(writer, w.header(fields, out))
}

// Writes a G into `out`, as long as the header's, from its 121 field bytes and two amounts in centavos. A refusal,
// first of all that of the list, returns the given writer and leaves `out` as it was.
#[unsafe(no_mangle)]
pub extern "C" fn hollytrot_writer_payment(
    writer: CWriter,
    fields: &[u8],
    received: u64,
    tariff: u64,
    agreed: &[u64],
    out: &mut [u8],
) -> CWriteResult
    ensures answer { result
        ≡ c_write_result_of writer
        (writers.payment_written agreed.now (writer_of writer) fields.now received tariff
        (length out.old)) }
    ensures bytes { out.new
        ≡ if_accepted
        (writers.payment_check agreed.now (writer_of writer) fields.now received tariff
        (length out.old))
        (in_form (writers.is_lined_buffer (length out.old))
        (writers.payment_bytes fields.now received tariff))
        out.old }
{
    let w = Writer::from(writer);
    c_write_result(writer, w.payment(fields, received, tariff, agreed, out))
}

// Writes the Z into `out`, as long as the header's, with the file's own count and total, and closes the writer. A
// refusal returns the given writer and leaves `out` as it was.
#[unsafe(no_mangle)]
pub extern "C" fn hollytrot_writer_trailer(writer: CWriter, out: &mut [u8]) -> CWriteResult
    ensures answer { result ≡ c_write_result_of writer (writers.trailer_written (writer_of writer) (length out.old)) }
    ensures bytes { out.new
        ≡ if_accepted (writers.trailer_answer (writer_of writer) (length out.old))
        (in_form (writers.is_lined_buffer (length out.old)) (writers.trailer_bytes (writer_of writer)))
        out.old }
{
    let w = Writer::from(writer);
    c_write_result(writer, w.trailer(out))
}

// A refusal returns the given writer itself: made anew from a Writer it could have another `stage` number.
fn c_write_result(given: CWriter, written: Result<Writer, Refusal>) -> CWriteResult
    ensures { result ≡ record {
      answer = c_answer_of (answer_of written);
      writer = writer_behind given written;
    } }
{
    match written {
        Ok(after) => CWriteResult {
            answer: CAnswer::from(Ok(())),
            writer: CWriter::from(after),
        },
        Err(refusal) => CWriteResult {
            answer: CAnswer::from(Err(refusal)),
            writer: given,
        },
    }
}
