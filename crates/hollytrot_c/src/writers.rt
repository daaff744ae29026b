// Exports for the writer of one return file, a value that the caller holds: each call returns the writer after it.
ghost use Rattle.std.specs.Prelude.{◌≡◌, length};
ghost use Rattle.answer.specs.Orders.{if_accepted};
ghost use Rattle.file.specs.Forms.{in_form};
ghost use Rattle.writer.specs.Writers as writers;
ghost use Rattle.hollytrot.specs.Forms.{writer_of, c_writer_of, c_write_result_of};

use hollytrot::{CWriteResult, CWriter};

#[unsafe(no_mangle)]
pub extern "C" fn hollytrot_writer_new() -> CWriter
    ensures { result ≡ c_writer_of writers.fresh_writer }
{
    hollytrot::hollytrot_writer_new()
}

#[unsafe(no_mangle)]
pub extern "C" fn hollytrot_writer_header(
    writer: CWriter,
    fields: &[u8],
    out: &mut [u8],
) -> CWriteResult
    ensures answer { result
        ≡ c_write_result_of writer
        (writers.header_written (writer_of writer) fields.now (length out.old)) }
    ensures bytes { out.new
        ≡ if_accepted (writers.header_answer (writer_of writer) fields.now (length out.old))
        (in_form (writers.is_lined_buffer (length out.old)) (writers.header_bytes fields.now))
        out.old }
{
    hollytrot::hollytrot_writer_header(writer, fields, out)
}

#[unsafe(no_mangle)]
pub extern "C" fn hollytrot_writer_payment(
    writer: CWriter,
    fields: &[u8],
    received: u64,
    tariff: u64,
    agreed: &[u64],
    out: &mut [u8],
) -> CWriteResult
    ensures answer { result
        ≡ c_write_result_of writer
        (writers.payment_written agreed.now (writer_of writer) fields.now received tariff
        (length out.old)) }
    ensures bytes { out.new
        ≡ if_accepted
        (writers.payment_check agreed.now (writer_of writer) fields.now received tariff
        (length out.old))
        (in_form (writers.is_lined_buffer (length out.old))
        (writers.payment_bytes fields.now received tariff))
        out.old }
{
    hollytrot::hollytrot_writer_payment(writer, fields, received, tariff, agreed, out)
}

#[unsafe(no_mangle)]
pub extern "C" fn hollytrot_writer_trailer(writer: CWriter, out: &mut [u8]) -> CWriteResult
    ensures answer { result ≡ c_write_result_of writer (writers.trailer_written (writer_of writer) (length out.old)) }
    ensures bytes { out.new
        ≡ if_accepted (writers.trailer_answer (writer_of writer) (length out.old))
        (in_form (writers.is_lined_buffer (length out.old)) (writers.trailer_bytes (writer_of writer)))
        out.old }
{
    hollytrot::hollytrot_writer_trailer(writer, out)
}
