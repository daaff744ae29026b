// A return file written record by record (SPEC.md, "Writer"): A, then each G, under the list of agreed issuers that the
// caller lends, then Z with the file's own figures.
#![tactic(auto)]

ghost use Rattle.std.specs.Prelude.{◌||◌, ◌≡◌, eqb, length};
ghost use Rattle.answer.specs.Answers.{◌gives◌, answer_of, state_behind};
ghost use Rattle.answer.specs.Orders.{if_accepted};
ghost use Rattle.layout.specs.Layouts.{record_length};
ghost use Rattle.file.specs.Forms.{in_form, lined_length, length_of};
ghost use Rattle.record.specs.Values.{version_in};
ghost use Rattle.writer.specs.Writers.{fresh_writer, writer_expects, fits_buffer, is_lined_buffer, call_answer};
ghost use Rattle.writer.specs.Writers.{header_answer, header_next, header_written, header_bytes};
ghost use Rattle.writer.specs.Writers.{payment_answer, payment_check, payment_next, payment_under, payment_written};
ghost use Rattle.writer.specs.Writers.{payment_bytes};
ghost use Rattle.writer.specs.Writers.{trailer_answer, trailer_next, trailer_written, trailer_bytes};

use answer::{Answer, Reason, Refusal, require};
use file::File;
use layout::{Record, a};

// Before its header, between header and trailer, and after its trailer, when no record is expected any more.
#[derive(Clone, Copy, Debug, PartialEq, Eq)]
pub enum Stage {
    Fresh,
    Open,
    Closed,
}

// The stage, and what was written so far: how many payments, their centavos, the version that the header names, and
// whether the file is lined.
#[derive(Clone, Copy, Debug, PartialEq, Eq)]
pub struct Writer {
    pub stage: Stage,
    pub file: File,
}

// Whether a writer at this stage takes this record.
fn is_expected(stage: Stage, which: Record) -> bool
    ensures { result ≡ writer_expects stage which }
{
    match stage {
        Stage::Fresh => matches!(which, Record::Header),
        Stage::Open => matches!(which, Record::Payment | Record::Trailer),
        Stage::Closed => false,
    }
}

// Whether a buffer of this length is one for a record of either form.
fn is_either_length(size: usize) -> bool
    ensures { result ≡ (eqb size record_length || eqb size lined_length) }
{
    size == layout::LENGTH || size == file::LINED
}

// Whether a buffer of this length fits a call to a writer at this stage: one for a record of either form fits a fresh
// writer, else it must be of the file's form.
fn fits_buffer(stage: Stage, lined: bool, size: usize) -> bool
    ensures { result ≡ fits_buffer stage lined size }
{
    match stage {
        Stage::Fresh => is_either_length(size),
        Stage::Open => size == file::record_length(lined),
        Stage::Closed => size == file::record_length(lined),
    }
}

// Puts the record's 150 bytes into a buffer of 150 or 152, and CR and LF behind them in one of 152.
fn put_in_form(made: &[u8; layout::LENGTH], out: &mut [u8])
    requires { length out.old ≡ length_of (is_lined_buffer (length out.old)) }
    ensures { out.new ≡ in_form (is_lined_buffer (length out.old)) made.now }
{
    out[0..layout::LENGTH].copy_from_slice(made);
    if out.len() == file::LINED {
        out[layout::LENGTH] = file::CR;
        out[layout::LENGTH + 1] = file::LF;
    }
}

// The version that a header names.
fn version_in(header: &[u8; layout::LENGTH]) -> u64
    ensures { result ≡ version_in header.now }
{
    let first = a::VERSION.first;
    let last = a::VERSION.last;
    decimal::number(&header[first - 1..last])
}

impl Writer {
    // The bytes of a record, and so of the buffer of each call for a bare file; of one with CR and LF behind it, for a
    // lined file.
    pub const RECORD: usize = layout::LENGTH;

    pub const LINED: usize = file::LINED;

    // The digits of a trailer's count, which are all its field bytes.
    const COUNT: usize = 6;

    // A fresh writer, which expects a header.
    pub fn new() -> Self
        ensures { result ≡ fresh_writer }
    {
        Writer {
            stage: Stage::Fresh,
            file: File::new(0, false),
        }
    }

    // 1 unless the buffer is as long as a record of the file's form, of either form for a fresh writer, and the field
    // bytes are as many as the record takes; then 9 unless the record is expected now.
    fn check_call(self, which: Record, given: usize, size: usize) -> Answer
        ensures { result ≡ call_answer self which given size }
    {
        let fits = fits_buffer(self.stage, self.file.lined, size);
        require(fits, Reason::WrongLength, 0)?;
        require(given == layout::given_length(which), Reason::WrongLength, 0)?;
        require(is_expected(self.stage, which), Reason::NotExpected, 1)
    }

    // Writes the header with these 80 field bytes into the caller's buffer; the file is open then, under the version
    // that they name. A buffer of 150 bytes makes it bare; one of 152 makes it lined, and each of its records is
    // written with CR and LF behind it. A refusal leaves the buffer unchanged: 1, 9, then the fields.
    pub fn header(self, fields: &[u8], out: &mut [u8]) -> Result<Writer, Refusal>
        ensures answer { result ≡ (header_answer self fields.now (length out.old)
            gives header_next fields.now (length out.old)) }
        ensures bytes { out.new ≡ if_accepted (answer_of result)
            (in_form (is_lined_buffer (length out.old)) (header_bytes fields.now)) out.old }
        ensures kept { header_written self fields.now (length out.old)
            ≡ record { answer = answer_of result; writer = state_behind self result } }
    {
        self.check_call(Record::Header, fields.len(), out.len())?;
        let version = self.file.version;
        let mut header = [0u8; Self::RECORD];
        fields::judged::make(Record::Header, fields, version, 0, 0, &[], &mut header)?;
        put_in_form(&header, out);
        Ok(Writer {
            stage: Stage::Open,
            file: File::new(version_in(&header), out.len() == Self::LINED),
        })
    }

    // The payment under a list of agreed issuers that was judged.
    fn payment_judged(
        self,
        fields: &[u8],
        received: u64,
        tariff: u64,
        agreed: &[u64],
        out: &mut [u8],
    ) -> Result<Writer, Refusal>
        ensures answer { result ≡ (payment_answer agreed.now self fields.now received tariff (length out.old)
            gives payment_next self received) }
        ensures bytes { out.new ≡ if_accepted (answer_of result)
            (in_form (is_lined_buffer (length out.old)) (payment_bytes fields.now received tariff)) out.old }
        ensures kept { payment_under agreed.now self fields.now received tariff (length out.old)
            ≡ record { answer = answer_of result; writer = state_behind self result } }
    {
        self.check_call(Record::Payment, fields.len(), out.len())?;
        let mut payment = [0u8; Self::RECORD];
        fields::judged::make(
            Record::Payment,
            fields,
            self.file.version,
            received,
            tariff,
            agreed,
            &mut payment,
        )?;
        let file = self.file.take(received)?;
        put_in_form(&payment, out);
        Ok(Writer { file, ..self })
    }

    // Writes a payment with these 121 field bytes and amounts into the caller's buffer, as long as the header's, and
    // counts it. A refusal leaves the buffer unchanged: 25 for the list, 1, 9, 10 at 80 for a writer in an arbitrary
    // state whose version is another number than 4 and 6, then the fields with 21 in an amount's turn, then 15 and 16.
    pub fn payment(
        self,
        fields: &[u8],
        received: u64,
        tariff: u64,
        agreed: &[u64],
        out: &mut [u8],
    ) -> Result<Writer, Refusal>
        ensures answer { result ≡ (payment_check agreed.now self fields.now received tariff (length out.old)
            gives payment_next self received) }
        ensures bytes { out.new ≡ if_accepted (answer_of result)
            (in_form (is_lined_buffer (length out.old)) (payment_bytes fields.now received tariff)) out.old }
        ensures kept { payment_written agreed.now self fields.now received tariff (length out.old)
            ≡ record { answer = answer_of result; writer = state_behind self result } }
    {
        barcode::check_list(agreed)?;
        self.payment_judged(fields, received, tariff, agreed, out)
    }

    // Writes the trailer with the file's own count and total into the caller's buffer, as long as the header's; then
    // the writer is closed. A refusal leaves the buffer unchanged: 1, 9, then 15 and 16, which only a writer in an
    // arbitrary state can give.
    pub fn trailer(self, out: &mut [u8]) -> Result<Writer, Refusal>
        ensures answer { result ≡ (trailer_answer self (length out.old) gives trailer_next self) }
        ensures bytes { out.new ≡ if_accepted (answer_of result)
            (in_form (is_lined_buffer (length out.old)) (trailer_bytes self)) out.old }
        ensures kept { trailer_written self (length out.old)
            ≡ record { answer = answer_of result; writer = state_behind self result } }
    {
        self.check_call(Record::Trailer, Self::COUNT, out.len())?;
        let figures = self.file.close()?;
        // The figures of a file that closes fit their fields.
        let mut count = [48u8; Self::COUNT];
        let _ = decimal::put_number(figures.count, Self::COUNT, &mut count, 0);
        let version = self.file.version;
        let mut trailer = [0u8; Self::RECORD];
        fields::judged::make(
            Record::Trailer,
            &count,
            version,
            figures.total,
            0,
            &[],
            &mut trailer,
        )?;
        put_in_form(&trailer, out);
        Ok(Writer {
            stage: Stage::Closed,
            ..self
        })
    }
}
