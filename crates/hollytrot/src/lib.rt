// Hollytrot for other languages: each operation as an exported C function over the proved one. include/hollytrot.h
// declares them for C, and the crate in rust/ wraps them for Rust.
//
// Numbers, slices and structs of numbers cross the boundary; an enum and a returned slice do not. So an answer crosses
// as its number and place, a date or record that may be missing as zeros, a part of the caller's bytes as its offset
// and length, and a writer's stage as a number. A slice is a pointer and a length in C.
//
// Each function takes every value of its arguments, sessions, boards and writers in an arbitrary state included. None
// allocates, keeps anything between calls or calls back. If a call is refused, the state that it returns is the given
// one, and the caller's buffer is as it was.
#![tactic(auto)]

mod barcodes;
mod forms;
mod pages;
mod records;
mod sessions;
mod version;
mod writers;

use barcode::Issuer;
pub use barcodes::{
    hollytrot_barcode_build, hollytrot_barcode_check, hollytrot_barcode_decode,
    hollytrot_barcode_free_field, hollytrot_check_eleven, hollytrot_check_ten,
    hollytrot_date_check, hollytrot_date_read, hollytrot_issuer_key, hollytrot_line_check,
    hollytrot_line_decode, hollytrot_line_from_barcode, hollytrot_line_to_barcode,
};
use calendar::Date;
use file::File;
pub use pages::hollytrot_page;
use record::{Header, Trailer};
pub use records::{
    hollytrot_record_check, hollytrot_record_decode, hollytrot_record_field, hollytrot_record_join,
};
use session::Session;
pub use sessions::{
    hollytrot_session_abandon, hollytrot_session_board, hollytrot_session_finish,
    hollytrot_session_limits, hollytrot_session_new, hollytrot_session_run, hollytrot_session_take,
};
pub use version::hollytrot_version;
pub use writers::{
    hollytrot_writer_header, hollytrot_writer_new, hollytrot_writer_payment,
    hollytrot_writer_trailer,
};

// The structs from here on are those of include/hollytrot.h: an answer beside its value and a number for an enum, since
// C has no Result.

// An answer: number 0 and place 0 if accepted, else the refusal's number (SPEC.md, "Refusals") and its place.
#[repr(C)]
#[derive(Clone, Copy, Debug, PartialEq, Eq)]
pub struct CAnswer {
    pub number: u64,
    pub place: usize,
}

// A part of the caller's bytes: its offset, counted from 0, and its length. The empty part is 0 and 0.
#[repr(C)]
#[derive(Clone, Copy, Debug, PartialEq, Eq)]
pub struct CPart {
    pub from: usize,
    pub length: usize,
}

// The fields of a barcode; the due date is all zeros if there is none.
#[repr(C)]
#[derive(Clone, Copy, Debug, Default, PartialEq, Eq)]
pub struct CFields {
    pub kind: u64,
    pub value: u64,
    pub issuer: Issuer,
    pub due: Date,
}

// The fields are all zeros if the answer is a refusal.
#[repr(C)]
#[derive(Clone, Copy, Debug, PartialEq, Eq)]
pub struct CDecoded {
    pub answer: CAnswer,
    pub fields: CFields,
}

// `received` and `tariff` are centavos.
#[repr(C)]
#[derive(Clone, Copy, Debug, Default, PartialEq, Eq)]
pub struct CPayment {
    pub paid: Date,
    pub credited: Date,
    pub barcode: CFields,
    pub received: u64,
    pub tariff: u64,
    pub number: u64,
}

// `letter`, the record's first byte, says which of the three has its values; the other two are all zeros. It is 0, and
// all three are zeros, if the answer is a refusal.
#[repr(C)]
#[derive(Clone, Copy, Debug, PartialEq, Eq)]
pub struct CRecord {
    pub answer: CAnswer,
    pub letter: u64,
    pub header: Header,
    pub payment: CPayment,
    pub trailer: Trailer,
}

// A writer: `stage` is 0 before the header and 1 in an open file; every other number is a closed file.
#[repr(C)]
#[derive(Clone, Copy, Debug, PartialEq, Eq)]
pub struct CWriter {
    pub stage: u64,
    pub file: File,
}

// The writer after the call; the given one, as it was, if the answer is a refusal.
#[repr(C)]
#[derive(Clone, Copy, Debug, PartialEq, Eq)]
pub struct CWriteResult {
    pub answer: CAnswer,
    pub writer: CWriter,
}

// The session after the call; the given one, as it was, if the answer is a refusal.
#[repr(C)]
#[derive(Clone, Copy, Debug, PartialEq, Eq)]
pub struct CTakeResult {
    pub answer: CAnswer,
    pub session: Session,
}

// The session after the accepted records, how many they are, how many files they closed, and how many bytes they had.
#[repr(C)]
#[derive(Clone, Copy, Debug, PartialEq, Eq)]
pub struct CRunResult {
    pub answer: CAnswer,
    pub session: Session,
    pub records: u64,
    pub files: u64,
    pub bytes: usize,
}

// How many bytes of the buffer are the page; 0 if the answer is a refusal.
#[repr(C)]
#[derive(Clone, Copy, Debug, PartialEq, Eq)]
pub struct CPageResult {
    pub answer: CAnswer,
    pub length: usize,
}
