// The C library: the functions that include/hollytrot.h declares. Each calls the function of its name in the crate
// hollytrot, which says what it does, and states its clauses again: what is promised of the one is proved of the other
// (specs/Outcomes.antt). It is a crate of its own since a crate is a library or a static library, and the crate
// promises stands on hollytrot.
//
// A slice is a pointer and a length in C, and a struct is the one of the same fields.
#![tactic(auto)]

mod barcodes;
mod pages;
mod records;
mod sessions;
mod version;
mod writers;
