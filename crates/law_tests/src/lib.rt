//! Callers of laws: each calls one as a user would, and its contract says what came of it.
//!
//! A law is the contract of a function that does nothing. That a crate proves it does not show that values meet its premises, nor that a proof
//! can use it; a caller shows both. Laws of which a store, a session or a log is the user have their callers in `program_tests`, and those of
//! the program in `machine_tests`.
//!
//! - `outcomes`: what was read of a text; `tokens`: a token, and the look-up of a name; `round_trip`: an object that is printed and read again
//! - `carried_out`: a form that is carried out in a world; `answers`: a form that a store answers as an earlier program did
//! - `earlier_files`: a store that is opened on files of version 2
//! - `texts`: two worlds with the same text; `parts`: the export of the data of a world, and what each of its parts makes
//! - `batches`: records that come together, and what a crash leaves of their bytes; `batch_writes`: the writes of such records to a half
//! - `halves`: what a half of version 3 holds as it is read, and one of its records
//! - `mixing`: a write on a disk that mixes; `ordered`: a crash between two orders of a disk that somebody else carries out
//! - `in_use`: logs whose disks read the same
//! - `read_back`: an answer that is read back from its bytes
//! - `first_answers`: a session of messages up to its first answers, and what follows where these messages are fed again
//! - `told_again`: a message with a name that is sent again
//!
//! Lemmas in `proofs`: `Bytes`, `Knowing`.
#![tactic(auto)]

#[cfg(test)]
mod answers;
#[cfg(test)]
mod batch_writes;
#[cfg(test)]
mod batches;
#[cfg(test)]
mod carried_out;
#[cfg(test)]
mod earlier_files;
#[cfg(test)]
mod first_answers;
#[cfg(test)]
mod halves;
#[cfg(test)]
mod in_use;
#[cfg(test)]
mod mixing;
#[cfg(test)]
mod ordered;
#[cfg(test)]
mod outcomes;
#[cfg(test)]
mod parts;
#[cfg(test)]
mod read_back;
#[cfg(test)]
mod round_trip;
#[cfg(test)]
mod texts;
#[cfg(test)]
mod tokens;
#[cfg(test)]
mod told_again;

/// A limit that no file of a test comes near.
#[cfg(test)]
const AMPLE: u64 = 1 << 30;
