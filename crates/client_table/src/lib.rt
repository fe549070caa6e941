//! A table of clients in a store: for each client that has a name the number of its last message and the answer to it. A message that is
//! sent again is answered again, by the world alone.
//!
//! - `answer_first_asked` answers messages with a name, messages with a number and questions, one after the other, and logs what they need
//!   together (`AnswersFirstAsked` of specs/CallsByName.antt). What is answered is specs/Named.antt, what the table is specs/Entries.antt, and what
//!   the text of a message with a name is specs/Names.antt.
//! - The answer to a message with a name stands beside its number in the table when the call ends (`KeepsAnswers`), in the append of what the
//!   message wrote.
//!
//! - `messages_have_one_answer` is a law: the last message of a client is answered again, no message under its number is carried out, and in
//!   which batches messages come changes nothing.
//!
//! A message with a name is carried out as one with a number is, in a world without the position, which stays what it is. Its entry is set
//! by itself, and the text that sets it is logged (`entry_made`). A client is admitted and goes by forms of the store's own, which are read
//! and evaluated as all are; after each of these the store looks whether the table says what it should.
//!
//! That the symbols of an entry are there when it is set is proved, and not looked at: no form takes them away (`given_has` of
//! proofs/StayingForms.antt).
//!
//! Lemmas that crates above use: proofs/AskedTogether.antt, of batches beside one round of all that is asked (`asked_stands`, `named_more`);
//! proofs/Settling.antt, of what is left of what is not answered (`asked_unchanged`).
//!
//! # Modules
//!
//! - `calls`; `laws`; `asked`: what is asked; `turn`: as a turn of the store
//! - `table`: a message with a name, by the table; `entry`: the entries, as properties of the world; `name`: the name of a client;
//!   `texts`: the store's own forms
#![tactic(auto)]

mod asked;
mod calls;
mod entry;
mod laws;
mod name;
mod table;
mod texts;
mod turn;

pub use asked::{AnyRequest, KEPT_BYTES, NO_ENTRY, NO_FRAME, NO_ROOM, NOT_KEPT, Named, OTHER_TEXT};
pub use calls::answer_first_asked;
pub use laws::messages_have_one_answer;
