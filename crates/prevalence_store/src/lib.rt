//! A crash-safe prevalence store for Lisp forms: what is accepted and writes is logged before it is answered.
//!
//! # What it promises the crate above
//!
//! The statement is `specs/Theorem.antt`. Of an honest disk (`disk_trait`), which after a stop reads as one of its images:
//!
//! - *What a call survives* (`Survives`): a crash at any moment of the call, inside a device call too, leaves files that mean
//!   the world after some of the forms that the call took, in order, from the first on; once it has ended, at least after
//!   those that it acknowledged. `execute` takes its one form, and acknowledges it if it answers `Accepted`; `run` takes those of its
//!   steps; `snapshot`, `cut_zeros` and `close` take none.
//! - *Between calls* (`Store::keeps_its_world`): whatever a crash leaves while a store is in no call means the world that it has.
//! - *What opening gives* (`Reopens`): if the files mean a world, `Store::open` gives that world, or a refusal that is no
//!   word on the files. While it opens, a crash leaves what the files might have meant before. A refusal gives the disk back.
//! - *The two together* (`headline`): after an opening and any calls in a row, a crash at any moment and an opening of what it leaves give
//!   the world after some of all the forms, from the first on, and after all that were acknowledged.
//! - *Openings in a row* (`recoveries`): so does an opening after a device fault, or after a stop of the process while the machine
//!   goes on, where a crash may leave more than one world; also where that opening is refused, or stopped itself.
//! - *Files of version 1* (`version_1_stays`): what version 1 accepted and meant is accepted and meant the same. `open` reads
//!   them, `execute` goes on in their half, and `snapshot` begins a half of version 3 on a disk that mixes, and after one of version 3, else of version 2; what these survive is said above, of
//!   files of all versions alike.
//!
//! Of every disk: each call returns; 60 comes exactly if the device's count of failures rose, and after it each call but
//! `close`, `world`, `half`, `version`, `generation` and `record_count` answers 61; a refusal of 1 to 47, 64, 65 or 90 changes nothing.
//!
//! - `Store::execute` answers what acceptance gives for a text in the world (`Executes`), each answer with its cause.
//! - `Store::snapshot` starts the half that is not in use with the text of the world (`snapshot_text`), and changes neither
//!   the world nor what the files mean (`Snapshots`).
//! - `Store::run` gives per step what these two answer in the state that the steps before it left (`TakesSteps`).
//! - `Store::execute_all` gives per text what these texts give in turn, and logs what they wrote together (`ExecutesAll`).
//! - `Store::together` takes a turn of the crate above (`Turn`), and logs the forms that it added to a batch together: all of them, or
//!   none, each with its cause (`IsMade`, `IsNotMade`). All calls above that log a form are turns. Of what a turn makes, nothing is answered
//!   before it is stored.
//! - `Store::visit` shows the world to a guest, who may evaluate there, and leaves it as it is (`Visit`).
//! - `Store::write_zeros_ahead` has the log write zeros behind its half, and `Store::cut_zeros` cuts them again (`CutsZeros`).
//! - `refusal_name` gives the name of a refusal by its number, empty for a number that is none.
//!
//! # Modules
//!
//! - `store` with `open`, `execute`, `execute_all`, `snapshot`, `zeros` and `run`: the store. `batch`: forms that are evaluated one after the other
//!   and logged together, one or many, all or none; `log`: the halves of `gate_log`, and whether the device has failed. `group`
//!   adds texts to a batch;
//!   `replay` makes the world again from the records of a log. `named` carries SETF of a property out from the text of a record, and GET of one;
//!   `tries` says when that is tried. `setting` says under what a text is read, by the mode, and what it is
//!   as one form (`form_reader`).
//! - `transaction`: a form as it is carried out, and as a question: what `form_eval` says, and FORGET-NAMES (`forgetting`), which no crate below knows.
//! - `turn`: what is done between a mark of the world and the log, which is one call, `together` of `store`; `one_text` and
//!   `all_texts` are two of them. `visit`: what is done in the world by somebody who leaves it as it is.
//! - `whole_macros`: the macro functions of a store, of which none is missing.
//! - `step`, `outcome`, `open_fault`: the words of the calls, with `Mode` of session_words. `failure`: why a form is not added, or not logged.
//! - `laws`: the headline, openings in a row, that an image means one world, that files of version 1 mean what they meant, and
//!   which numbers refuse a form.
//!
//! # Laws for the crates above
//!
//! - proofs/Surviving.antt: what calls survive, and how that joins (`one_world`, `still`).
//! - proofs/calls/Executing.antt: what is known of a store that is open (`known_world`), and of a form that was read (`form_places`,
//!   `own_whole`); proofs/calls/LeftAlone.antt: a half that is left alone (`alone_both`, `alone_still`); proofs/calls/Running.antt: the
//!   world after a form (`stores_left`).
//! - proofs/calls/CuttingZeros.antt: what was done before zeros were cut is all that was done (`cut_after`).
//! - proofs/meaning/Replaying.antt: the replay of records; proofs/meaning/Covering.antt: the world that files mean names known macro
//!   functions alone; proofs/meaning/Numbered.antt: the numbers with which a text is refused;
//!   proofs/meaning/Transactions.antt: a form that is not FORGET-NAMES is what form_eval says (`not_forgetting`, `no_operator`);
//!   proofs/steps/Committing.antt: the record of a form that was accepted is accepted again.
//! - For turns: proofs/steps/Grouping.antt: forms that are taken together (`one_replayed`, `of_value`, `fit_both`, `marked_more`);
//!   proofs/steps/Taking.antt: one of them (`one_record`, `one_size`, `stored_one`), and a batch of none (`none_in`).
//! - For readers: proofs/steps/Settings.antt: the setting in force is that of the world (`called_setting`, `plain_reads`);
//!   proofs/steps/Fitting.antt: what was read may be evaluated (`fits_in`, `is_form`).
#![tactic(auto)]

mod all_texts;
mod batch;
mod failure;
mod forgetting;
mod group;
mod laws;
mod log;
mod named;
mod one_text;
mod open_fault;
mod outcome;
mod replay;
mod setting;
mod step;
mod store;
mod transaction;
mod tries;
mod turn;
mod visit;
mod whole_macros;

pub use batch::Batch;
pub use failure::{Unadded, Unlogged};
pub use laws::{
    form_numbers, fresh_files, headline, one_world, recoveries, version_1_stays, version_2_stays,
};
pub use lisp_object::refusal::name_of as refusal_name;
pub use named::{FoundValue, get_from_text};
pub use open_fault::OpenFault;
pub use outcome::Outcome;
pub use session_words::Mode;
pub use setting::{WholeText, base_in, package_in, read_whole, readtable_in};
pub use step::Step;
pub use store::{Store, Unopened};
pub use transaction::ask;
pub use turn::Turn;
pub use visit::Visit;
pub use whole_macros::WholeMacros;
