//! The case and the meaning of a token.
//!
//! A token is read as marks (crate `token_scan`): characters as they are or escaped, and bars. `fold_case` changes the
//! letters that were not escaped, as the readtable says (standard 23.1.2). `meaning` then says what the token is (standard
//! 2.3): a number, the dot of a list, or a name with its package prefix, which the crate above looks up.
//!
//! - `fold_case` leaves the marks that `folded` gives (specs/Folding.antt), in place and without memory.
//! - `meaning` answers what `meaning_of` gives in the base asked for (specs/Meanings.antt), or the refusal; its numbers are
//!   proper data, and its names ASCII where the marks are. Out of memory is answered in place of a name alone.
//! - `rational` answers the integer or the ratio of digits in a base that marks are, with no decimal point (`rational_of`).
//! - `numbers_are_concatenations` and `rationals_are_concatenations` say that the numbers are those of the grammar.
//! - `MeaningRefusal`, `MeaningError` and `scan_refusal_number` have the numbers of the refusals, those of `token_scan` too.
//!
//! Numbers are defined by where a text is cut (specs/Numbers.antt), and `laws` says that these are the numbers of the
//! grammar (specs/Grammar.antt), in which a text is the parts of its form, one after the other. What digits are worth is the
//! sum of each digit times the power of the base that belongs to its place (`value`, specs/Numerals.antt).
//!
//! A crate above that computes `meaning_of` on a literal token opens `value`, and `greatest_divisor` of lisp_object.
//!
//! # For proofs above
//!
//! These lemmas stay under these names:
//!
//! - `proofs/Spelled.antt`: `digits_given`, `decimal_given`, `ratio_given`, `float_given`; `rational_of_digits`,
//!   `rational_of_ratio`
//! - `proofs/NumberFronts.antt`: `no_number`, `begins_number`: what does not begin as a number is none
//! - `proofs/Forms.antt`: `found`, `rational_found`
//! - `proofs/Parts.antt`: `cut_with`, `cut_without`, `cut_past`, `cut_parts`
//! - `proofs/Patterns.antt`: `unmarked`, `marked`, `keyword_given`, `external_given`, `internal_given`, `one_refused`,
//!   `two_refused`, `no_prefix`
//! - `proofs/Codes.antt`: `plain_characters`
//! - `proofs/Folds.antt`: `folded_ascii`. `proofs/Ascii.antt`: `ascii_characters`, `ascii_name`
//!
//! # Modules
//!
//! - `case`: `fold_case`
//! - `token`: `meaning`, `rational`, `TokenMeaning`, `TokenName`; of `names` the package patterns
//! - `numbers`, and `numerals` for the digits
//! - `refusal`: `MeaningRefusal`, `MeaningError`, `scan_refusal_number`
//! - `laws`: the numbers of the grammar
#![tactic(auto)]

mod case;
mod laws;
mod names;
mod numbers;
mod numerals;
mod refusal;
mod token;

pub use case::fold_case;
pub use laws::{numbers_are_concatenations, rationals_are_concatenations};
pub use refusal::{MeaningError, MeaningRefusal, scan_refusal_number};
pub use token::{TokenMeaning, TokenName, meaning, rational};
