//! Names that go: the symbols that a world does not need, and the world without them.
//!
//! A symbol that was only looked up stays in its package. `is_needed` (specs/NeededSymbols.antt) says which symbols a world needs, and
//! `forgotten` (specs/WorldsWithoutNames.antt) is the world without the others. `forget` makes it from its text: that of the world with the
//! names that it needs, which snapshot_text reads.
//!
//! - `laws`: what holds of that world
//! - `unneeded`: the symbols that it does not need, over `marks`: symbols that are marked by their numbers
//! - `forgetting`: `forget`
//!
//! Crates above cite the lemmas of proofs/NothingForgotten.antt; and of proofs/ForgottenSound.antt (`symbol_stays`), proofs/NeededSymbols.antt
//! (`in_list`) and proofs/Members.antt (`among_itself`, `among_later`, `among_left`, `among_right`).
#![tactic(auto)]

mod forgetting;
mod laws;
mod marks;
mod unneeded;

pub use forgetting::forget;
pub use laws::{
    forgetting_again_changes_nothing, forgotten_worlds_are_sound, needed_symbols_stay,
    nothing_to_forget, what_is_not_forgotten,
};
pub use unneeded::{forgettable, forgettable_count};
