//! The world: packages, the property lists of symbols, readtables by name, which package and which readtable are current, and
//! in which base numbers are read.
//!
//! Contracts see a world as the pair of its state (`WorldState` of `specs/State.antt`) and the list of the states that were
//! marked. A state has the packages, a finite map from symbols to their property lists, of which none is empty, a finite map
//! from names to readtables, the two current names, and the base. `IsSound` (specs/Sound.antt) says what holds of each state, and
//! `World::soundness` gives it. What each call makes of a state, or why it refuses, is a definition of specs/Changes.antt, or
//! of package_table for the calls on packages. A call that is refused, or that runs out of memory, changes nothing, and
//! `OutOfMemory` comes only where the definition refuses nothing.
//!
//! `World::mark` adds the state to the marked ones, `put_in_place` does so and puts another world there, `back_to` goes back
//! to one, and `settle` forgets them all; every other call leaves the list as it is. A mark copies nothing. Each call that writes makes room for a note first, then moves what it
//! overwrites into the note (`Note`), and notes it under the newest mark (`journal`); `back_to` undoes the notes, the last first
//! (`undo`), and does not fail: a row that was emptied stays, with its memory, and the journal's invariant (`IsJournal`
//! of specs/Journal.antt) says that each row has memory for what is put back. The packages have marks of their own, which cut
//! their lists. What another world was put in the place of is kept whole (`Replaced`), with its own marks.
//!
//! Property lists are kept by the numbers that package_table gives to symbols, and in them each indicator is such a number
//! too. What is kept is a `NumberedRest` (specs/Views.antt), of which the definitions of the journal speak; `lists` of
//! specs/Lists.antt gives the lists of the symbols, by which contracts see a state (`state_in` of specs/MarkedWorlds.antt).
//!
//! - `world`: `World`, and what is asked of it
//! - `readers`: the lists that it gives
//! - `properties`, `packages`, `readtables`, `base`: the calls that write; `found_names`: a property by the names that find it
//! - `marks`: `mark`, `put_in_place`, `mark_count`, `back_to`, `settle`, over `journal` (notes under marks), `undo` (notes
//!   undone) and `replaced` (what another world was put in the place of)
//! - `note`: what is noted of a change; `overwritten`: what need not be
//! - `numbers`: the number of a symbol, as `rows` takes it
//! - `symbol`, `property`, `property_list`: `Symbol`, `BorrowedSymbol`, `Property`, `PropertyList`
//! - `error`: `ReadtableError`
//! - `stored`: what a world keeps besides its packages, over `rows` (property lists by number; `row_index`: the indexes of
//!   long ones; `pops`: items taken off their lists; `first_items`: the front of a list) and `tables` (readtables by name; `copies`: those that are copied)
//! - `sizes`: how large lists are that items were put before
//!
//! # Definitions for the crates above
//!
//! - specs/State.antt: `WorldState`, `Worlds`, `Readtables`, `initial`, `first_readtables`, `first_base`, `standard_name`, `user_name`
//! - specs/Properties.antt: `Symbol`, `Plist`, `Properties`, `symbol_cmp`, `same_symbol`, `value_at`, `with_value`, `list_at`,
//!   `with_list`
//! - specs/Changes.antt: what each call makes of a state; specs/PushedLists.antt: `pushed`, `with_pushed`, `holds_pair`, `pair_size`;
//!   specs/PoppedLists.antt: `first_item`, `with_popped`
//! - specs/Found.antt: `PutsFound`; specs/Sound.antt: what holds of each state; specs/Readers.antt: the lists that a world gives
//! - specs/Views.antt: `symbol_of`, `symbol_named`, `property_of`; specs/ErrorNumbers.antt: `readtable_error_number`; specs/Codes.antt: `state_code`
//!
//! # Laws for the crates above
//!
//! - proofs/Soundness.antt: what a change leaves is sound: `sound_packages`, `sound_put`, `sound_removed`, `sound_in_package`,
//!   `sound_in_readtable`, `sound_base`; proofs/FirstWorld.antt: so is the first state: `first_sound`
//! - proofs/KeptWorld.antt: the same of a change of the readtables: `sound_changed`, `sound_copied`, `sound_syntax`,
//!   `named_case`, `named_macro`, `named_dispatching`, `named_dispatched`, `dispatch_there`
//! - proofs/Popped.antt: a first item taken off a list: `first_there`, `none_popped`, `with_popped_there`, `rest_value`
//! - proofs/Lists.antt: a symbol is given a property list: `get-with_list`, `list-with_list`, `with_list_twice`, `kept`
//! - proofs/AllSymbols.antt: that each symbol of a table is listed, and that they rise: `symbol_among`, `symbols_rise`
//! - proofs/Orders.antt: symbols and names are in one order: `symbol_total`, `symbol_exact`, `symbol_tied`, `one_symbol`,
//!   `name_total`, `name_exact`, `name_tied`, `one_name`
#![tactic(auto)]

mod base;
mod copies;
mod error;
mod first_items;
mod found_names;
mod journal;
mod marks;
mod note;
mod numbers;
mod overwritten;
mod packages;
mod pops;
mod properties;
mod property;
mod property_list;
mod readers;
mod readtables;
mod replaced;
mod row_index;
mod rows;
mod sizes;
mod stored;
mod symbol;
mod tables;
mod undo;
mod world;

pub use error::ReadtableError;
pub use package_table::Seed;
pub use property::Property;
pub use property_list::PropertyList;
pub use symbol::{BorrowedSymbol, Symbol};
pub use tables::{MAX_READTABLES, STANDARD, USER};
pub use world::World;
