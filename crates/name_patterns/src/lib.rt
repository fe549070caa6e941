//! Names that are like a pattern with stars: `is_like` (module `patterns`), as `show --like` of the program takes names.
#![tactic(auto)]

mod patterns;

pub use patterns::is_like;
