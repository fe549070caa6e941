//! The store for C: an engine that a program holds by a slot, and that makes no call of the system.
//!
//! What a device has to do comes out as orders (`deferred_disk`), which the caller carries out on two files before it passes an answer
//! on. While orders are open, a call that would execute or write answers 61, and nothing changes. `clients/c` is such a caller; its
//! `engine.h` has these exports.
//!
//! - `engine`: a store over a disk that defers its calls, and what it answered last.
//!   `answer` prints answers, `many` takes many texts and gives many answers, `requests` does so for messages and questions, and `calls`
//!   has what C asks for.
//! - `slot`, `handle`, `parts`: an engine as C holds it. Their proofs alone are walks over raw pointers.
//! - `exports`: what C calls. `done` is how a call ended.
//!
//! The clauses are those of prevalence_store, over `specs/Engine.antt`.
#![tactic(auto)]

mod answer;
mod calls;
mod done;
mod engine;
mod exports;
mod handle;
mod many;
mod parts;
mod requests;
mod slot;

pub use done::{CallResult, HalfReport, RequestHead, Setting};
pub use slot::EngineSlot;
