//! A stored macro function.
ghost use Rattle.user_macros.specs.Sound.{IsSoundCall};

use crate::{Answer, Call};
use readtable_core::FnName;
use std::alloc::AllocError;

/// A macro function. It answers out of memory, or what the meaning says; a function that allocates captures its allocator.
pub type MacroFn = Box<dyn Fn(Call) -> Result<Answer, AllocError>>;

/// A function under its name. It may be called on every sound call.
#[derive(Drop)]
pub struct StoredFunction {
    pub name: FnName,
    pub function: MacroFn,
    pub ghost callable: { (call : _) → IsSoundCall call → MacroFn.pre function call },
}
