// What each of the six answers, with no closure.
use crate::SixFunctions;
use crate::macro_functions::{scale, square, unit};
use fixed_macros::Answering;
use readtable_core::FnName;
use std::alloc::{AllocError, Global};
use user_macros::{Answer, Call};

impl Answering for SixFunctions {
    fn answer(&self, alloc: Global, name: FnName, call: Call) -> Result<Answer, AllocError> {
        if b"SQUARE".as_slice() == name.as_bytes() {
            return square(alloc, call);
        }
        if b"CLOSE".as_slice() == name.as_bytes() {
            return Ok(Answer::Refused(1));
        }
        if b"UNIT".as_slice() == name.as_bytes() {
            return unit(alloc, call);
        }
        if b"SCALE".as_slice() == name.as_bytes() {
            return Ok(scale(call));
        }
        Ok(Answer::Nothing)
    }
}
