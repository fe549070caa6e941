//! The functions of the standard readtable.
ghost use Rattle.std.specs.Prelude.{◌≡◌, IfOk, map};
ghost use Rattle.std.specs.List.{range_with_len};
ghost use Rattle.readtable_core.specs.Tables.{standard_function, standard_sub_function};

use crate::names::{FnName, named};
use crate::standard_names::{
    STD_BINARY, STD_BLOCK, STD_CHAR, STD_CLOSE, STD_COMMENT, STD_DISPATCH, STD_FUNCTION, STD_HEX,
    STD_LIST, STD_OCTAL, STD_OUT, STD_QUOTE, STD_RADIX, STD_STRING, STD_UNINTERNED, STD_VECTOR,
};
use std::alloc::{AllocError, Global};

/// The dispatch table of `#` in the standard readtable.
pub(crate) fn standard_dispatch(alloc: Global) -> Result<Vec<Option<FnName>>, AllocError>
    ensures { IfOk result (λ v. v.items ≡ map standard_sub_function (range_with_len 0 128)) }
{
    let mut dispatch = Vec::with_capacity(alloc, 128)?;
    for sub in 0..128 {
        dispatch.push(standard_sub_function_of(sub))?;
    }
    Ok(dispatch)
}

/// The function of a macro character of the standard readtable.
pub(crate) fn standard_function_of(c: u8) -> Option<FnName>
    ensures { result ≡ standard_function c }
{
    match c {
        b'"' => Some(named(STD_STRING)),
        b'#' => Some(named(STD_DISPATCH)),
        b'\'' => Some(named(STD_QUOTE)),
        b'(' => Some(named(STD_LIST)),
        b')' => Some(named(STD_CLOSE)),
        b';' => Some(named(STD_COMMENT)),
        b',' | b'`' => Some(named(STD_OUT)),
        _ => None,
    }
}

/// The function of a sub-character, in upper case, of `#` in the standard readtable.
fn standard_sub_function_of(sub: u8) -> Option<FnName>
    ensures { result ≡ standard_sub_function sub }
{
    match sub {
        b'\\' => Some(named(STD_CHAR)),
        b'\'' => Some(named(STD_FUNCTION)),
        b'(' => Some(named(STD_VECTOR)),
        b':' => Some(named(STD_UNINTERNED)),
        b'|' => Some(named(STD_BLOCK)),
        b'B' => Some(named(STD_BINARY)),
        b'O' => Some(named(STD_OCTAL)),
        b'X' => Some(named(STD_HEX)),
        b'R' => Some(named(STD_RADIX)),
        b'=' | b'#' | b'+' | b'-' | b'.' | b'*' | b'A' | b'C' | b'P' | b'S' => {
            Some(named(STD_OUT))
        }
        _ => None,
    }
}
