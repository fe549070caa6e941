//! Which function a name is, and how it gathers.
ghost use Rattle.std.specs.Prelude.{◌≡◌};
ghost use Rattle.lisp_reading.specs.Setting.{function_of, is_baseless, standard_way, user_way};
ghost use Rattle.user_macros.specs.Functions.{Functions};

use crate::way::{Function, Keep, Way};
use readtable_core::FnName;
use std_macros::{Standard, StdGather, radix_of, standard_of};
use user_macros::Gather;

/// The function of a name.
#[tactic(auto, using(crate::proofs::Functions::known_so, crate::proofs::Functions::known_none))]
#[inline(always)]
pub fn function_of(name: FnName) -> Function
    ensures { result ≡ function_of name }
{
    match standard_of(name) {
        Some(kind) => Function::Standard(kind),
        None => Function::User(name),
    }
}

/// Whether the function is STD-RADIX, called without a base.
#[inline(always)]
pub fn is_baseless(kind: Standard, number: Option<u32>) -> bool
    ensures { result ≡ is_baseless kind number }
{
    match kind {
        Standard::Radix => radix_of(number).is_none(),
        _ => false,
    }
}

/// How a standard function gathers, where `same` called it.
#[inline(always)]
pub fn standard_way(same: u8, gather: StdGather) -> Way
    ensures { result ≡ standard_way same gather }
{
    match gather {
        StdGather::Nothing => Way::Nothing,
        StdGather::One => Way::Next,
        StdGather::List => Way::List,
        StdGather::Many => Way::Until(b')'),
        StdGather::Text => Way::Text(same),
        StdGather::Line => Way::Line(Keep::Dropped),
        StdGather::Block => Way::Block,
        StdGather::Token => Way::Token,
        StdGather::EscapedToken => Way::EscapedToken,
    }
}

/// How a function of a user gathers, where `same` called it.
pub fn user_way(same: u8, gather: Gather) -> Way
    ensures { result ≡ user_way same gather }
{
    match gather {
        Gather::Nothing => Way::Nothing,
        Gather::Next => Way::Next,
        Gather::Until(close) => Way::Until(close),
        Gather::Text(close) => Way::Text(close),
        Gather::TextSame => Way::Text(same),
        Gather::Line => Way::Line(Keep::Kept),
        Gather::Token => Way::Token,
    }
}
