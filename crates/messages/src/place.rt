// The position: a property of the world.
ghost use Rattle.std.specs.Prelude.{◌≡◌, IfOk, IfSome, is_some, true};
ghost use Rattle.std.specs.Option.{option_map};
ghost use Rattle.lisp_object.specs.Datum.{is_proper, object_of};
ghost use Rattle.messages.specs.Position.{is_position_hidden, number_of_object, position, position_property};

use lisp_object::Datum;
use package_table::Resolved;
use plist_state::{Symbol, World};
use std::alloc::{AllocError, Global};
use std::marker::Model;

/// Where the position stands: the symbol whose property of its own name it is.
#[derive(Drop)]
pub(crate) struct PositionPlace {
    symbol: Symbol,
}

impl Model for PositionPlace {
    ghost use Rattle.std.specs.Prelude.{◌≡◌};
    ghost use Rattle.plist_state.specs.Views.{symbol_of};
    ghost use Rattle.messages.specs.Position.{position_symbol};

    ghost Value = { Unit {0} };

    ghost view = { λ _. tt };

    ghost invariant = { λ place. symbol_of place.symbol ≡ position_symbol };
}

impl PositionPlace {
    /// The place.
    pub(crate) fn new(alloc: Global) -> Result<PositionPlace, AllocError> {
        let symbol = Symbol::from_bytes(alloc, b"COMMON-LISP-USER", b"position")?;
        Ok(PositionPlace { symbol })
    }

    // What stands there; None where nothing does.
    fn value<'a>(&self, world: &'a World) -> Option<&'a Datum>
        ensures value { option_map (λ d. object_of d.now) result ≡ position_property world.now.0 }
        ensures proper { IfSome result (λ d. is_proper d.now ≡ true) }
    {
        world.get(&self.symbol, &self.symbol)
    }

    /// Whether anything stands there.
    pub(crate) fn is_taken(&self, world: &World) -> bool
        ensures { result ≡ is_some (position_property world.now.0) }
    {
        if world.plist(&self.symbol).is_empty() {
            return false;
        }
        self.value(world).is_some()
    }

    /// Whether the name of the symbol stands for another one in COMMON-LISP-USER.
    pub(crate) fn is_hidden(&self, world: &World) -> bool
        ensures { result ≡ is_position_hidden world.now.0 }
    {
        world.soundness();
        match world.packages().resolve(b"COMMON-LISP-USER", b"position") {
            Ok(Resolved::Found(home)) => home != b"COMMON-LISP-USER".as_slice(),
            Ok(Resolved::New(_)) => false,
            Err(_) => false,
        }
    }

    /// The number that stands there; None where nothing does, or something else than a number of 64 bits.
    pub(crate) fn number(&self, world: &World) -> Option<u64>
        ensures { result ≡ position world.now.0 }
    {
        match self.value(world) {
            Some(value) => number_of(value),
            None => None,
        }
    }
}

/// The number of 64 bits that a datum is; None of any other datum, also of an integer below 0 or over 64 bits.
pub fn number_of(datum: &Datum) -> Option<u64>
    requires { is_proper datum.now ≡ true }
    ensures { result ≡ number_of_object (object_of datum.now) }
{
    match datum {
        Datum::Integer(number) => match u64::try_from(*number) {
            Ok(number) => Some(number),
            Err(_) => None,
        },
        Datum::Rational(_) => None,
        Datum::Char(_) => None,
        Datum::Text(_) => None,
        Datum::Symbol { .. } => None,
        Datum::Uninterned(_) => None,
        Datum::List { .. } => None,
        Datum::Vector(_) => None,
    }
}
