//! Lisp objects as data.
ghost use Rattle.std.specs.Prelude.{◌≡◌, ◌≢◌, ◌↔◌, ℕ, List, Option, true, IsTrue, IfErr, IfOk, codes};
ghost use Rattle.lisp_object.specs.Object.{is_nil, object_is_list};
ghost use Rattle.lisp_object.specs.Datum.{object_of, is_proper, is_list};

use crate::{Boxed, Bytes, Items, Ratio};
use std::alloc::{AllocError, Global};

/// A Lisp object. Equal data are the same tree. A datum is proper (`is_proper`) where each list in it has an item and no
/// list as its tail, and each byte in it is below 128; the empty list is the symbol NIL of COMMON-LISP.
#[derive(PartialEq, Eq, Debug)]
pub enum Datum {
    /// An integer (standard 2.3.1).
    Integer(i128),
    /// A ratio, in lowest terms (standard 2.3.2).
    Rational(Ratio),
    /// A character, by its code.
    Char(u8),
    /// A string.
    Text(Bytes),
    /// A symbol, by the name of its home package and its own name.
    Symbol {
        package: Bytes,
        name: Bytes,
    },
    /// A symbol without a home, by its name.
    Uninterned(Bytes),
    /// A list of items, which ends in NIL or, where there is one, in the tail (standard 2.4.1).
    List {
        items: Items<Datum>,
        tail: Option<Boxed<Datum>>,
    },
    /// A vector of items.
    Vector(Items<Datum>),
}

// A call, so that a function that owns a datum does not see each kind of it at each exit.
impl Drop for Datum {
    fn drop(self) {
        match self {
            Datum::Integer(_) => (),
            Datum::Rational(_) => (),
            Datum::Char(_) => (),
            Datum::Text(_) => (),
            Datum::Symbol {
                package: _,
                name: _,
            } => (),
            Datum::Uninterned(_) => (),
            Datum::List { items: _, tail: _ } => (),
            Datum::Vector(_) => (),
        }
    }
}

impl Datum {
    /// NIL, the symbol of COMMON-LISP, which is the empty list. Its name takes memory.
    pub fn nil(alloc: Global) -> Result<Datum, AllocError>
        ensures { IfOk result (λ d. d ≡ Datum.Symbol (codes "COMMON-LISP") (codes "NIL")) }
    {
        Ok(Datum::Symbol {
            package: Bytes::from_slice(alloc, b"COMMON-LISP")?,
            name: Bytes::from_slice(alloc, b"NIL")?,
        })
    }

    /// The items and the tail of a `List`, moved out; or the same datum, where it is another.
    pub fn into_list(self) -> Result<(Items<Datum>, Option<Boxed<Datum>>), Datum>
        ensures list { IfOk result (λ parts. self ≡ Datum.List parts.0 parts.1) }
        ensures same { IfErr result (λ same. same ≡ self) }
        ensures other { IfErr result (λ _. (items : List Datum) (tail : Option Datum)
            → self ≢ Datum.List items tail) }
    {
        match self {
            Datum::List { items, tail } => Ok((items, tail)),
            other => Err(other),
        }
    }

    /// The items of a `Vector`, moved out; or the same datum, where it is another.
    pub fn into_vector(self) -> Result<Items<Datum>, Datum>
        ensures vector { IfOk result (λ items. self ≡ Datum.Vector items) }
        ensures same { IfErr result (λ same. same ≡ self) }
        ensures other { IfErr result (λ _. (items : List Datum) → self ≢ Datum.Vector items) }
    {
        match self {
            Datum::Vector(items) => Ok(items),
            other => Err(other),
        }
    }

    /// The names of a `Symbol`, its package's and its own, moved out; or the same datum, where it is another.
    pub fn into_symbol(self) -> Result<(Bytes, Bytes), Datum>
        ensures symbol { IfOk result (λ names. self ≡ Datum.Symbol names.0 names.1) }
        ensures same { IfErr result (λ same. same ≡ self) }
        ensures other { IfErr result (λ _. (home name : List ℕ) → self ≢ Datum.Symbol home name) }
    {
        match self {
            Datum::Symbol { package, name } => Ok((package, name)),
            other => Err(other),
        }
    }

    /// The characters of a `Text`, moved out; or the same datum, where it is another.
    pub fn into_text(self) -> Result<Bytes, Datum>
        ensures text { IfOk result (λ characters. self ≡ Datum.Text characters) }
        ensures same { IfErr result (λ same. same ≡ self) }
        ensures other { IfErr result (λ _. (characters : List ℕ) → self ≢ Datum.Text characters) }
    {
        match self {
            Datum::Text(characters) => Ok(characters),
            other => Err(other),
        }
    }

    /// Whether it is NIL, the empty list.
    pub fn is_nil(&self) -> bool
        ensures { IsTrue result ↔ (self.now ≡ Datum.Symbol (codes "COMMON-LISP") (codes "NIL")) }
    {
        match self {
            Datum::Symbol {
                package: home,
                name,
            } => is_name_of_nil(home, name),
            _ => false,
        }
    }

    /// Whether it is a list: a `List`, or NIL.
    #[tactic(auto, using(crate::proofs::ProperLists::list_object))]
    pub fn is_list(&self) -> bool
        ensures value { result ≡ is_list self.now }
        ensures object { is_proper self.now ≡ true → result ≡ object_is_list (object_of self.now) }
    {
        match self {
            Datum::List { .. } => true,
            Datum::Symbol { package, name } => is_name_of_nil(package, name),
            _ => false,
        }
    }
}

// Whether a symbol of this home and name is NIL.
fn is_name_of_nil(home: &Bytes, name: &Bytes) -> bool
    ensures { result ≡ is_nil home.now name.now }
{
    home.as_slice() == b"COMMON-LISP".as_slice() && name.as_slice() == b"NIL".as_slice()
}
