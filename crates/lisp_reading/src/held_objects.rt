//! What a reader holds while calls are open: proper and sound objects, and characters.
ghost use Rattle.std.specs.Prelude.{◌≡◌, ◌<◌, [], ◌∷◌, ◌++◌, true, false, codes, pos, map, length, All, Some, None, is_some, nat_le, ◌≤◌, IfOk, IfSome, OnOk, IsTrue};
ghost use Rattle.readtable_core.specs.Characters.{is_digit};
ghost use Rattle.lisp_reading.specs.Gathering.{next_digit};
ghost use Rattle.std.specs.List.{list_all};
ghost use Rattle.lisp_object.specs.Ascii.{is_ascii};
ghost use Rattle.lisp_object.specs.Object.{IsSound, integer, text, symbol, list_of};
ghost use Rattle.lisp_object.specs.Datum.{object_of, is_proper};
ghost use Rattle.package_table.specs.Symbols.{are_there};
ghost use Rattle.std_macros.specs.Values.{headed};

use lisp_object::{Bytes, Datum, Items};
use package_table::Packages;
use std::alloc::{AllocError, Global};
use std::marker::Model;

/// A proper datum whose object is sound, so that nothing looks at it once more. Contracts see it as its object.
pub struct HeldObject {
    datum: Datum,
}

impl Drop for HeldObject {
    fn drop(self) {
        let HeldObject { datum: _ } = self;
    }
}

impl Model for HeldObject {
    ghost use Rattle.std.specs.Prelude.{◌≡◌, true};
    ghost use Rattle.lisp_object.specs.Object.{Object, IsSound};
    ghost use Rattle.lisp_object.specs.ObjectCode.{object_code};

    ghost Value = { Object };

    ghost coded = { object_code };

    ghost use Rattle.lisp_object.specs.Datum.{object_of, is_proper};

    ghost view = { λ h. object_of h.datum };

    ghost invariant = { λ h. (is_proper h.datum ≡ true) × IsSound (object_of h.datum) };
}

impl HeldObject {
    /// Holds `datum`, which is proper and sound.
    #[inline(always)]
    pub fn new(datum: Datum) -> HeldObject
        requires proper { is_proper datum ≡ true }
        requires sound { IsSound (object_of datum) }
        ensures { result ≡ object_of datum }
    {
        HeldObject { datum }
    }

    /// Holds a text of these characters.
    pub fn text(bytes: Bytes) -> HeldObject
        requires { list_all is_ascii bytes ≡ true }
        ensures { result ≡ text bytes }
    {
        HeldObject {
            datum: Datum::Text(bytes),
        }
    }

    /// Holds an integer.
    pub fn integer(n: u64) -> HeldObject
        ensures { result ≡ integer (pos n) }
    {
        HeldObject {
            datum: Datum::Integer(i128::from(n)),
        }
    }

    /// The symbol of this home and name.
    #[tactic(auto, using(lisp_object::proofs::Objects::object_laws, lisp_object::proofs::Properness::proper_laws))]
    #[inline(always)]
    pub fn symbol(alloc: Global, home: &[u8], name: Bytes) -> Result<HeldObject, AllocError>
        requires home { list_all is_ascii home.now ≡ true }
        requires name { list_all is_ascii name ≡ true }
        ensures { IfOk result (λ x. x ≡ symbol home.now name) }
    {
        let package = Bytes::from_slice(alloc, home)?;
        Ok(HeldObject {
            datum: Datum::Symbol { package, name },
        })
    }

    /// The list of QUOTE and this object.
    #[inline]
    pub fn quoted(self, alloc: Global) -> Result<HeldObject, AllocError>
        ensures { IfOk result (λ x. x ≡ headed (codes "QUOTE") self) }
    {
        let mut items = HeldObjects::with_capacity(alloc, 2)?;
        items.push(quote(alloc)?)?;
        items.push(self)?;
        items.into_list(alloc)
    }

    /// Whether each of its interned symbols is one of these packages. Of a list and a vector it does not tell.
    pub fn is_there(&self, packages: &Packages) -> bool
        ensures { result ≡ true → are_there packages.now.0 self.now ≡ true }
    {
        match &self.datum {
            Datum::Symbol { package, name } => {
                packages.is_symbol(package.as_slice(), name.as_slice())
            }
            Datum::List { items: _, tail: _ } => false,
            Datum::Vector(_) => false,
            Datum::Integer(_) => true,
            Datum::Rational(_) => true,
            Datum::Char(_) => true,
            Datum::Text(_) => true,
            Datum::Uninterned(_) => true,
        }
    }

    /// The datum, moved out.
    #[inline(always)]
    pub fn into_datum(self) -> Datum
        ensures object { object_of result ≡ self }
        ensures proper { is_proper result ≡ true }
        ensures sound { IsSound (object_of result) }
    {
        let HeldObject { datum } = self;
        datum
    }
}

/// The symbol QUOTE.
#[inline(always)]
fn quote(alloc: Global) -> Result<HeldObject, AllocError>
    ensures { IfOk result (λ x. x ≡ symbol (codes "COMMON-LISP") (codes "QUOTE")) }
{
    let name = Bytes::from_slice(alloc, b"QUOTE")?;
    HeldObject::symbol(alloc, b"COMMON-LISP", name)
}

/// Such data in order, which contracts see as their objects.
pub struct HeldObjects {
    data: Vec<Datum>,
}

impl Drop for HeldObjects {
    fn drop(self) {
        let HeldObjects { data: _ } = self;
    }
}

impl Model for HeldObjects {
    ghost use Rattle.std.specs.Prelude.{◌≡◌, true, List, map, All};
    ghost use Rattle.std.specs.List.{list_all};
    ghost use Rattle.std.specs.Coded.{coded_list};
    ghost use Rattle.lisp_object.specs.Object.{Object, IsSound};
    ghost use Rattle.lisp_object.specs.ObjectCode.{object_code};

    ghost Value = { List Object };

    ghost coded = { coded_list object_code };

    ghost use Rattle.lisp_object.specs.Datum.{object_of, is_proper};

    ghost view = { λ h. map object_of h.data.items };

    ghost invariant = { λ h.
        (list_all is_proper h.data.items ≡ true) × All (λ d. IsSound (object_of d)) h.data.items };
}

impl HeldObjects {
    /// No objects. It keeps `alloc` for later ones.
    pub fn new(alloc: Global) -> HeldObjects
        ensures { result ≡ [] }
    {
        HeldObjects {
            data: Vec::new(alloc),
        }
    }

    /// No objects, and room for so many.
    #[inline(always)]
    pub fn with_capacity(alloc: Global, capacity: usize) -> Result<HeldObjects, AllocError>
        ensures { IfOk result (λ xs. xs ≡ []) }
    {
        Ok(HeldObjects {
            data: Vec::with_capacity(alloc, capacity)?,
        })
    }

    /// One more object, after the others. Where memory runs out, nothing is said of those that are held: the form is refused then.
    #[inline(always)]
    pub fn push(&mut self, x: HeldObject) -> Result<(), AllocError>
        ensures { OnOk result (self.new ≡ self.old ++ x ∷ []) }
    {
        let datum = x.into_datum();
        self.data.push(datum)?;
        Ok(())
    }

    /// Whether no object is held.
    pub fn is_empty(&self) -> bool
        ensures empty { result ≡ true → self.now ≡ [] }
        ensures some { result ≡ false → 0 < length self.now }
    {
        self.data.is_empty()
    }

    /// The list of the objects that are held, which it takes.
    #[inline(always)]
    pub fn into_list(self, alloc: Global) -> Result<HeldObject, AllocError>
        ensures { IfOk result (λ x. x ≡ list_of self) }
    {
        let HeldObjects { data } = self;
        Ok(HeldObject {
            datum: Datum::list(alloc, data, None)?,
        })
    }

    /// The data, moved out.
    pub fn into_items(self) -> Items<Datum>
        ensures objects { map object_of result ≡ self }
        ensures proper { list_all is_proper result ≡ true }
        ensures sound { All (λ d. IsSound (object_of d)) result }
    {
        let HeldObjects { data } = self;
        Items::from_vec(data)
    }
}

/// Characters in order.
#[derive(Drop)]
pub struct HeldText {
    bytes: Vec<u8>,
}

impl Model for HeldText {
    ghost use Rattle.std.specs.Prelude.{◌≡◌, true, List, ℕ};
    ghost use Rattle.std.specs.List.{list_all};
    ghost use Rattle.lisp_object.specs.Ascii.{is_ascii};

    ghost Value = { List ℕ };

    ghost view = { λ h. h.bytes.items };

    ghost invariant = { λ h. list_all is_ascii h.bytes.items ≡ true };
}

impl HeldText {
    /// No characters. It keeps `alloc` for later ones.
    pub fn new(alloc: Global) -> HeldText
        ensures { result ≡ [] }
    {
        HeldText {
            bytes: Vec::new(alloc),
        }
    }

    /// One more character, after the others. Where memory runs out, nothing is said of those that are held: the form is refused then.
    pub fn push(&mut self, c: u8) -> Result<(), AllocError>
        requires { c < 128 }
        ensures { OnOk result (self.new ≡ self.old ++ c ∷ []) }
    {
        self.bytes.push(c)?;
        Ok(())
    }

    /// The characters, moved out.
    pub fn into_bytes(self) -> Result<Bytes, AllocError>
        ensures value { IfOk result (λ b. b ≡ self) }
        ensures ascii { IfOk result (λ b. list_all is_ascii b ≡ true) }
    {
        let HeldText { bytes } = self;
        Bytes::from_vec(bytes)
    }
}

/// The number of a dispatch call so far, at most 999,999.
#[derive(Drop)]
pub struct HeldNumber {
    number: Option<u32>,
}

impl Model for HeldNumber {
    ghost use Rattle.std.specs.Prelude.{◌≤◌, ℕ, Option, IfSome};

    ghost Value = { Option ℕ };

    ghost view = { λ h. h.number };

    ghost invariant = { λ h. IfSome h.number (λ n. n ≤ 999999) };
}

impl HeldNumber {
    /// No digit was read yet.
    pub fn none() -> HeldNumber
        ensures { result ≡ None }
    {
        HeldNumber { number: None }
    }

    /// The number with one more digit; None where it is over 999,999.
    pub fn with_digit(&self, c: u8) -> Option<HeldNumber>
        requires { IsTrue (is_digit c) }
        ensures some { IfSome result (λ n. n ≡ Some (next_digit self.now c)) }
        ensures variant { is_some result ≡ nat_le (next_digit self.now c) 999999 }
    {
        let number = self.number.unwrap_or(0) * 10 + u32::from(c - b'0');
        if number > 999_999 {
            return None;
        }
        Some(HeldNumber {
            number: Some(number),
        })
    }

    /// The number.
    pub fn get(&self) -> Option<u32>
        ensures value { result ≡ self.now }
        ensures most { IfSome result (λ n. n ≤ 999999) }
    {
        self.number
    }
}

/// A character.
#[derive(Drop)]
pub struct HeldCharacter {
    c: u8,
}

impl Model for HeldCharacter {
    ghost use Rattle.std.specs.Prelude.{◌<◌, ℕ};

    ghost Value = { ℕ };

    ghost view = { λ h. h.c };

    ghost invariant = { λ h. h.c < 128 };
}

impl HeldCharacter {
    /// Holds `c`.
    pub fn new(c: u8) -> HeldCharacter
        requires { c < 128 }
        ensures { result ≡ c }
    {
        HeldCharacter { c }
    }

    /// The character.
    pub fn get(&self) -> u8
        ensures value { result ≡ self.now }
        ensures below { result < 128 }
    {
        self.c
    }
}
