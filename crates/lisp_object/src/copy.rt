//! Copies of data.
ghost use Rattle.std.specs.Prelude.{◌≡◌, IfOk};

use crate::{Boxed, Datum, Items};
use std::alloc::{AllocError, Global};

impl Datum {
    /// A datum equal to this one.
    #[cycle(copying)]
    pub fn copy(&self, alloc: Global) -> Result<Datum, AllocError>
        ensures { IfOk result (λ d. d ≡ self.now) }
    {
        match self {
            Datum::Integer(n) => Ok(Datum::Integer(*n)),
            Datum::Rational(ratio) => Ok(Datum::Rational(*ratio)),
            Datum::Char(c) => Ok(Datum::Char(*c)),
            Datum::Text(bytes) => Ok(Datum::Text(bytes.clone()?)),
            Datum::Symbol { package, name } => Ok(Datum::Symbol {
                package: package.clone()?,
                name: name.clone()?,
            }),
            Datum::Uninterned(name) => Ok(Datum::Uninterned(name.clone()?)),
            Datum::List { items, tail } => Ok(Datum::List {
                items: copy_items(alloc, items)?,
                tail: copy_tail(alloc, tail)?,
            }),
            Datum::Vector(items) => Ok(Datum::Vector(copy_items(alloc, items)?)),
        }
    }
}

#[cycle(copying)]
fn copy_items(alloc: Global, items: &Items<Datum>) -> Result<Items<Datum>, AllocError>
    ensures { IfOk result (λ copies. copies ≡ items.now) }
{
    let items = items.as_slice();
    // A copy mostly grows no more, so it has no room for that.
    let mut copies = Items::from_vec(Vec::with_capacity(alloc, items.len())?);
    for item in items {
        copies.push(item.copy(alloc)?)?;
    }
    Ok(copies)
}

#[cycle(copying)]
fn copy_tail(alloc: Global, tail: &Option<Boxed<Datum>>) -> Result<Option<Boxed<Datum>>, AllocError>
    ensures { IfOk result (λ copy. copy ≡ tail.now) }
{
    match tail {
        None => Ok(None),
        Some(tail) => {
            let copy = tail.get().copy(alloc)?;
            Ok(Some(Boxed::new(alloc, copy)?))
        }
    }
}
