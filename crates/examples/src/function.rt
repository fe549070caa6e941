//! A macro function of one's own: its meaning, its closure, and a session in which a character calls it.
ghost use Rattle.std.specs.Prelude.{◌≡◌, ◌∷◌, [], codes};
ghost use Rattle.user_macros.specs.Calls.{answer_of, call_of, material_of};
ghost use Rattle.user_macros.specs.Sound.{IsSoundCall};
ghost use Rattle.examples.specs.Doubling.{doubled, doubling};

use crate::folder::{HALF_LIMIT, StoreError};
use disk_trait::MemoryDisk;
use lisp_object::Datum;
use prevalence_store::{Mode, Store};
use readtable_core::FnName;
use sessions::{Ending, serve};
use std::alloc::{AllocError, Global};
use std::io::Write;
use user_macros::{Answer, Call, Gather, Gathered, MacroFn, MacroFunctions, Macros, Meaning};

/// The functions of this program: DOUBLE alone.
#[derive(Drop)]
struct Doubling {
    names: [FnName; 1],
    ghost are: { names ≡ codes "DOUBLE" ∷ [] },
}

impl Meaning for Doubling {
    ghost use Rattle.std.proofs.Common.{rules};

    ghost functions = { doubling };

    ghost gathers = { λ name. Prim.search rules };

    fn names(&self) -> &[FnName] {
        &self.names
    }

    fn gather(&self, name: FnName) -> Option<Gather> {
        if b"DOUBLE".as_slice() == name.as_bytes() {
            Some(Gather::Next)
        } else {
            None
        }
    }
}

// Twice the integer that was read.
fn double(call: &Call) -> Answer
    requires { IsSoundCall call.now }
    ensures { answer_of result ≡ doubled (call_of call.now).gathered }
{
    let Gathered::One(datum) = &call.gathered else {
        return Answer::Refused(1);
    };
    let Datum::Integer(number) = datum else {
        return Answer::Refused(1);
    };
    match number.checked_mul(2) {
        Some(product) => Answer::One(Datum::Integer(product)),
        None => Answer::Refused(1),
    }
}

const INPUT: &[u8] = b"(SET-MACRO-CHARACTER #\\! :DOUBLE)\n(LIST !3 !-5)\n!A\n";

/// Serves three forms over a disk in memory. From the second one on, `!` calls DOUBLE.
pub fn serve_doubled<W: Write>(alloc: Global, output: &mut W) -> Result<(), StoreError> {
    let boxed = Box::new(
        alloc,
        |call: Call| -> Result<Answer, AllocError>
            requires { IsSoundCall call }
        { Ok(double(&call)) },
    );
    let Ok(function) = boxed else {
        return Err(StoreError::Memory(AllocError));
    };
    let function: MacroFn = function;
    let names = [FnName::new(b"DOUBLE").unwrap()];
    let mut macros = Macros::new(alloc, Doubling { names });
    if macros.register(names[0], function).is_err() {
        return Err(StoreError::Memory(AllocError));
    }
    serve_forms(alloc, macros, output)
}

// Serves the forms with these macro functions.
fn serve_forms<M: MacroFunctions + Drop, W: Write>(
    alloc: Global,
    macros: M,
    output: &mut W,
) -> Result<(), StoreError>
    requires { M.answers macros }
{
    let mut store = match Store::open(alloc, MemoryDisk::new(alloc), macros, HALF_LIMIT) {
        Ok(store) => store,
        Err(unopened) => return Err(StoreError::Refused(unopened.number)),
    };
    let mut input = INPUT;
    let ending = serve(&mut store, &mut input, output, Mode::Current, 0);
    let _closed = store.close();
    match ending {
        Ending::Store(number) => Err(StoreError::Refused(number)),
        Ending::End | Ending::Reader(_) => Ok(()),
    }
}
