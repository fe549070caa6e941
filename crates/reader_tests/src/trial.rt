//! Functions in each way of gathering. Their numeric argument tells what they answer: how much they gathered where there is none, and
//! else also what may not be answered.
ghost use Rattle.std.specs.Prelude.{◌≡◌, pos, true, IfOk, IsTrue};
ghost use Rattle.readtable_core.specs.Names.{is_function_name};
ghost use Rattle.std.specs.List.{list_all};
ghost use Rattle.lisp_object.specs.Ascii.{is_ascii};
ghost use Rattle.lisp_object.specs.Datum.{is_proper, object_of};
ghost use Rattle.lisp_object.specs.Object.{integer, nil, pair, symbol};
ghost use Rattle.user_macros.specs.Calls.{answer_of, call_of, improper, value};
ghost use Rattle.user_macros.specs.Sound.{IsSoundCall};
ghost use Rattle.reader_tests.specs.Trial.{answer_at, macro_answer, material_size, large_at, trial_symbol, trial_symbol_at, trial_functions, trial_names, wrapped};

use crate::large::{too_deep, too_large, too_long};
use fixed_macros::Answering;
use lisp_object::{Boxed, Bytes, Datum, Items};
use readtable_core::FnName;
use std::alloc::{AllocError, Global};
use user_macros::{Answer, Call, Gather, Gathered, Meaning};

/// The name of these bytes.
pub fn name_of(bytes: &[u8]) -> FnName
    requires { IsTrue (is_function_name bytes.now) }
    ensures { result ≡ bytes.now }
{
    FnName::new(bytes).unwrap()
}

#[derive(Drop)]
pub struct Trial {
    names: [FnName; 7],
    ghost are: { names ≡ trial_names },
}

impl Trial {
    pub fn new() -> Trial {
        Trial {
            names: [
                name_of(b"NONE"),
                name_of(b"NEXT"),
                name_of(b"UNTIL"),
                name_of(b"TEXT"),
                name_of(b"SAME"),
                name_of(b"LINE"),
                name_of(b"TOKEN"),
            ],
        }
    }
}

impl Meaning for Trial {
    ghost use Rattle.reader_tests.specs.Trial.{rows, some_way};

    ghost functions = { trial_functions };

    ghost gathers = { some_way rows };

    fn names(&self) -> &[FnName] {
        &self.names
    }

    fn gather(&self, name: FnName) -> Option<Gather> {
        if b"NONE".as_slice() == name.as_bytes() {
            return Some(Gather::Nothing);
        }
        if b"NEXT".as_slice() == name.as_bytes() {
            return Some(Gather::Next);
        }
        if b"UNTIL".as_slice() == name.as_bytes() {
            return Some(Gather::Until(b']'));
        }
        if b"TEXT".as_slice() == name.as_bytes() {
            return Some(Gather::Text(b'}'));
        }
        if b"SAME".as_slice() == name.as_bytes() {
            return Some(Gather::TextSame);
        }
        if b"LINE".as_slice() == name.as_bytes() {
            return Some(Gather::Line);
        }
        if b"TOKEN".as_slice() == name.as_bytes() {
            return Some(Gather::Token);
        }
        None
    }
}

impl Answering for Trial {
    fn answer(&self, alloc: Global, _name: FnName, call: Call) -> Result<Answer, AllocError> {
        respond(alloc, &call)
    }
}

/// What a function of any of the names answers.
pub fn respond(alloc: Global, call: &Call) -> Result<Answer, AllocError>
    requires { IsSoundCall call.now }
    ensures { IfOk result (λ a. answer_of a
        ≡ macro_answer (call_of call.now).number (call_of call.now).gathered) }
{
    match call.number {
        Some(number) => answer_at(alloc, number, call),
        None => Ok(counted(call)),
    }
}

fn answer_at(alloc: Global, number: u32, call: &Call) -> Result<Answer, AllocError>
    requires { IsSoundCall call.now }
    ensures { IfOk result (λ a. answer_of a ≡ answer_at number (call_of call.now).gathered) }
{
    match number {
        1 => Ok(Answer::Refused(0)),
        2 => Ok(Answer::Refused(65_535)),
        3 => Ok(Answer::Nothing),
        4 => Ok(empty_list(alloc)),
        5 => list_before_a_list(alloc),
        6 => wrapped(alloc, call),
        7 => named(alloc, call),
        _ => large_at(alloc, number),
    }
}

fn large_at(alloc: Global, number: u32) -> Result<Answer, AllocError>
    ensures { IfOk result (λ a. answer_of a ≡ large_at number) }
{
    match number {
        8 => too_deep(alloc),
        9 => too_long(alloc),
        10 => too_large(alloc),
        _ => symbol_at(alloc, number),
    }
}

fn symbol_at(alloc: Global, number: u32) -> Result<Answer, AllocError>
    ensures { IfOk result (λ a. answer_of a ≡ value (trial_symbol_at number)) }
{
    match number {
        11 => symbol(alloc, b"NOWHERE", b"X"),
        12 => symbol(alloc, b"CL-USER", b"X"),
        13 => symbol(alloc, b"COMMON-LISP-USER", b"X"),
        14 => symbol(alloc, b"COMMON-LISP", b"X"),
        _ => symbol(alloc, b"COMMON-LISP-USER", b"GET"),
    }
}

// How much was gathered.
#[tactic(auto, using(lisp_object::proofs::Objects::object_laws))]
fn counted(call: &Call) -> Answer
    ensures { answer_of result ≡ value (integer (pos (material_size (call_of call.now).gathered))) }
{
    let count = match &call.gathered {
        Gathered::Nothing => 0,
        Gathered::One(_) => 1,
        Gathered::Many(items) => items.as_slice().len(),
        Gathered::Text(bytes) => bytes.as_slice().len(),
    };
    Answer::One(Datum::Integer(count as i128))
}

/// The symbol of this home and name.
#[tactic(auto, using(lisp_object::proofs::Objects::object_laws, lisp_object::proofs::Properness::proper_laws))]
pub fn symbol(alloc: Global, home: &[u8], name: &[u8]) -> Result<Answer, AllocError>
    requires { (list_all is_ascii home.now ≡ true) × (list_all is_ascii name.now ≡ true) }
    ensures { IfOk result (λ a. answer_of a ≡ value (symbol home.now name.now)) }
{
    Ok(Answer::One(Datum::Symbol {
        package: Bytes::from_slice(alloc, home)?,
        name: Bytes::from_slice(alloc, name)?,
    }))
}

// What was gathered, in two lists.
fn wrapped(alloc: Global, call: &Call) -> Result<Answer, AllocError>
    requires { IsSoundCall call.now }
    ensures { IfOk result (λ a. answer_of a ≡ wrapped (call_of call.now).gathered) }
{
    match &call.gathered {
        Gathered::One(datum) => {
            let inner = listed(alloc, datum.copy(alloc)?)?;
            Ok(Answer::One(listed(alloc, inner)?))
        }
        _ => Ok(Answer::Nothing),
    }
}

#[tactic(auto, using(lisp_object::proofs::Objects::object_laws, lisp_object::proofs::Properness::proper_laws))]
fn listed(alloc: Global, datum: Datum) -> Result<Datum, AllocError>
    requires { is_proper datum ≡ true }
    ensures object { IfOk result (λ d. object_of d ≡ pair (object_of datum) nil) }
    ensures proper { IfOk result (λ d. is_proper d ≡ true) }
{
    let mut items = Items::new(alloc);
    items.push(datum)?;
    Ok(Datum::List { items, tail: None })
}

// The symbol whose name was gathered.
#[tactic(auto, using(lisp_object::proofs::Sound::all_ascii))]
fn named(alloc: Global, call: &Call) -> Result<Answer, AllocError>
    requires { IsSoundCall call.now }
    ensures { IfOk result (λ a. answer_of a ≡ trial_symbol (call_of call.now).gathered) }
{
    match &call.gathered {
        Gathered::Text(name) => symbol(alloc, b"COMMON-LISP-USER", name.as_slice()),
        _ => Ok(Answer::Nothing),
    }
}

// A list without an item, which is not proper.
#[tactic(auto, using(lisp_object::proofs::Properness::proper_laws))]
fn empty_list(alloc: Global) -> Answer
    ensures { answer_of result ≡ improper }
{
    Answer::One(Datum::List {
        items: Items::new(alloc),
        tail: None,
    })
}

// A list whose tail is a list, which is not proper.
fn list_before_a_list(alloc: Global) -> Result<Answer, AllocError>
    ensures { IfOk result (λ a. answer_of a ≡ improper) }
{
    let mut items = Items::new(alloc);
    items.push(Datum::Integer(1))?;
    let mut more = Items::new(alloc);
    more.push(Datum::Integer(2))?;
    let tail = Datum::List {
        items: more,
        tail: None,
    };
    Ok(Answer::One(Datum::List {
        items,
        tail: Some(Boxed::new(alloc, tail)?),
    }))
}
