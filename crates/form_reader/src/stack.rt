//! Open calls. An error is want of memory: the reader takes no byte after it, and answers it again.
ghost use Rattle.std.specs.Prelude.{◌≡◌, ◌==◌, Bool, Some, None, true, false, [], ◌∷◌, length, MatchOption, OnOk, IfOk};
ghost use Rattle.form_reader.specs.declared.stack.Part.TheVariants.{Next as InNext};
ghost use Rattle.lisp_reading.specs.declared.attempt.Found.TheVariants.{One as one, LoneDot as lone_dot};
ghost use Rattle.form_reader.specs.Stack.{close_of, close_of_stack, IsNoClose, with_object, with_dot, calls_with, is_next, is_waiting};

use lisp_reading::{HeldObject, HeldObjects, Invoked};
use std::alloc::{AllocError, Global};
use std::marker::Model;
use std::mem;

/// An open call that reads objects, and what it has gathered.
#[derive(Drop)]
pub struct Frame {
    pub call: Invoked,
    pub part: Part,
}

/// What an open call has gathered.
#[derive(Drop)]
pub enum Part {
    /// It waits for its one object.
    Next,
    /// A list, with its objects so far.
    List(HeldObjects),
    /// Objects up to this character, with those so far.
    Until(u8, HeldObjects),
    /// A list after its dot.
    Dotted(HeldObjects),
    /// A list with the object after its dot.
    Tailed(HeldObjects, HeldObject),
}

/// The open calls, which contracts see innermost first.
#[derive(Drop)]
pub struct Stack {
    frames: Vec<Frame>,
}

impl Model for Stack {
    ghost use Rattle.std.specs.Prelude.{List, reverse};
    ghost use Rattle.form_reader.specs.declared.stack.Frame.{Frame};
    ghost use Rattle.form_reader.specs.contracts.stack.Frame as frame_contract;
    ghost use Rattle.std.specs.Coded.{coded_list};

    ghost Value = { List Frame };

    ghost coded = { coded_list frame_contract.the_row.coded };

    ghost view = { λ f. reverse f.frames.items };
}

impl Stack {
    /// No open call. It keeps `alloc` for later ones.
    pub(crate) fn new(alloc: Global) -> Stack
        ensures { result ≡ [] }
    {
        Stack {
            frames: Vec::new(alloc),
        }
    }

    /// How many calls are open.
    pub(crate) fn len(&self) -> usize
        ensures { result ≡ length self.now }
    {
        self.frames.len()
    }

    /// Opens a call in the others.
    pub(crate) fn push(&mut self, frame: Frame) -> Result<(), AllocError>
        ensures { OnOk result (self.new ≡ frame ∷ self.old) }
    {
        self.frames.push(frame)?;
        Ok(())
    }

    /// Takes the innermost call.
    pub(crate) fn pop(&mut self) -> Option<Frame>
        ensures { MatchOption result ((self.old ≡ []) × (self.new ≡ []))
            (λ frame. self.old ≡ frame ∷ self.new) }
    {
        self.frames.pop()
    }

    /// The closing character that the innermost call looks for.
    pub(crate) fn close(&self) -> Option<u8>
        ensures { result ≡ close_of_stack self.now }
    {
        match self.frames.last() {
            None => None,
            Some(frame) => frame.close(),
        }
    }

    /// Takes the innermost call where `c` is the closing character that it looks for.
    pub(crate) fn pop_closed_by(&mut self, c: u8) -> Option<Frame>
        ensures { MatchOption result ((self.new ≡ self.old) × IsNoClose c self.old)
            (λ frame. (self.old ≡ frame ∷ self.new) × (close_of frame.part ≡ Some c)) }
    {
        if self.close() == Some(c) {
            return self.pop();
        }
        None
    }

    /// Whether the innermost call waits for its one object.
    pub(crate) fn is_waiting(&self) -> bool
        ensures { result ≡ is_waiting self.now }
    {
        match self.frames.last() {
            None => false,
            Some(frame) => frame.part.is_next(),
        }
    }

    /// Takes the innermost call where it waits for its one object.
    pub(crate) fn pop_waiting(&mut self) -> Option<Invoked>
        ensures { MatchOption result ((self.new ≡ self.old) × (is_waiting self.old ≡ false))
            (λ call. self.old ≡ record { call = call; part = InNext } ∷ self.new) }
    {
        if self.is_waiting() {
            return match self.pop() {
                None => None,
                Some(frame) => Some(frame.call),
            };
        }
        None
    }

    /// Hands an object to the innermost call: whether it takes it and goes on. A call that waits for its one object does not.
    pub(crate) fn take_object(&mut self, x: HeldObject) -> Result<bool, AllocError>
        ensures takes { (token : Bool) → IfOk result (λ goes_on.
            goes_on ≡ true → calls_with self.old (one token x) ≡ Some self.new) }
        ensures refuses { (token : Bool) → IfOk result (λ goes_on.
            goes_on ≡ false → (calls_with self.old (one token x) ≡ None) × (self.new ≡ self.old)) }
    {
        if let Some(frame) = self.frames.last_mut() {
            return frame.part.take_object(x);
        }
        Ok(false)
    }

    /// Hands a dot to the innermost call: whether it takes it and goes on.
    pub(crate) fn take_dot(&mut self) -> bool
        ensures takes { result ≡ true → calls_with self.old lone_dot ≡ Some self.new }
        ensures refuses { result ≡ false
            → (calls_with self.old lone_dot ≡ None) × (self.new ≡ self.old) }
    {
        if let Some(frame) = self.frames.last_mut() {
            return frame.part.take_dot();
        }
        false
    }
}

impl Part {
    fn is_next(&self) -> bool
        ensures { result ≡ is_next self.now }
    {
        match self {
            Part::Next => true,
            Part::List(_) | Part::Until(..) | Part::Dotted(_) | Part::Tailed(..) => false,
        }
    }

    /// Takes an object: whether it goes on.
    fn take_object(&mut self, x: HeldObject) -> Result<bool, AllocError>
        ensures takes { IfOk result (λ goes_on.
            goes_on ≡ true → with_object self.old x ≡ Some self.new) }
        ensures refuses { IfOk result (λ goes_on.
            goes_on ≡ false → (with_object self.old x ≡ None) × (self.new ≡ self.old)) }
    {
        match self {
            Part::List(items) => {
                items.push(x)?;
                Ok(true)
            }
            Part::Until(_, items) => {
                items.push(x)?;
                Ok(true)
            }
            Part::Dotted(_) => {
                if let Part::Dotted(items) = mem::replace(self, Part::Next) {
                    *self = Part::Tailed(items, x);
                }
                Ok(true)
            }
            Part::Next | Part::Tailed(..) => Ok(false),
        }
    }

    /// Takes a dot: whether it goes on.
    fn take_dot(&mut self) -> bool
        ensures takes { result ≡ true → with_dot self.old ≡ Some self.new }
        ensures refuses { result ≡ false → (with_dot self.old ≡ None) × (self.new ≡ self.old) }
    {
        match self {
            Part::List(items) => {
                if items.is_empty() {
                    return false;
                }
            }
            Part::Next | Part::Until(..) | Part::Dotted(_) | Part::Tailed(..) => return false,
        }
        if let Part::List(items) = mem::replace(self, Part::Next) {
            *self = Part::Dotted(items);
        }
        true
    }
}

impl Frame {
    fn close(&self) -> Option<u8>
        ensures { result ≡ close_of self.now.part }
    {
        match &self.part {
            Part::Next => None,
            Part::List(_) | Part::Dotted(_) | Part::Tailed(..) => Some(b')'),
            Part::Until(close, _) => Some(*close),
        }
    }
}
