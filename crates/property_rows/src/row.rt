//! Rows of properties: lists from which a property is taken out, and to which it comes back, without those after it being
//! moved. What is taken out leaves its slot, to which it may come back; slots that are gone are skipped, until the row is packed.
ghost use Rattle.std.specs.Prelude.{◌≡◌, ◌+◌, ◌-◌, ◌<◌, ◌≤◌, [], false, ◌∷◌, ◌++◌, length, take, is_ok, if◌then◌else◌, IfOk, IsOk, slice_index_or, slice_set};
ghost use Rattle.std.specs.List.{insert, remove, position};
ghost use Rattle.property_rows.specs.Slots.{no_property, with_value, has};
ghost use Rattle.property_rows.specs.Rows.{room};

use crate::NumberedProperty;
use crate::slot::Slot;
use crate::slots::{
    append, bring_back, drop_last, exchange, gone, holder, pack, put_in, search, take_out, vacant,
};
use lisp_object::Datum;
use std::alloc::{AllocError, Global};
use std::marker::Model;

// A row of so many slots has none that are gone.
const SHORT: usize = 64;

/// The properties of a symbol, in their order. Contracts see a row as its properties and its room: for how many there is memory.
#[derive(Drop)]
pub struct Row {
    slots: Vec<Slot>,
}

impl Model for Row {
    ghost use Rattle.property_rows.specs.Rows.{PropertyRow};
    ghost use Rattle.lisp_object.specs.contracts.datum.Datum as datum_contract;
    ghost use Rattle.std.specs.Coded.{codes};

    ghost Value = { PropertyRow };

    ghost coded = { Prim.hlevel (codes, datum_contract.the_row.coded) };

    ghost use Rattle.property_rows.specs.Views.{row_in, IsRow};

    ghost view = { row_in };

    ghost invariant = { IsRow };
}

impl Row {
    /// A row without properties, which has no memory yet.
    pub fn new(alloc: Global) -> Row
        ensures { result.items ≡ [] }
    {
        Row {
            slots: Vec::new(alloc),
        }
    }

    /// Whether there is memory for a property.
    pub fn has_memory(&self) -> bool
        ensures { result ≡ false → room self.now ≡ 0 }
    {
        self.slots.capacity() > 0
    }

    /// An empty one, with memory for so many properties.
    pub fn with_capacity(alloc: Global, count: usize) -> Result<Row, AllocError>
        ensures { IfOk result (λ row. row.items ≡ []) }
    {
        Ok(Row {
            slots: Vec::with_capacity(alloc, count)?,
        })
    }

    /// How many properties there are.
    pub fn len(&self) -> usize
        ensures { result ≡ length self.now.items }
    {
        self.slots.len() - gone(self.slots.as_slice())
    }

    /// The indicator at an index.
    pub fn indicator(&self, index: usize) -> u32
        requires { index < length self.now.items }
        ensures { result ≡ (slice_index_or self.now.items index no_property).indicator }
    {
        holder(self.slots.as_slice(), index).indicator
    }

    /// The order of the property at an index.
    pub fn order(&self, index: usize) -> u64
        requires { index < length self.now.items }
        ensures { result ≡ (slice_index_or self.now.items index no_property).order }
    {
        holder(self.slots.as_slice(), index).order
    }

    /// An order that is not below that of the last property, nor of one that was taken out and may come back; 0 where there is none.
    pub fn last_order(&self) -> u64
        ensures { 0 < length self.now.items
            → (slice_index_or self.now.items (length self.now.items - 1) no_property).order ≤ result }
    {
        let count = self.len();
        match self.slots.last() {
            None => 0,
            Some(last) => {
                if count == 0 {
                    return last.order;
                }
                last.order.max(self.order(count - 1))
            }
        }
    }

    /// The value at an index.
    pub fn value(&self, index: usize) -> &Datum
        requires { index < length self.now.items }
        ensures { result.now ≡ (slice_index_or self.now.items index no_property).value }
    {
        &holder(self.slots.as_slice(), index).value
    }

    /// Puts another value at an index, and gives the one that was there.
    pub fn replace(&mut self, index: usize, value: Datum) -> Datum
        requires { index < length self.old.items }
        ensures value { result ≡ (slice_index_or self.old.items index no_property).value }
        ensures items { self.new.items
            ≡ slice_set self.old.items index (with_value (slice_index_or self.old.items index no_property) value) }
        ensures room { room self.new ≡ room self.old }
    {
        exchange(self.slots.as_mut_slice(), index, value)
    }

    /// The index of an indicator, from the front.
    pub fn search(&self, indicator: u32) -> Option<usize>
        ensures { result ≡ position (has indicator) self.now.items }
    {
        if gone(self.slots.as_slice()) == 0 {
            return search(self.slots.as_slice(), indicator);
        }
        let mut index = 0;
        let count = self.len();
        while index < count {
            if self.indicator(index) == indicator {
                return Some(index);
            }
            index += 1;
        }
        None
    }

    /// Adds a property at the end. Where memory runs out, the row is as it was.
    pub fn push(&mut self, property: NumberedProperty) -> Result<(), AllocError>
        ensures items { self.new.items
            ≡ (if is_ok result then self.old.items ++ property ∷ [] else self.old.items) }
        ensures room { room self.old ≤ room self.new }
    {
        append(&mut self.slots, property)
    }

    /// Takes the property at an index out. A short row is packed; in a long one its slot stays, for it to come back to.
    pub fn remove(&mut self, index: usize) -> NumberedProperty
        requires { index < length self.old.items }
        ensures value { result ≡ slice_index_or self.old.items index result }
        ensures items { self.new.items ≡ remove self.old.items index }
        ensures room { room self.new ≡ room self.old }
    {
        let property = take_out(self.slots.as_mut_slice(), index);
        if self.slots.len() <= SHORT {
            pack(&mut self.slots);
        }
        property
    }

    /// Moves the properties together, if more than a quarter of the slots are gone. What was taken out comes back to no slot
    /// then.
    pub fn tidy(&mut self)
        ensures items { self.new.items ≡ self.old.items }
        ensures room { room self.new ≡ room self.old }
    {
        if gone(self.slots.as_slice()) > self.slots.len() / 4 {
            pack(&mut self.slots);
        }
    }

    /// Takes the last property away.
    pub fn pop(&mut self)
        ensures items { self.new.items ≡ take (length self.old.items - 1) self.old.items }
        ensures room { room self.new ≡ room self.old }
    {
        let Some(last) = self.slots.last() else {
            return;
        };
        if last.gone % 2 == 0 {
            drop_last(&mut self.slots);
            return;
        }
        let count = self.len();
        if count > 0 {
            let _ = self.remove(count - 1);
        }
    }

    /// A property comes to an index, before those from there on. It takes no memory where there is memory for one more; where memory runs
    /// out, the row is as it was.
    pub fn insert(&mut self, index: usize, property: NumberedProperty) -> Result<(), AllocError>
        requires { index ≤ length self.old.items }
        ensures items { self.new.items
            ≡ (if is_ok result then insert self.old.items index property else self.old.items) }
        ensures room { room self.old ≤ room self.new }
        ensures succeeds { length self.old.items < room self.old → IsOk result }
    {
        match vacant(self.slots.as_slice(), index, property.order) {
            Some(at) => {
                bring_back(self.slots.as_mut_slice(), index, at, property);
                Ok(())
            }
            None => put_in(&mut self.slots, index, property),
        }
    }
}
