//! Heaps.
ghost use Rattle.std.specs.Prelude.{◌≡◌, ◌+◌, ◌++◌, ◌∷◌, [], ℕ, Some, IsSome, IsTrue, ◌↔◌, IfOk, OnOk, OnErr, if◌then◌else◌};
ghost use Rattle.std.specs.Option.{option_map};
ghost use Rattle.pv_values.specs.Heaps as heaps;
ghost use Rattle.pv_values.specs.declared.value.Location.{Location as AnyLocation};
ghost use Rattle.pv_values.specs.Changes.{IsWithObject, IsWithArray};

use crate::fields::{element, field_value};
use crate::sames::same_things;
use crate::thing::Thing;
use crate::value::{Location, Value};
use pv_base::{Name, NoMemory};
use sqlite_items::Items;
use std::alloc::Global;
use std::marker::Model;

/// Objects and arrays, numbered together from 1. A contract sees the list of them, which stands for a finite map from
/// locations to values.
#[derive(Drop)]
pub struct Heap {
    alloc: Global,
    things: Vec<Thing>,
}

impl Model for Heap {
    ghost use Rattle.std.specs.Prelude.{List};
    ghost use Rattle.pv_values.specs.declared.thing.Thing.{Thing};

    ghost Value = { List Thing };

    ghost view = { λ h. h.things.items };
}

impl Heap {
    /// A heap with nothing in it.
    pub fn new(alloc: Global) -> Heap
        ensures { result ≡ [] }
    {
        Heap {
            alloc,
            things: Vec::new(alloc),
        }
    }

    /// The value at a location. None comes exactly where there is no such location.
    pub fn read(&self, at: &Location) -> Option<Value>
        ensures { result ≡ heaps.value_at self.now at.now }
    {
        match at {
            Location::Field(object, name) => match self.thing(*object) {
                Some(Thing::Object(_, fields)) => field_value(fields.as_slice(), *name),
                _ => None,
            },
            Location::Cell(array, index) => match self.thing(*array) {
                Some(Thing::Array(elements)) => element(elements.as_slice(), *index),
                _ => None,
            },
        }
    }

    /// How many elements an array has. None comes exactly where the number is no array's.
    pub fn length(&self, array: u128) -> Option<i128>
        ensures { result ≡ heaps.length_of self.now array }
    {
        match self.thing(array) {
            Some(Thing::Array(elements)) => Some(elements.len() as i128),
            _ => None,
        }
    }

    /// The class of an object. None comes exactly where the number is no object's.
    pub fn class(&self, reference: u128) -> Option<Name>
        ensures { result ≡ heaps.class_of self.now reference }
    {
        match self.thing(reference) {
            Some(Thing::Object(class, _)) => Some(*class),
            _ => None,
        }
    }

    /// The greatest number in use: how many objects and arrays there are.
    pub fn count(&self) -> u128
        ensures { result ≡ heaps.count_of self.now }
    {
        self.things.len() as u128
    }

    /// Puts a value at a location that exists. All else stays.
    pub fn write(&mut self, at: &Location, value: Value)
        requires { IsSome (heaps.value_at self.old at.now) }
        ensures reads { (other : AnyLocation) → heaps.value_at self.new other
            ≡ (if heaps.same_location other at.now then Some value else heaps.value_at self.old other) }
        ensures classes { (n : ℕ) → heaps.class_of self.new n ≡ heaps.class_of self.old n }
        ensures lengths { (n : ℕ) → heaps.length_of self.new n ≡ heaps.length_of self.old n }
        ensures count { heaps.count_of self.new ≡ heaps.count_of self.old }
    {
        match at {
            Location::Field(object, name) => {
                self.things[(*object - 1) as usize].write_field(*name, value)
            }
            Location::Cell(array, index) => {
                self.things[(*array - 1) as usize].write_element(*index, value)
            }
        }
    }

    /// Makes an object with these fields, under the next number. On an error the heap stays.
    pub fn make_object(&mut self, class: Name, fields: &[(Name, Value)]) -> Result<u128, NoMemory>
        ensures ok { IfOk result (λ n. IsWithObject class fields.now n self.old self.new) }
        ensures err { OnErr result (self.new ≡ self.old) }
    {
        let fields = Items::from_slice(self.alloc, fields)?;
        self.push(Thing::Object(class, fields))
    }

    /// Makes an array of so many elements that are all one value, under the next number. On an error the heap stays.
    pub fn make_array(&mut self, first: Value, length: u32) -> Result<u128, NoMemory>
        ensures ok { IfOk result (λ n. IsWithArray first length n self.old self.new) }
        ensures err { OnErr result (self.new ≡ self.old) }
    {
        let elements = Vec::from_elem(self.alloc, first, length as usize)?;
        self.push(Thing::Array(Items::from_vec(elements)))
    }

    /// A heap that is equal to this one.
    pub fn copy(&self, alloc: Global) -> Result<Heap, NoMemory>
        ensures { IfOk result (λ h. h ≡ self.now) }
    {
        let mut things = Vec::with_capacity(alloc, self.things.len())?;
        for thing in &self.things {
            things.push(thing.copy(alloc)?)?;
        }
        Ok(Heap { alloc, things })
    }

    /// Whether two heaps are equal: they have one count, and the same classes, lengths and values at each location.
    pub fn same(&self, other: &Heap) -> bool
        ensures { IsTrue result ↔ heaps.AreSame self.now other.now }
    {
        same_things(&self.things, &other.things)
    }

    fn push(&mut self, thing: Thing) -> Result<u128, NoMemory>
        ensures number { IfOk result (λ n. n ≡ heaps.count_of self.old + 1) }
        ensures ok { OnOk result (self.new ≡ self.old ++ thing ∷ []) }
        ensures err { OnErr result (self.new ≡ self.old) }
    {
        self.things.push(thing)?;
        Ok(self.things.len() as u128)
    }

    fn thing(&self, reference: u128) -> Option<&Thing>
        ensures { option_map (λ t. t.now) result ≡ heaps.thing_at self.now reference }
    {
        if reference == 0 || reference > self.things.len() as u128 {
            return None;
        }
        Some(&self.things[(reference - 1) as usize])
    }
}
