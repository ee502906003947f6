ghost use Rattle.std.specs.Prelude.{◌≡◌, IfOk, Some, IsSome};
ghost use Rattle.pv_values.specs.Heaps as heaps;
ghost use Rattle.pv_values.specs.Changes.{IsThingWithField, IsThingWithElement};

use crate::fields::set_field;
use crate::value::Value;
use pv_base::{Name, NoMemory};
use sqlite_items::Items;
use std::alloc::Global;

/// An object with its class and its fields, or an array with its elements.
#[derive(Debug, Drop)]
pub enum Thing {
    Object(Name, Items<(Name, Value)>),
    Array(Items<Value>),
}

impl Thing {
    pub(crate) fn copy(&self, alloc: Global) -> Result<Thing, NoMemory>
        ensures { IfOk result (λ t. t ≡ self.now) }
    {
        match self {
            Thing::Object(class, fields) => {
                let fields = Items::from_slice(alloc, fields.as_slice())?;
                Ok(Thing::Object(*class, fields))
            }
            Thing::Array(elements) => {
                let elements = Items::from_slice(alloc, elements.as_slice())?;
                Ok(Thing::Array(elements))
            }
        }
    }

    pub(crate) fn write_field(&mut self, name: Name, value: Value)
        requires { IsSome (heaps.field_in (Some self.old) name) }
        ensures { IsThingWithField name value self.old self.new }
    {
        if let Thing::Object(_, fields) = self {
            set_field(fields, name, value);
        }
    }

    pub(crate) fn write_element(&mut self, index: i128, value: Value)
        requires { IsSome (heaps.element_in (Some self.old) index) }
        ensures { IsThingWithElement index value self.old self.new }
    {
        if let Thing::Array(elements) = self
            && 0 <= index
            && index < elements.len() as i128
        {
            elements.set(index as usize, value);
        }
    }
}
