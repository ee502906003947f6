use pv_base::Name;

/// A whole number, a truth value, or a reference, of which 0 is null.
#[derive(Clone, Copy, Debug, PartialEq, Eq, Drop)]
pub enum Value {
    Number(i128),
    Truth(bool),
    Reference(u128),
}

/// A field of an object, or an element of an array.
#[derive(Clone, Copy, Debug, PartialEq, Eq, Drop)]
pub enum Location {
    Field(u128, Name),
    Cell(u128, i128),
}
