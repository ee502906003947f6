//! What a run holds, what it has learned, and what its formulas speak of.
ghost use Rattle.std.specs.Prelude.{◌≡◌};
ghost use Rattle.std.specs.Option.{option_map};
ghost use Rattle.pv_cells.specs.Keys.{resource_of};
ghost use Rattle.pv_cells.specs.Stores as stores;

use crate::key::{ArrayKey, Resource};
use pv_ast::PvType;
use pv_base::Name;
use pv_values::Value;
use std::collections::HashMap;

/// What is in a location: a value, or, as an element of the type, what the so-many-th pick for a range gives an index.
#[derive(Clone, Copy, Debug, PartialEq, Eq, Drop)]
pub enum Cell {
    Written(Value),
    FromSteps(PvType, usize, i128),
}

/// So much of a resource, in units, and what is in it. Tokens and locks have nothing in them.
#[derive(Clone, Copy, Debug, PartialEq, Eq, Drop)]
pub struct Holding {
    pub amount: u64,
    pub cell: Cell,
}

/// What a run holds, and of that more than nothing.
pub type Held = HashMap<Resource, Holding>;

/// A reference that a run has met, with its type.
#[derive(Clone, Copy, Debug, PartialEq, Eq, Drop)]
pub struct Met {
    pub kind: PvType,
    pub reference: u128,
}

/// What a run has learned, and keeps whatever it gives up: the lengths of arrays, the references that it has met, and how many picks
/// it has taken, those for ranges among them.
#[derive(Drop)]
pub struct Learned {
    pub lengths: HashMap<ArrayKey, i128>,
    pub met: Vec<Met>,
    pub steps: usize,
    pub used: usize,
}

/// `this`, the variables by the numbers of their names, and `\result`. A variable that isn't there is 0.
#[derive(Drop)]
pub struct Scene {
    pub this: u128,
    pub variables: HashMap<u32, Value>,
    pub result: Value,
}

/// What is in a location that is held. One look-up.
pub fn cell_in(held: &Held, resource: Resource) -> Option<Cell>
    ensures { option_map stores.cell_of result ≡ stores.cells_held held.now (resource_of resource) }
{
    held.get(&resource).map(|h| h.cell)
}

/// The value of a variable. One look-up.
pub fn variable(scene: &Scene, name: Name) -> Value
    ensures { result ≡ stores.variables_of scene.now.variables name.0 }
{
    match scene.variables.get(&name.0) {
        Some(v) => *v,
        None => Value::Number(0),
    }
}
