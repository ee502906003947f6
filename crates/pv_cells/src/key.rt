//! What a run holds amounts of, and arrays, as keys of maps.
ghost use Rattle.std.specs.Prelude.{◌++◌, [], ◌≡◌};
ghost use Rattle.std.specs.Hash as fed;
ghost use Rattle.std.specs.Cmp.Rules.{comparing, hashing};
ghost use Rattle.std.proofs.Common.{rules};
ghost use Rattle.pv_cells.specs.Numbers.{numbers_of, same_numbers};

use pv_ast::{PvType, Token};
use pv_base::Name;
use std::hash::{Hash, Hasher};

/// An array, by the type of its elements and its number.
#[derive(Clone, Copy, Debug, PartialEq, Eq, Drop)]
pub struct ArrayKey {
    pub kind: PvType,
    pub array: u128,
}

/// What a run holds amounts of. Objects are numbered apart by their class, arrays by the type of their elements.
#[derive(Clone, Copy, Debug, PartialEq, Eq, Drop)]
pub enum Resource {
    /// Class, object, field.
    Field(Name, u128, Name),
    /// Type of the elements, array, index.
    Element(PvType, u128, i128),
    /// Token, class, object.
    OfToken(Token, Name, u128),
    /// Class, object.
    OfLock(Name, u128),
}

impl Hash for ArrayKey {
    ghost hash_input = { λ x. fed.u128 x.array };

    ghost respects_eq = { Prim.search (hashing, rules) };

    fn hash<H: Hasher>(&self, state: &mut H) {
        self.array.hash(state);
    }
}

impl Hash for Resource {
    ghost hash_input = { numbers_of };

    ghost respects_eq = { same_numbers };

    fn hash<H: Hasher>(&self, state: &mut H) {
        match self {
            Resource::Field(_, object, field) => {
                object.hash(state);
                field.0.hash(state);
            }
            Resource::Element(_, array, index) => {
                array.hash(state);
                index.hash(state);
            }
            Resource::OfToken(_, _, object) | Resource::OfLock(_, object) => object.hash(state),
        }
    }
}
