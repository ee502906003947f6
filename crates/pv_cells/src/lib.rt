//! Runs of formulas on numbers: the permission state of one run of a unit, and what inhaling and exhaling do to it.
#![tactic(auto)]

mod filling;
mod gaining;
mod giving;
mod halt;
mod holdings;
mod key;
mod lengths;
mod picking;
mod plainly;
mod prepared;
mod ranging;
mod store;
mod value;

pub use halt::Halt;
pub use key::{ArrayKey, Resource};
pub use prepared::Prepared;
pub use store::{Cell, Held, Holding, Learned, Met, Scene};
