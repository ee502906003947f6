//! The reader of expressions and formulas.
#![tactic(auto)]

mod atoms;
mod calls;
mod level;
mod part;
mod reading;
mod room;
mod sight;

pub use calls::{expression, formula};
pub use level::{Level, Mode};
pub use part::{Amount, Bounds, Chain, Part, part_of, start_of};
pub use reading::{
    read_args, read_expression, read_formula, read_some_steps, read_steps, rest_of_expression,
};
pub use room::inside;
