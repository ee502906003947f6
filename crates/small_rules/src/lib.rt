//! What small programs are, as a test. It costs one pass over the tree, and no memory.
#![tactic(auto)]

mod classes;
mod expressions;
mod statements;
#[cfg(test)]
mod tests;

ghost use Rattle.std.specs.Prelude.{◌≡◌, ◌↔◌, IsTrue};
ghost use Rattle.std.specs.List.{list_all};
ghost use Rattle.small_meaning.specs.Small.{IsSmall, is_small_class as is_small_class_of};

use classes::is_small_class;
use pv_ast::{Class, Program};

/// Whether a program is small: its classes have no lock invariants and nothing but methods over whole numbers, which declare,
/// assign, branch, assert and return, in expressions of the small form.
pub fn is_small(program: &Program) -> bool
    ensures { IsTrue result ↔ IsSmall program.now }
{
    are_small_classes(program.classes.as_slice())
}

fn are_small_classes(classes: &[Class]) -> bool
    ensures { result ≡ list_all is_small_class_of classes.now }
{
    classes.iter().all(|class| is_small_class(class))
}
