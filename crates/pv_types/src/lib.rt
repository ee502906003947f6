//! Which static rule a program breaks first, and the type of an expression in a scope.
#![tactic(auto)]

pub mod class_table;
mod classes;
mod clauses;
pub mod environment;
pub mod expressions;
mod labels;
mod lookup;
mod member_index;
mod members;
mod noting;
mod ranges;
mod rights;
mod scoped;
pub mod sets;
mod simple;
mod site;
mod standing;
mod statements;
pub mod types;
pub mod uses;
pub mod visible;
mod walk;

ghost use Rattle.std.specs.Prelude.{◌≡◌, None, OnOk, IfOk, IfErr};
ghost use Rattle.pv_ast.specs.Rules.Faults.{first_of};
ghost use Rattle.pv_ast.specs.Rules.Programs.{KeepsRules, faults_of_program};

use class_table::{ClassEntry, ClassTable};
use pv_ast::Program;
pub use pv_ast::{Fault, Rule, Scope, ScopeVar, ScopeVars};
use pv_base::{NoMemory, Span};
pub use scoped::type_of;
use std::alloc::Global;
use visible::Visible;

/// Why a program has no types: the first static rule that it breaks, and where; or memory ran out.
#[derive(Clone, Copy, Debug, PartialEq, Eq, Drop)]
pub enum TypeFault {
    Broken(Rule, Span),
    NoMemory,
}

impl From<NoMemory> for TypeFault {
    ghost use Rattle.std.specs.Prelude.{◌≡◌};
    ghost use Rattle.pv_types.specs.declared.TypeFault.TheVariants.{NoMemory};

    ghost from_gives = { λ _ e. e ≡ NoMemory };

    fn from(_: NoMemory) -> TypeFault {
        TypeFault::NoMemory
    }
}

ghost use Rattle.pv_types.specs.TypeFaults.{IsFirstFault, IsChosen};

/// Whether a program keeps the static rules. The error is the first fault by the least start, and of those that start there the
/// one of the first rule in the order of `Rule`; or want of memory. The time grows with the text.
pub fn check_types(alloc: Global, program: &Program) -> Result<(), TypeFault>
    ensures passes { OnOk result (KeepsRules program.now) }
    ensures first { IfErr result (λ fault. IsFirstFault program.now fault) }
    ensures chosen { IfErr result (λ fault. IsChosen program.now fault) }
{
    match first_fault(alloc, program)? {
        None => Ok(()),
        Some(fault) => Err(TypeFault::Broken(fault.rule, fault.span)),
    }
}

/// The first fault of a program, if it has one.
fn first_fault(alloc: Global, program: &Program) -> Result<Option<Fault>, NoMemory>
    ensures { IfOk result (λ first. first ≡ first_of (faults_of_program program.now)) }
{
    let mut first = None;
    classes::program(alloc, program, &mut first)?;
    Ok(first)
}
