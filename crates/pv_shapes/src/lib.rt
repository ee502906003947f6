//! Whether a program's quantifiers stand in right places and are made of items, and the contracts of its blocks too.
//!
//! The time is that of a few passes over each expression for each quantifier round it, and no memory is taken.
#![tactic(auto)]

mod expressions;
pub mod facts;
mod firsts;
mod formulas;
mod parts;
mod quantifiers;
mod statements;
mod uses;

ghost use Rattle.std.specs.Prelude.{◌≡◌, ◌↔◌, ◌++◌, Some, [], IsOk, IfErr};
ghost use Rattle.std.specs.List.{flat_map};
ghost use Rattle.pv_ast.specs.Rules.Shapes as shapes;

use firsts::earlier;
pub use firsts::first_starts_first;
pub use formulas::facts_of;
use formulas::fault_of_formula;
pub use parts::{items_have_parts, parts_make_items};
pub use pv_ast::ShapeFault;
use pv_ast::{Class, Contract, Expr, Member, Program, Stmt};
use statements::{Inside, fault_of_block, fault_of_contract};

/// Whether a program has no fault of shape: each quantifier stands where it may, and its body and each clause of a block, a
/// counted loop or a barrier and each message is joined of items. The error is the first fault in the text.
pub fn check_shapes(program: &Program) -> Result<(), ShapeFault>
    ensures passes { IsOk result ↔ (shapes.shape_faults_of program.now ≡ []) }
    ensures first { IfErr result (λ fault. shapes.first_of (shapes.shape_faults_of program.now) ≡ Some fault) }
{
    match fault_of_classes(program.classes.as_slice()) {
        None => Ok(()),
        Some(fault) => Err(fault),
    }
}

/// The first fault of classes.
fn fault_of_classes(classes: &[Class]) -> Option<ShapeFault>
    ensures { result ≡ shapes.first_of (flat_map shapes.faults_of_class classes.now) }
{
    let mut first = None;
    for class in classes {
        first = earlier(first, fault_of_class(class));
    }
    first
}

/// The first fault of a class.
#[tactic(auto, using(crate::proofs::Order::first_append))]
fn fault_of_class(class: &Class) -> Option<ShapeFault>
    ensures { result ≡ shapes.first_of (shapes.faults_of_class class.now) }
{
    earlier(
        fault_of_invariant(&class.lock_invariant),
        fault_of_members(class.members.as_slice()),
    )
}

fn fault_of_invariant(invariant: &Option<Expr>) -> Option<ShapeFault>
    ensures { result ≡ shapes.first_of (shapes.faults_of_invariant invariant.now) }
{
    match invariant {
        None => None,
        Some(formula) => fault_of_formula(formula),
    }
}

fn fault_of_members(members: &[Member]) -> Option<ShapeFault>
    ensures { result ≡ shapes.first_of (flat_map shapes.faults_of_member members.now) }
{
    let mut first = None;
    for member in members {
        first = earlier(first, fault_of_member(member));
    }
    first
}

fn fault_of_member(member: &Member) -> Option<ShapeFault>
    ensures { result ≡ shapes.first_of (shapes.faults_of_member member.now) }
{
    match member {
        Member::Field(_) => None,
        Member::Predicate(predicate) => fault_of_formula(&predicate.body),
        Member::Method(method) => fault_of_method(&method.contract, method.body.as_slice()),
        Member::Run(run) => fault_of_method(&run.contract, run.body.as_slice()),
    }
}

/// The first fault of a contract and a body.
#[tactic(auto, using(crate::proofs::Order::first_append))]
fn fault_of_method(contract: &Contract, body: &[Stmt]) -> Option<ShapeFault>
    ensures { result ≡ shapes.first_of (shapes.faults_of_contract contract.now ++ shapes.faults_of_block body.now shapes.outside) }
{
    let outside = Inside {
        block: None,
        counted: None,
    };
    earlier(fault_of_contract(contract), fault_of_block(body, outside))
}
