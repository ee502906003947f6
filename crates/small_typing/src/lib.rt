//! Small programs that keep the static rules keep the rules of small programs, as a law: its function proves its clause and answers
//! nothing.
#![tactic(auto)]

ghost use Rattle.pv_ast.specs.Rules.Programs.{KeepsRules};
ghost use Rattle.small_meaning.specs.Rules.{KeepsRules as KeepsSmallRules};
ghost use Rattle.small_meaning.specs.Small.{IsSmall};

use pv_ast::Program;

/// A small program that breaks no static rule keeps the rules of small programs.
pub fn keeps_small_rules(program: &Program)
    ensures { KeepsRules program.now → IsSmall program.now → KeepsSmallRules program.now }
{}
