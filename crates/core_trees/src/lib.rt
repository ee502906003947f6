//! Laws of plain trees: what holds of the tree that a well formed program becomes. Each is a function that proves its clause and
//! answers nothing.
#![tactic(auto)]

ghost use Rattle.std.specs.Prelude.{List};
ghost use Rattle.pv_ast.specs.declared.Program.{Program};
ghost use Rattle.pv_ast.specs.Rules.Programs.{KeepsRules};
ghost use Rattle.pv_ast.specs.Rules.WellFormed.{IsWellFormed};
ghost use Rattle.pv_picks.specs.Elaborating.Programs.{core_of};
ghost use Rattle.core_trees.specs.Resolved.{IsResolved};
ghost use Rattle.core_trees.specs.Positions.{IsConfined};
ghost use Rattle.core_trees.specs.Messages.{IsMatched};
ghost use Rattle.core_trees.specs.Placing.{IsPlaced};
ghost use Rattle.core_trees.specs.Returns.{ReturnsComeLast};
ghost use Rattle.pv_picks.specs.declared.verdict.Verdict.{Verdict};
ghost use Rattle.pv_picks.specs.Verdicts.Theorems.{AreVerdicts, AreGood, IsVerified};

/// In what a program becomes that keeps the static rules, each name of a class and of a member is declared, and used as it is
/// declared; and each variable that is named is in scope there.
pub fn resolves_well_formed()
    ensures { (p : Program) → KeepsRules p → IsResolved (core_of p) }
{}

/// In what a well formed program becomes, nothing that is read once for all positions names the position: the arrays of permissions,
/// the objects of `committed`, the terms and conditions of guards, the terms that fix the position, and what is looked at before a
/// condition is repeated. And each barrier stands in a par block.
pub fn confines_positions()
    ensures { (p : Program) → IsWellFormed p → IsConfined (core_of p) }
{}

/// In what a program becomes that keeps the static rules, each message that the body of a counted loop receives is one that it sends.
pub fn receives_what_is_sent()
    ensures { (p : Program) → KeepsRules p → IsMatched (core_of p) }
{}

/// In what such a program becomes, each barrier stands in the body of a par block, and each message in that of a counted loop and in
/// no `while` there; and no message is sent to its own sender. A thread that is no member waits there for ever, as one does that
/// receives what it has yet to send; and waiting is never wrong.
pub fn barriers_and_messages_stand_inside()
    ensures { (p : Program) → KeepsRules p → IsPlaced (core_of p) }
{}

/// In what such a program becomes, nothing returns but the last statement of a method's body, and nothing in a `run`.
pub fn returns_come_last()
    ensures { (p : Program) → KeepsRules p → ReturnsComeLast (core_of p) }
{}

/// Where each verdict on a program has its ground, and is Pass or Empty, no evidence makes the judge fail on any of its units.
pub fn good_verdicts_verify()
    ensures { (p : Program) (verdicts : List Verdict) → AreVerdicts p verdicts → AreGood verdicts → IsVerified p }
{}
