//! The calls that read an expression or a formula from a token on.
ghost use Rattle.std.specs.Prelude.{◌≡◌, ◌≤◌, ◌<◌, ◌+◌, ◌^◌, ℕ, length, drop};
ghost use Rattle.pv_ast.specs.declared.Expr.{Expr};
ghost use Rattle.pv_reading.specs.Answers.{ReadsFront, Answers};
ghost use Rattle.pv_reading.specs.Spelled.{IsLongest, most_open};
ghost use Rattle.pv_exprs.specs.Spelled.{IsExpressionTree, IsFormulaTree};

use crate::level::Mode;
use crate::reading::{read_expression, read_formula};
use pv_ast::Expr;
use pv_reading::{MOST_OPEN, ParseFault, placed, tokens_from};
use pv_tokens::Tokens;
use std::alloc::Global;

/// The expression that begins with token `from`, where `depth` constructs are open already, and the number of the token behind
/// it. It takes the most tokens that are the front of an expression. `Unexpected` comes exactly where they spell none, and names
/// the token behind them; at the end of the text an empty span there. `TooDeep` names the first token that opens the 65th
/// construct.
pub fn expression(
    alloc: Global,
    tokens: &Tokens,
    from: u32,
    depth: u32,
) -> Result<(Expr, u32), ParseFault>
    requires from { from ≤ length tokens.now.items }
    requires depth { depth ≤ most_open }
    requires few { length tokens.now.items < 2 ^ 32 }
    ensures reads { ReadsFront (IsExpressionTree depth) most_open tokens.now.end tokens.now.items from result }
    // What spells an expression, and goes on to none that is longer, is read as that one, unless memory runs out.
    ensures accepts { (e : Expr) (taken : ℕ) → IsLongest (IsExpressionTree depth) most_open (drop from tokens.now.items) e taken → Answers result (e, from + taken) }
{
    let front = tokens_from(tokens, from);
    match read_expression(alloc, Mode::Program, front, MOST_OPEN - depth) {
        Ok((part, rest)) => Ok((part.into_tree(), (tokens.len() - rest.len()) as u32)),
        Err(fault) => Err(placed(front, tokens.end, fault)),
    }
}

/// The formula that begins with token `from`, as `expression` does.
pub fn formula(
    alloc: Global,
    tokens: &Tokens,
    from: u32,
    depth: u32,
) -> Result<(Expr, u32), ParseFault>
    requires from { from ≤ length tokens.now.items }
    requires depth { depth ≤ most_open }
    requires few { length tokens.now.items < 2 ^ 32 }
    ensures reads { ReadsFront (IsFormulaTree depth) most_open tokens.now.end tokens.now.items from result }
    ensures accepts { (e : Expr) (taken : ℕ) → IsLongest (IsFormulaTree depth) most_open (drop from tokens.now.items) e taken → Answers result (e, from + taken) }
{
    let front = tokens_from(tokens, from);
    match read_formula(alloc, front, MOST_OPEN - depth) {
        Ok((part, rest)) => Ok((part.into_tree(), (tokens.len() - rest.len()) as u32)),
        Err(fault) => Err(placed(front, tokens.end, fault)),
    }
}
