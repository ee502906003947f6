//! The call that reads a contract from a token on.
ghost use Rattle.std.specs.Prelude.{◌≡◌, ◌≤◌, ◌<◌, ◌+◌, ◌^◌, ℕ, length, drop};
ghost use Rattle.pv_ast.specs.declared.Contract.{Contract};
ghost use Rattle.pv_reading.specs.Answers.{ReadsFront, Answers};
ghost use Rattle.pv_reading.specs.Spelled.{IsLongest, most_open};
ghost use Rattle.pv_clauses.specs.Grammar.{IsContract};

use crate::reading::read_clauses;
use pv_ast::Contract;
use pv_reading::{MOST_OPEN, ParseFault, placed, tokens_from};
use pv_tokens::Tokens;
use sqlite_items::Items;
use std::alloc::Global;

/// The clauses from token `from` on, up to one that begins none, where `depth` constructs are open already, and the number of
/// that token. `Unexpected` and `TooDeep` come as those of an expression.
pub fn contract(
    alloc: Global,
    tokens: &Tokens,
    from: u32,
    depth: u32,
) -> Result<(Contract, u32), ParseFault>
    requires from { from ≤ length tokens.now.items }
    requires depth { depth ≤ most_open }
    requires few { length tokens.now.items < 2 ^ 32 }
    ensures reads { ReadsFront (IsContract depth) most_open tokens.now.end tokens.now.items from result }
    // What spells a contract, and goes on to none that is longer, is read as that one, unless memory runs out.
    ensures accepts { (x : Contract) (taken : ℕ) → IsLongest (IsContract depth) most_open (drop from tokens.now.items) x taken → Answers result (x, from + taken) }
{
    let front = tokens_from(tokens, from);
    match read_clauses(alloc, Items::new(alloc), front, MOST_OPEN - depth) {
        Ok((clauses, rest)) => Ok((Contract { clauses }, (tokens.len() - rest.len()) as u32)),
        Err(fault) => Err(placed(front, tokens.end, fault)),
    }
}
