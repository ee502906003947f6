//! Clauses. Each function reads one rule, where so many constructs (`room`) may still be opened, and returns what it read and
//! the tokens behind.
ghost use Rattle.std.specs.Prelude.{◌≡◌, Some, None, MatchOption};
ghost use Rattle.pv_reading.specs.Given.{Gives, ahead};
ghost use Rattle.pv_exprs.specs.Reading.{deeper};
ghost use Rattle.pv_clauses.specs.Grammar.{clause_of};
ghost use Rattle.pv_clauses.specs.Reading as reading;

use pv_ast::{Clause, ClauseKind, Clauses};
use pv_base::Span;
use pv_exprs::read_formula;
use pv_reading::{ReadFault, expected};
use pv_tokens::fixed::{CONTEXT, ENSURES, REQUIRES, SEMICOLON};
use pv_tokens::{Lexeme, LexemeKind};
use sqlite_items::Boxed;
use std::alloc::Global;

fn clause_kind(kind: LexemeKind) -> Option<ClauseKind>
    ensures { result ≡ clause_of kind }
{
    match kind {
        LexemeKind::Fixed(number) => match number {
            REQUIRES => Some(ClauseKind::Requires),
            ENSURES => Some(ClauseKind::Ensures),
            CONTEXT => Some(ClauseKind::Context),
            _ => None,
        },
        LexemeKind::Named(_) => None,
        LexemeKind::Number(_) => None,
    }
}

/// The kind of the clause whose first token comes first, where that stands, and the tokens behind it.
pub fn clause_word(tokens: &[Lexeme]) -> Option<(ClauseKind, Span, &[Lexeme])>
    ensures { MatchOption result (ahead clause_of tokens.now ≡ None) (λ x. ahead clause_of tokens.now ≡ Some (x.0, x.1, x.2.now)) }
{
    match tokens {
        [first, rest @ ..] => match clause_kind(first.kind) {
            Some(kind) => Some((kind, first.span, rest)),
            None => None,
        },
        [] => None,
    }
}

/// A clause behind its first word.
#[tactic(auto, unfolding(crate::specs::Reading::clause))]
pub fn read_clause<'a>(
    alloc: Global,
    kind: ClauseKind,
    tokens: &'a [Lexeme],
    room: u32,
) -> Result<(Boxed<Clause>, &'a [Lexeme]), ReadFault>
    ensures { Gives (λ x. x.0) (λ x. x.1.now) result (reading.clause (deeper room) kind tokens.now) }
{
    let (formula, rest) = read_formula(alloc, tokens, room)?;
    let (_, rest) = expected(rest, SEMICOLON)?;
    let formula = formula.into_tree();
    let clause = Boxed::new(alloc, Clause { kind, formula })?;
    Ok((clause, rest))
}

/// Clauses behind those found so far, as long as another begins.
pub fn read_clauses<'a>(
    alloc: Global,
    found: Clauses,
    tokens: &'a [Lexeme],
    room: u32,
) -> Result<(Clauses, &'a [Lexeme]), ReadFault>
    ensures { Gives (λ x. x.0) (λ x. x.1.now) result (reading.clauses (deeper room) found tokens.now) }
{
    let mut all = found;
    let mut rest = tokens;
    'found: loop {
        match clause_word(rest) {
            Some((kind, _, behind)) => {
                let (next, behind) = read_clause(alloc, kind, behind, room)?;
                all.push(next.into_inner())?;
                rest = behind;
            }
            None => return Ok((all, rest)),
        }
    }
}
