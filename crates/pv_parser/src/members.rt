//! Members of classes. Each function reads one rule, where so many constructs (`room`) may still be opened, and returns what it
//! read and the tokens behind.
ghost use Rattle.std.specs.Prelude.{◌≡◌, []};
ghost use Rattle.pv_reading.specs.Given.{Gives};
ghost use Rattle.pv_reading.specs.Reading.{many};
ghost use Rattle.pv_tokens.specs.declared.fixed.TheConstants as sign;
ghost use Rattle.pv_exprs.specs.Reading.{deeper};
ghost use Rattle.pv_parser.specs.Reading as reading;
ghost use Rattle.pv_parser.specs.Reading.{deeper_blocks};

use crate::parts::formula_end;
use crate::statements::block;
use crate::trees::{method_of, param_of, predicate_of, run_of};
use crate::types::{params, type_word};
use pv_ast::{ClauseKind, Clauses, Member, Members, TypeWord, Word};
use pv_base::Span;
use pv_clauses::{clause_word, read_clause, read_clauses};
use pv_reading::{ReadFault, after, expected, expected_name};
use pv_tokens::Lexeme;
use pv_tokens::fixed::{ASSIGN, CLOSE_BRACE, RESOURCE, RUN, SEMICOLON, VOID};
use sqlite_items::{Boxed, Items};
use std::alloc::Global;

/// The type of what a method returns.
#[tactic(auto, unfolding(crate::specs::Reading::result_type))]
fn result_type(tokens: &[Lexeme], room: u32) -> Result<(Option<TypeWord>, &[Lexeme]), ReadFault>
    ensures { Gives (λ x. x.0) (λ x. x.1.now) result (reading.result_type (deeper room) tokens.now) }
{
    match after(tokens, VOID) {
        Some((_, rest)) => Ok((None, rest)),
        None => {
            let (kind, rest) = type_word(tokens, room)?;
            Ok((Some(kind), rest))
        }
    }
}

/// What follows the name of a method that begins at `first`.
#[tactic(auto, unfolding(crate::specs::Reading::method_end))]
fn method_end<'a>(
    alloc: Global,
    first: Span,
    clauses: Clauses,
    result_type: Option<TypeWord>,
    name: Word,
    tokens: &'a [Lexeme],
    room: u32,
) -> Result<(Boxed<Member>, &'a [Lexeme]), ReadFault>
    ensures { Gives (λ x. x.0) (λ x. x.1.now) result (reading.method_end (deeper_blocks room) first clauses result_type name tokens.now) }
{
    let (params, rest) = params(alloc, tokens, room)?;
    let (body, last, rest) = block(alloc, rest, room)?;
    let method = method_of(first, clauses, result_type, name, params, body, last);
    let method = Boxed::new(alloc, method)?;
    Ok((method, rest))
}

/// What follows the word `run`, which stands at `word`, of a member that begins at `first`.
#[tactic(auto, unfolding(crate::specs::Reading::run_end))]
fn run_end<'a>(
    alloc: Global,
    first: Span,
    clauses: Clauses,
    word: Span,
    tokens: &'a [Lexeme],
    room: u32,
) -> Result<(Boxed<Member>, &'a [Lexeme]), ReadFault>
    ensures { Gives (λ x. x.0) (λ x. x.1.now) result (reading.run_end (deeper_blocks room) first clauses word tokens.now) }
{
    let (body, last, rest) = block(alloc, tokens, room)?;
    let run = Boxed::new(alloc, run_of(first, clauses, word, body, last))?;
    Ok((run, rest))
}

/// What follows a contract with a clause at least.
#[tactic(auto, unfolding(crate::specs::Reading::contracted))]
fn contracted<'a>(
    alloc: Global,
    first: Span,
    clauses: Clauses,
    tokens: &'a [Lexeme],
    room: u32,
) -> Result<(Boxed<Member>, &'a [Lexeme]), ReadFault>
    ensures { Gives (λ x. x.0) (λ x. x.1.now) result (reading.contracted (deeper room) (deeper_blocks room) first clauses tokens.now) }
{
    match after(tokens, RUN) {
        Some((word, rest)) => run_end(alloc, first, clauses, word, rest, room),
        None => {
            let (result, rest) = result_type(tokens, room)?;
            let (name, rest) = expected_name(rest)?;
            method_end(alloc, first, clauses, result, name, rest, room)
        }
    }
}

/// What follows the word of the first clause of a member, which stands at `first`.
#[tactic(auto, unfolding(crate::specs::Reading::contract_member))]
fn contract_member<'a>(
    alloc: Global,
    kind: ClauseKind,
    first: Span,
    tokens: &'a [Lexeme],
    room: u32,
) -> Result<(Boxed<Member>, &'a [Lexeme]), ReadFault>
    ensures { Gives (λ x. x.0) (λ x. x.1.now) result (reading.contract_member (deeper room) (deeper_blocks room) kind first tokens.now) }
{
    let (clause, rest) = read_clause(alloc, kind, tokens, room)?;
    let mut found = Items::new(alloc);
    found.push(clause.into_inner())?;
    let (clauses, rest) = read_clauses(alloc, found, rest, room)?;
    contracted(alloc, first, clauses, rest, room)
}

/// What follows the `resource` at `first`.
#[tactic(auto, unfolding(crate::specs::Reading::predicate))]
fn predicate<'a>(
    alloc: Global,
    first: Span,
    tokens: &'a [Lexeme],
    room: u32,
) -> Result<(Boxed<Member>, &'a [Lexeme]), ReadFault>
    ensures { Gives (λ x. x.0) (λ x. x.1.now) result (reading.predicate (deeper room) (deeper_blocks room) first tokens.now) }
{
    let (name, rest) = expected_name(tokens)?;
    let (params, rest) = params(alloc, rest, room)?;
    let (_, rest) = expected(rest, ASSIGN)?;
    let (body, last, rest) = formula_end(alloc, rest, room)?;
    let predicate = Boxed::new(alloc, predicate_of(first, name, params, body, last))?;
    Ok((predicate, rest))
}

/// What follows the type and the name of a field or a method.
#[tactic(auto, unfolding(crate::specs::Reading::typed))]
fn typed<'a>(
    alloc: Global,
    kind: TypeWord,
    name: Word,
    tokens: &'a [Lexeme],
    room: u32,
) -> Result<(Boxed<Member>, &'a [Lexeme]), ReadFault>
    ensures { Gives (λ x. x.0) (λ x. x.1.now) result (reading.typed (deeper_blocks room) kind name tokens.now) }
{
    match after(tokens, SEMICOLON) {
        Some((_, rest)) => {
            let field = Boxed::new(alloc, Member::Field(param_of(kind, name)))?;
            Ok((field, rest))
        }
        None => {
            let none = Items::new(alloc);
            method_end(alloc, kind.span, none, Some(kind), name, tokens, room)
        }
    }
}

/// A field, or a method that returns a value and has no contract.
#[tactic(auto, unfolding(crate::specs::Reading::typed_member))]
fn typed_member<'a>(
    alloc: Global,
    tokens: &'a [Lexeme],
    room: u32,
) -> Result<(Boxed<Member>, &'a [Lexeme]), ReadFault>
    ensures { Gives (λ x. x.0) (λ x. x.1.now) result (reading.typed_member (deeper room) (deeper_blocks room) tokens.now) }
{
    let (kind, rest) = type_word(tokens, room)?;
    let (name, rest) = expected_name(rest)?;
    typed(alloc, kind, name, rest, room)
}

#[tactic(auto, unfolding(crate::specs::Reading::member))]
fn member<'a>(
    alloc: Global,
    tokens: &'a [Lexeme],
    room: u32,
) -> Result<(Boxed<Member>, &'a [Lexeme]), ReadFault>
    ensures { Gives (λ x. x.0) (λ x. x.1.now) result (reading.member (deeper room) (deeper_blocks room) tokens.now) }
{
    if let Some((kind, first, rest)) = clause_word(tokens) {
        return contract_member(alloc, kind, first, rest, room);
    }
    match after(tokens, VOID) {
        Some((first, rest)) => {
            let (name, rest) = expected_name(rest)?;
            method_end(alloc, first, Items::new(alloc), None, name, rest, room)
        }
        None => match after(tokens, RUN) {
            Some((first, rest)) => run_end(alloc, first, Items::new(alloc), first, rest, room),
            None => match after(tokens, RESOURCE) {
                Some((first, rest)) => predicate(alloc, first, rest, room),
                None => typed_member(alloc, tokens, room),
            },
        },
    }
}

/// Members up to a closing brace, and where that stands.
pub fn members<'a>(
    alloc: Global,
    tokens: &'a [Lexeme],
    room: u32,
) -> Result<(Members, Span, &'a [Lexeme]), ReadFault>
    ensures { Gives (λ x. (x.0, x.1)) (λ x. x.2.now) result (many sign.CLOSE_BRACE (reading.member (deeper room) (deeper_blocks room)) [] tokens.now) }
{
    let mut found = Items::new(alloc);
    let mut rest = tokens;
    'found: loop {
        match after(rest, CLOSE_BRACE) {
            Some((last, behind)) => return Ok((found, last, behind)),
            None => {
                let (next, behind) = member(alloc, rest, room)?;
                found.push(next.into_inner())?;
                rest = behind;
            }
        }
    }
}
