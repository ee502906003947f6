//! Why a text is refused, and the line that says so.
ghost use Rattle.std.specs.Prelude.{◌≡◌, ◌≤◌, ◌^◌, ◌++◌, length, IfOk, OnOk};
ghost use Rattle.pv_tokens.specs.Bytes.{most_bytes};

use crate::lines::{put_place, put_span};
use crate::places::START;
use pv_ast::Rule;
use pv_base::Span;
use pv_io::Bytes;
use sqlite_items::Items;
use std::alloc::{AllocError, Global};

/// Why a text is refused. A place is counted in bytes from 0.
#[derive(Clone, Copy, Debug, PartialEq, Eq, Drop)]
pub enum Refusal {
    /// At this byte no space, comment or token starts.
    BadByte(u32),
    /// Here a number above 9223372036854775807 starts.
    BadNumber(u32),
    /// Here a block comment without an end starts.
    OpenComment(u32),
    /// There are more than 65,536 names.
    Full,
    /// The tokens up to this one are the front of no program.
    Unexpected(Span),
    /// This token opens one construct more than the 64 that may be open.
    TooDeep(Span),
    /// The program breaks this static rule here, and none before.
    Broken(Rule, Span),
    /// Here a quantifier stands in a wrong place, or a part of a quantifier's body is no item.
    QuantifierShape(Span),
    /// Here a part of a clause of a block, loop or barrier, or of a message, is no item.
    ItemShape(Span),
    /// The program is no small one.
    NotBuilt,
}

ghost use Rattle.pv_report.specs.Output.{static_rule_text, rule_text, text_behind_rule, refusal_line};

/// The name of a static rule.
fn text_of_rule(rule: Rule) -> &'static [u8]
    ensures { result.now ≡ static_rule_text rule }
{
    match rule {
        Rule::UnknownName => b"UnknownName",
        Rule::Duplicate => b"Duplicate",
        Rule::Shadows => b"Shadows",
        Rule::WrongType => b"WrongType",
        Rule::WrongCount => b"WrongCount",
        Rule::NotPure => b"NotPure",
        Rule::NoReturn => b"NoReturn",
        Rule::ReturnPlace => b"ReturnPlace",
        Rule::ResultPlace => b"ResultPlace",
        Rule::OldPlace => b"OldPlace",
        Rule::NotAssignable => b"NotAssignable",
        Rule::NotALocation => b"NotALocation",
        Rule::BadFraction => b"BadFraction",
        Rule::NoRole => b"NoRole",
        Rule::BarrierPlace => b"BarrierPlace",
        Rule::BodyForm => b"BodyForm",
        Rule::MessagePlace => b"MessagePlace",
        Rule::MessageRule => b"MessageRule",
        Rule::FormulaScope => b"FormulaScope",
        Rule::RangeName => b"RangeName",
    }
}

/// The name of the rule for which a text is refused.
fn rule_of(refusal: Refusal) -> &'static [u8]
    ensures { result.now ≡ rule_text refusal }
{
    match refusal {
        Refusal::BadByte(_) => b"BadByte",
        Refusal::BadNumber(_) => b"BadNumber",
        Refusal::OpenComment(_) => b"OpenComment",
        Refusal::Full => b"Full",
        Refusal::Unexpected(_) => b"Unexpected",
        Refusal::TooDeep(_) => b"TooDeep",
        Refusal::Broken(rule, _) => text_of_rule(rule),
        Refusal::QuantifierShape(_) => b"QuantifierShape",
        Refusal::ItemShape(_) => b"ItemShape",
        Refusal::NotBuilt => b"NotBuilt",
    }
}

/// Puts last where a fault stands.
fn put_behind_rule(output: &mut Vec<u8>, text: &[u8], refusal: Refusal) -> Result<(), AllocError>
    requires { length text.now ≤ most_bytes }
    ensures { OnOk result (output.new.items ≡ output.old.items ++ text_behind_rule text.now refusal) }
{
    let mut near = START;
    match refusal {
        Refusal::BadByte(at) | Refusal::BadNumber(at) | Refusal::OpenComment(at) => {
            output.extend_from_slice(b" ")?;
            put_place(output, text, at, &mut near)
        }
        Refusal::Unexpected(span)
        | Refusal::TooDeep(span)
        | Refusal::Broken(_, span)
        | Refusal::QuantifierShape(span)
        | Refusal::ItemShape(span) => {
            output.extend_from_slice(b" ")?;
            put_span(output, text, span, &mut near)
        }
        Refusal::Full | Refusal::NotBuilt => Ok(()),
    }
}

/// The line of a refused text.
pub fn line_of_refusal(alloc: Global, text: &[u8], refusal: Refusal) -> Result<Bytes, AllocError>
    requires { length text.now ≤ most_bytes }
    ensures { IfOk result (λ line. line ≡ refusal_line text.now refusal) }
{
    let mut output = Vec::new(alloc);
    output.extend_from_slice(b"TextRefused ")?;
    output.extend_from_slice(rule_of(refusal))?;
    put_behind_rule(&mut output, text, refusal)?;
    output.extend_from_slice(b"\n")?;
    Ok(Items::from_vec(output))
}
