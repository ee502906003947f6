ghost use Rattle.std.specs.Prelude.{◌≡◌};
ghost use Rattle.pv_ast.specs.Rules.Faults.{least, broken, broken_if, broken_unless, is_before as is_before_of, rule_number as number_of, earlier};

use pv_ast::{Fault, Rule};
use pv_base::Span;

/// The number of a rule.
fn rule_number(rule: Rule) -> u8
    ensures { result ≡ number_of rule }
{
    match rule {
        Rule::UnknownName => 1,
        Rule::Duplicate => 2,
        Rule::Shadows => 3,
        Rule::WrongType => 4,
        Rule::WrongCount => 5,
        Rule::NotPure => 6,
        Rule::NoReturn => 7,
        Rule::ReturnPlace => 8,
        Rule::ResultPlace => 9,
        Rule::OldPlace => 10,
        Rule::NotAssignable => 11,
        Rule::NotALocation => 12,
        Rule::BadFraction => 13,
        Rule::NoRole => 14,
        Rule::BarrierPlace => 15,
        Rule::BodyForm => 16,
        Rule::MessagePlace => 17,
        Rule::MessageRule => 18,
        Rule::FormulaScope => 19,
        Rule::RangeName => 20,
    }
}

/// Whether a fault is named before another: it starts earlier, or both start there and its rule comes first.
fn is_before(fault: Fault, other: Fault) -> bool
    ensures { result ≡ is_before_of fault other }
{
    fault.span.from < other.span.from
        || (fault.span.from == other.span.from && rule_number(fault.rule) < rule_number(other.rule))
}

/// Notes a broken rule, unless one that is named before it was found.
pub(crate) fn note(first: &mut Option<Fault>, rule: Rule, span: Span)
    ensures { first.new ≡ least first.old (broken rule span) }
{
    let fault = Fault { rule, span };
    match *first {
        None => *first = Some(fault),
        Some(found) => {
            if is_before(fault, found) {
                *first = Some(fault);
            }
        }
    }
}

/// Notes a rule that is broken where the test holds.
pub(crate) fn note_if(test: bool, first: &mut Option<Fault>, rule: Rule, span: Span)
    ensures { first.new ≡ least first.old (broken_if test rule span) }
{
    if test {
        note(first, rule, span);
    }
}

/// Notes a rule that is broken where the test doesn't hold.
pub(crate) fn note_unless(test: bool, first: &mut Option<Fault>, rule: Rule, span: Span)
    ensures { first.new ≡ least first.old (broken_unless test rule span) }
{
    if !test {
        note(first, rule, span);
    }
}
