ghost use Rattle.std.specs.Prelude.{◌≡◌, ◌&&◌, is_some};
ghost use Rattle.pv_ast.specs.Rules.Items as items;
ghost use Rattle.pv_shapes.specs.Seen.{uses_as, form_as, facts_as};

use pv_ast::{Operator, Token};

/// How a variable is used in an expression: not at all; only in indexes of arrays without it, where it stands with one and
/// the same number added; or elsewhere too.
#[derive(Clone, Copy, Drop)]
pub enum Uses {
    Unused,
    Shifted(i128),
    Elsewhere,
}

impl Uses {
    pub fn any(self) -> bool
        ensures { result ≡ items.is_used (uses_as self) }
    {
        !matches!(self, Uses::Unused)
    }

    pub fn if_any(used: bool) -> Uses
        ensures { uses_as result ≡ items.use_if used }
    {
        if used { Uses::Elsewhere } else { Uses::Unused }
    }

    pub fn with(self, other: Uses) -> Uses
        ensures { uses_as result ≡ items.both_uses (uses_as self) (uses_as other) }
    {
        match (self, other) {
            (Uses::Unused, other) => other,
            (Uses::Shifted(s), Uses::Unused) => Uses::Shifted(s),
            (Uses::Shifted(s), Uses::Shifted(t)) if s == t => Uses::Shifted(s),
            _ => Uses::Elsewhere,
        }
    }
}

/// What an expression is by itself, as far as items ask for it: the variable; a written number; the variable with a written
/// number added or taken away; an element, at the variable with so much added, of an array without the variable; order
/// comparisons joined by `&&`; or the variable `== e`, where `e` is without it.
#[derive(Clone, Copy, Drop)]
pub enum Form {
    Variable,
    Literal(u64),
    Shift(i128),
    Element(i128),
    Guard,
    Fixing,
    Other,
}

impl Form {
    pub fn is_variable(self) -> bool
        ensures { result ≡ items.is_variable (form_as self) }
    {
        matches!(self, Form::Variable)
    }

    pub fn is_guard(self) -> bool
        ensures { result ≡ items.is_guard (form_as self) }
    {
        matches!(self, Form::Guard)
    }

    pub fn is_fixing(self) -> bool
        ensures { result ≡ items.is_fixing (form_as self) }
    {
        matches!(self, Form::Fixing)
    }

    /// Whether it may be the first part of a permission.
    pub fn is_element(self) -> bool
        ensures { result ≡ is_some (items.item_of_location (form_as self)) }
    {
        matches!(self, Form::Element(_))
    }

    /// How much is added to the variable in an index.
    fn shift(self) -> Option<i128>
        ensures { result ≡ items.shift_of (form_as self) }
    {
        match self {
            Form::Variable => Some(0),
            Form::Shift(s) => Some(s),
            _ => None,
        }
    }

    fn only_if(self, holds: bool) -> Form
        ensures { form_as result ≡ items.form_if holds (form_as self) }
    {
        if holds { self } else { Form::Other }
    }

    fn raised(self) -> Form
        ensures { form_as result ≡ items.raised (items.literal_of (form_as self)) }
    {
        match self {
            Form::Literal(n) => Form::Shift(n as i128),
            _ => Form::Other,
        }
    }

    fn lowered(self) -> Form
        ensures { form_as result ≡ items.lowered (items.literal_of (form_as self)) }
    {
        match self {
            Form::Literal(n) => Form::Shift(0 - n as i128),
            _ => Form::Other,
        }
    }
}

/// What an expression shows of a variable. It is `pure` where it has no permission, token, instance or quantifier, and a
/// `truth` where it has no permission, token, instance or `\forall*`.
#[derive(Clone, Copy, Drop)]
pub struct Facts {
    pub uses: Uses,
    pub form: Form,
    pub pure: bool,
    pub truth: bool,
}

impl Facts {
    /// Of an atom other than the variable.
    pub fn of_word(form: Form) -> Facts
        ensures { facts_as result ≡ items.facts_of_word (form_as form) }
    {
        Facts {
            uses: Uses::Unused,
            form,
            pure: true,
            truth: true,
        }
    }

    /// Of a variable, which is the one or another.
    pub fn of_variable(same: bool) -> Facts
        ensures { facts_as result ≡ items.facts_of_variable same }
    {
        if same {
            Facts {
                uses: Uses::Elsewhere,
                form: Form::Variable,
                pure: true,
                truth: true,
            }
        } else {
            Facts::of_word(Form::Other)
        }
    }

    /// Of a permission, a token or an instance.
    pub fn of_resource(used: bool) -> Facts
        ensures { facts_as result ≡ items.facts_of_resource used }
    {
        Facts {
            uses: Uses::if_any(used),
            form: Form::Other,
            pure: false,
            truth: false,
        }
    }

    /// Of a quantifier.
    pub fn of_quantifier(star: bool, used: bool) -> Facts
        ensures { facts_as result ≡ items.facts_of_quantifier star used }
    {
        Facts {
            uses: Uses::if_any(used),
            form: Form::Other,
            pure: false,
            truth: !star,
        }
    }

    /// Of an expression of one part, which shows these.
    pub fn environment(self) -> Facts
        ensures { facts_as result ≡ items.facts_in_environment (facts_as self) }
    {
        Facts {
            uses: self.uses,
            form: Form::Other,
            pure: self.pure,
            truth: self.truth,
        }
    }

    /// Of an element of an array.
    pub fn of_element(array: Facts, index: Facts) -> Facts
        ensures { facts_as result ≡ items.facts_of_index (facts_as array) (facts_as index) }
    {
        Facts {
            uses: uses_of_index(array, index),
            form: form_of_index(array, index),
            pure: array.pure && index.pure,
            truth: array.truth && index.truth,
        }
    }

    /// Of an operator between two parts.
    pub fn of_operator(operator: Operator, a: Facts, b: Facts) -> Facts
        ensures { facts_as result ≡ items.facts_of_operator operator (facts_as a) (facts_as b) }
    {
        Facts {
            uses: a.uses.with(b.uses),
            form: form_of_operator(operator, a, b),
            pure: a.pure && b.pure,
            truth: a.truth && b.truth,
        }
    }

    /// Whether the variable isn't used.
    pub fn is_term(self) -> bool
        ensures { result ≡ items.is_term (facts_as self) }
    {
        !self.uses.any()
    }

    /// Whether it is an item by being pure.
    pub fn is_pure_item(self) -> bool
        ensures { result ≡ is_some (items.item_of_pure (facts_as self)) }
    {
        self.pure && !matches!(self.uses, Uses::Elsewhere)
    }
}

fn uses_of_index(array: Facts, index: Facts) -> Uses
    ensures { uses_as result ≡ items.use_of_index (facts_as array) (facts_as index) }
{
    if index.is_term() {
        return array.uses;
    }
    if !array.is_term() {
        return Uses::Elsewhere;
    }
    match index.form.shift() {
        Some(s) => Uses::Shifted(s),
        None => Uses::Elsewhere,
    }
}

fn form_of_index(array: Facts, index: Facts) -> Form
    ensures { form_as result ≡ items.form_of_index (facts_as array) (facts_as index) }
{
    if !array.is_term() {
        return Form::Other;
    }
    match index.form.shift() {
        Some(s) => Form::Element(s),
        None => Form::Other,
    }
}

fn is_variable_and_term(a: Facts, b: Facts) -> bool
    ensures { result ≡ items.is_variable_and_term (facts_as a) (facts_as b) }
{
    a.form.is_variable() && b.is_term()
}

/// Whether one is the variable and the other is without it.
pub fn has_variable_and_term(a: Facts, b: Facts) -> bool
    ensures { result ≡ items.has_variable_and_term (facts_as a) (facts_as b) }
{
    is_variable_and_term(a, b) || is_variable_and_term(b, a)
}

fn form_of_order(a: Facts, b: Facts) -> Form
    ensures { form_as result ≡ items.form_of_order (facts_as a) (facts_as b) }
{
    let terms = a.is_term() && b.is_term();
    Form::Guard.only_if(has_variable_and_term(a, b) || terms)
}

fn form_of_operator(operator: Operator, a: Facts, b: Facts) -> Form
    ensures { form_as result ≡ items.form_of_operator operator (facts_as a) (facts_as b) }
{
    match operator {
        Operator::Add if a.form.is_variable() => b.form.raised(),
        Operator::Sub if a.form.is_variable() => b.form.lowered(),
        Operator::Eq => Form::Fixing.only_if(is_variable_and_term(a, b)),
        Operator::Lt | Operator::Le | Operator::Gt | Operator::Ge => form_of_order(a, b),
        Operator::And => Form::Guard.only_if(a.form.is_guard() && b.form.is_guard()),
        _ => Form::Other,
    }
}

/// Whether `committed` or another token on such an operand is an item.
pub fn is_token_item(token: Token, operand: Facts) -> bool
    ensures { result ≡ is_some (items.item_of_token token (facts_as operand)) }
{
    matches!(token, Token::Committed) && operand.is_term()
}
