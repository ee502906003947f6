//! Where an expression stands.
ghost use Rattle.std.specs.Prelude.{◌≡◌};
ghost use Rattle.pv_ast.specs.Rules.Scoping as scoping;
ghost use Rattle.pv_types.specs.Bounds.{or_bound as or_bound_of};
ghost use Rattle.pv_types.specs.Environments.{environment_of};

use pv_ast::{Declaration, Declared, PvType};
use pv_base::Name;
use pv_types::environment::Environment;
use pv_types::visible::{Mark, Visible};

/// The variables of the quantifiers around, the innermost first.
#[cycle(bounds)]
#[derive(Clone, Copy, Drop)]
pub(crate) struct Bounds<'a> {
    pub name: Name,
    pub outer: Option<&'a Bounds<'a>>,
}

/// Where an expression stands: what stands around it, and the names in scope. These are the ones that were declared up to a mark,
/// and the variables of the quantifiers around.
#[derive(Clone, Copy, Drop)]
pub(crate) struct Sight<'a> {
    pub environment: &'a Environment<'a>,
    pub visible: &'a Visible,
    pub mark: Mark,
    pub bounds: Option<&'a Bounds<'a>>,
}

ghost use Rattle.pv_plain.specs.Sights.{around, in_scope, names_under, within, marked};

/// What was found of a name, or else the variable of a quantifier that has the name.
fn or_bound(found: Option<Declared>, name: Name, bound: Name) -> Option<Declared>
    ensures { result ≡ or_bound_of found name bound }
{
    match found {
        Some(declared) => Some(declared),
        None if name.0 == bound.0 => Some(Declared {
            declaration: Declaration::Bound,
            kind: PvType::Int,
        }),
        None => None,
    }
}

/// What a name stands for among the names up to a mark and as the variable of one of these quantifiers.
fn declared_under(name: Name, visible: &Visible, mark: Mark, bounds: &Bounds) -> Option<Declared>
    ensures { result ≡ scoping.declared_as (names_under (marked visible.now mark) bounds.now).names name }
{
    match bounds.outer {
        None => or_bound(visible.declared_before(mark.count, name), name, bounds.name),
        Some(outer) => or_bound(
            declared_under(name, visible, mark, outer),
            name,
            bounds.name,
        ),
    }
}

impl<'a> Sight<'a> {
    /// Of an expression behind all that is declared.
    pub(crate) fn here(environment: &'a Environment<'a>, visible: &'a Visible) -> Sight<'a>
        ensures around { around result ≡ environment_of environment.now }
        ensures scope { in_scope result ≡ visible.now }
    {
        Sight {
            environment,
            visible,
            mark: visible.mark(),
            bounds: None,
        }
    }

    /// Of an expression under one more quantifier.
    pub(crate) fn under(self, inner: &'a Bounds<'a>) -> Sight<'a>
        ensures around { around result ≡ around self.entry }
        ensures scope { in_scope result ≡ names_under (marked self.entry.visible.now self.entry.mark) inner.now }
    {
        Sight {
            environment: self.environment,
            visible: self.visible,
            mark: self.mark,
            bounds: Some(inner),
        }
    }

    fn declared(self, name: Name) -> Option<Declared>
        ensures { result ≡ scoping.declared_as (in_scope self.entry).names name }
    {
        match self.bounds {
            None => self.visible.declared_before(self.mark.count, name),
            Some(inner) => declared_under(name, self.visible, self.mark, inner),
        }
    }

    /// The variable that a name means.
    pub(crate) fn variable(self, name: Name) -> Option<Declared>
        ensures { result ≡ scoping.variable_named (in_scope self.entry) name }
    {
        match self.declared(name) {
            Some(declared) if !matches!(declared.declaration, Declaration::Block) => Some(declared),
            _ => None,
        }
    }
}
