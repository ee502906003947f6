//! Look-ups that take no memory and go over the lists.
ghost use Rattle.std.specs.Prelude.{◌≡◌};
ghost use Rattle.std.specs.Option.{option_map};
ghost use Rattle.pv_ast.specs.Rules.Lookup as rules;
ghost use Rattle.pv_ast.specs.Rules.Expressions.{type_of_param};

use pv_ast::{Class, Member, Method, Predicate, PvType};
use pv_base::Name;

/// The first class that has a name.
pub fn class_named(classes: &[Class], name: Name) -> Option<&Class>
    ensures { option_map (λ c. c.now) result ≡ rules.class_named classes.now name }
{
    for class in classes {
        if name.0 == class.name.name.0 {
            return Some(class);
        }
    }
    None
}

/// The type of the first field that has a name.
pub fn field_type_named(members: &[Member], name: Name) -> Option<PvType>
    ensures { result ≡ type_of_param (rules.field_named members.now name) }
{
    for member in members {
        if let Member::Field(field) = member
            && name.0 == field.name.name.0
        {
            return Some(field.kind.kind);
        }
    }
    None
}

/// The first predicate that has a name.
pub fn predicate_named(members: &[Member], name: Name) -> Option<&Predicate>
    ensures { option_map (λ p. p.now) result ≡ rules.predicate_named members.now name }
{
    for member in members {
        if let Member::Predicate(predicate) = member
            && name.0 == predicate.name.name.0
        {
            return Some(predicate);
        }
    }
    None
}

/// The first method that has a name.
pub fn method_named(members: &[Member], name: Name) -> Option<&Method>
    ensures { option_map (λ m. m.now) result ≡ rules.method_named members.now name }
{
    for member in members {
        if let Member::Method(method) = member
            && name.0 == method.name.name.0
        {
            return Some(method);
        }
    }
    None
}

/// Whether a class has a `run`.
pub fn has_run(class: &Class) -> bool
    ensures { result ≡ rules.has_run class.now }
{
    for member in class.members.as_slice() {
        if let Member::Run(_) = member {
            return true;
        }
    }
    false
}

/// Whether a class has a lock invariant.
pub fn has_lock_invariant(class: &Class) -> bool
    ensures { result ≡ rules.has_lock_invariant class.now }
{
    class.lock_invariant.is_some()
}
