ghost use Rattle.std.specs.Prelude.{◌≡◌, ◌&&◌, not, is_some, None};
ghost use Rattle.std.specs.Option.{option_map};
ghost use Rattle.pv_ast.specs.Rules.Scoping.{nothing_visible};
ghost use Rattle.pv_ast.specs.Rules.Expressions as parts;
ghost use Rattle.pv_ast.specs.Rules.Lookup as lookup;
ghost use Rattle.pv_types.specs.Environments.{environment_of, members_in, signature_of};

use crate::types::{meets, typing_or};
use crate::{ClassEntry, ClassTable};
use pv_ast::{Method, Need, Param, PvType, Seen, Token, Typing};
use pv_base::Name;

/// What stands around an expression: the classes of the program, the class of `this` (under its name, and where that is
/// declared), and the type of `\result`.
#[derive(Clone, Copy, Drop)]
pub struct Environment<'a> {
    pub table: &'a ClassTable<'a>,
    pub class: Name,
    pub here: Option<&'a ClassEntry<'a>>,
    pub result: Option<PvType>,
}

/// Where a member is looked up: nowhere, since the part has no class type; in a class that isn't declared; or in a class.
#[derive(Clone, Copy, Drop)]
pub enum Holder<'a> {
    Nowhere,
    Missing,
    Found(&'a ClassEntry<'a>),
}

/// What is known of the parameters of a method or predicate: nothing where it isn't looked up or where it isn't declared, or
/// the parameters.
#[derive(Clone, Copy, Drop)]
pub enum Signature<'a> {
    Unsought,
    Unknown,
    Known(&'a [Param]),
}

impl<'a> Environment<'a> {
    /// The same in a method with such a result.
    pub fn with_result(&self, kind: Option<PvType>) -> Environment<'a>
        ensures { environment_of result ≡ record (environment_of self.now) { result = kind } }
    {
        Environment {
            table: self.table,
            class: self.class,
            here: self.here,
            result: kind,
        }
    }

    /// The class of an object: `this` has the class that stands there, another object the first class of its type's name.
    pub fn class_of(&self, this: bool, name: Name) -> Option<&'a ClassEntry<'a>>
        ensures { option_map (λ c. c.now) result ≡ parts.class_of (environment_of self.now) this name }
    {
        if this {
            self.here
        } else {
            self.table.class_named(name)
        }
    }

    /// `this`.
    pub fn this(&self) -> Seen
        ensures { result ≡ parts.seen_of_target (environment_of self.now) nothing_visible None }
    {
        Seen {
            typing: Typing::Typed(PvType::Object(self.class)),
            this: true,
            location: false,
            local: false,
        }
    }

    /// Whether a class is declared.
    pub fn is_class(&self, name: Name) -> bool
        ensures { result ≡ is_some (lookup.class_named (environment_of self.now).program.classes name) }
    {
        self.table.class_named(name).is_some()
    }

    /// Whether a declaration may have a type: one of a class needs the class, and `null` has none that is written.
    pub fn is_type(&self, kind: PvType) -> bool
        ensures { result ≡ lookup.is_declared_type (environment_of self.now).program.classes kind }
    {
        match kind {
            PvType::Object(name) => self.is_class(name),
            PvType::Null => false,
            _ => true,
        }
    }

    /// Where the members of a part are looked up.
    pub fn holder(&self, seen: Seen) -> Holder<'a>
        ensures { members_in result ≡ parts.holder_of (environment_of self.now) seen }
    {
        match seen.typing {
            Typing::Typed(kind) => match kind {
                PvType::Object(name) => match self.class_of(seen.this, name) {
                    None => Holder::Missing,
                    Some(class) => Holder::Found(class),
                },
                _ => Holder::Nowhere,
            },
            _ => Holder::Nowhere,
        }
    }

    /// Whether a name is `length`.
    pub fn is_length(&self, name: Name) -> bool
        ensures { result ≡ parts.is_length (environment_of self.now) name }
    {
        self.table.is_length(name)
    }

    /// The type of a field of `this`.
    pub fn own_field(&self, name: Name) -> Option<PvType>
        ensures { result ≡ parts.type_of_field (environment_of self.now).here name }
    {
        match self.here {
            None => None,
            Some(class) => class.field_type(name),
        }
    }

    /// Whether the name stands for the length of an array behind such a part.
    pub fn is_array_length(&self, name: Name, target: Typing) -> bool
        ensures { result ≡ parts.is_array_length (environment_of self.now) name target }
    {
        meets(Need::AnArray, target) && self.is_length(name)
    }

    /// What is needed before the name of a member.
    pub fn need_of_target(&self, name: Name) -> Need
        ensures { result ≡ parts.need_of_target (environment_of self.now) name }
    {
        if self.is_length(name) {
            Need::AnObjectOrArray
        } else {
            Need::AnObject
        }
    }

    /// The class that a part has, where it is declared.
    fn declared_class(&self, seen: Seen) -> Option<&'a ClassEntry<'a>>
        ensures { option_map (λ c. c.now) result ≡ parts.class_of_typing (environment_of self.now) seen.this seen.typing }
    {
        match seen.typing {
            Typing::Typed(kind) => match kind {
                PvType::Object(name) => self.class_of(seen.this, name),
                _ => None,
            },
            _ => None,
        }
    }

    /// Whether the part's class is declared and has no `run`.
    pub fn lacks_run(&self, seen: Seen) -> bool
        ensures { result ≡ parts.lacks_role lookup.has_run (environment_of self.now) seen }
    {
        match self.declared_class(seen) {
            None => false,
            Some(class) => !class.has_run(),
        }
    }

    /// Whether the part's class is declared and has no lock invariant.
    pub fn lacks_lock_invariant(&self, seen: Seen) -> bool
        ensures { result ≡ parts.lacks_role lookup.has_lock_invariant (environment_of self.now) seen }
    {
        match self.declared_class(seen) {
            None => false,
            Some(class) => !class.has_lock_invariant(),
        }
    }

    /// Whether the part's class is declared and has not what a token speaks of.
    pub fn lacks_role(&self, token: Token, seen: Seen) -> bool
        ensures { result ≡ parts.lacks_role (parts.has_role token) (environment_of self.now) seen }
    {
        match token {
            Token::Idle | Token::Running => self.lacks_run(seen),
            Token::Committed | Token::Uncommitted => self.lacks_lock_invariant(seen),
        }
    }
}

impl<'a> Holder<'a> {
    /// The type of a field.
    pub fn field_typing(self, name: Name) -> Typing
        ensures { result ≡ parts.typing_of_field_in (members_in self.entry) name }
    {
        match self {
            Holder::Found(class) => typing_or(Typing::Unsettled, class.field_type(name)),
            _ => Typing::Unsettled,
        }
    }

    /// Whether the class has no such field.
    pub fn lacks_field(self, name: Name) -> bool
        ensures { result ≡ parts.lacks_field (members_in self.entry) name }
    {
        match self {
            Holder::Nowhere => false,
            Holder::Missing => true,
            Holder::Found(class) => class.field_type(name).is_none(),
        }
    }

    /// What is known of the parameters of a predicate.
    pub fn predicate(self, name: Name) -> Signature<'a>
        ensures { signature_of result ≡ parts.predicate_signature (members_in self.entry) name }
    {
        match self {
            Holder::Nowhere => Signature::Unsought,
            Holder::Missing => Signature::Unknown,
            Holder::Found(class) => match class.predicate(name) {
                None => Signature::Unknown,
                Some(predicate) => Signature::Known(predicate.params.as_slice()),
            },
        }
    }

    /// What is known of the parameters of a method.
    pub fn method_signature(self, name: Name) -> Signature<'a>
        ensures { signature_of result ≡ parts.method_signature (members_in self.entry) name }
    {
        match self {
            Holder::Nowhere => Signature::Unsought,
            Holder::Missing => Signature::Unknown,
            Holder::Found(class) => match class.method(name) {
                None => Signature::Unknown,
                Some(method) => Signature::Known(method.params.as_slice()),
            },
        }
    }

    pub fn method(self, name: Name) -> Option<&'a Method>
        ensures { option_map (λ m. m.now) result ≡ parts.method_in (members_in self.entry) name }
    {
        match self {
            Holder::Found(class) => class.method(name),
            _ => None,
        }
    }
}
