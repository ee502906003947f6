ghost use Rattle.std.specs.Prelude.{◌≡◌, IfOk};
ghost use Rattle.std.specs.Option.{option_map};
ghost use Rattle.pv_ast.specs.Rules.Lookup as rules;
ghost use Rattle.pv_ast.specs.Rules.Expressions.{type_of_param, is_name};
ghost use Rattle.pv_types.specs.Index.{IsPlaced};

use crate::member_index::MemberIndex;
use indexmap::IndexMap;
use pv_ast::{Class, Method, Predicate, Program, PvType};
use pv_base::{Name, NoMemory};
use std::alloc::Global;
use std::marker::Model;

/// A class with its members by their names.
#[derive(Drop)]
pub struct ClassEntry<'a> {
    class: &'a Class,
    members: MemberIndex<'a>,
}

impl<'a> Model for ClassEntry<'a> {
    ghost use Rattle.pv_ast.specs.declared.Class.{Class};
    ghost use Rattle.pv_ast.specs.contracts.Class as of_class;

    ghost Value = { Class };

    ghost coded = { of_class.the_row.coded };

    ghost use Rattle.pv_types.specs.Index.{IsIndexOf};

    ghost view = { λ e. e.class.now };

    ghost invariant = { λ e. IsIndexOf e.members e.class.now.members };
}

impl<'a> ClassEntry<'a> {
    /// The entry of a class, made in one pass over its members.
    pub fn new(alloc: Global, class: &'a Class) -> Result<ClassEntry<'a>, NoMemory>
        ensures { IfOk result (λ e. e ≡ class.now) }
    {
        let members = MemberIndex::of(alloc, class.members.as_slice())?;
        Ok(ClassEntry { class, members })
    }

    /// The class.
    pub fn class(&self) -> &'a Class
        ensures { result.now ≡ self.now }
    {
        self.class
    }

    /// The type of the first field that has a name.
    pub fn field_type(&self, name: Name) -> Option<PvType>
        ensures { result ≡ type_of_param (rules.field_named self.now.members name) }
    {
        self.members.fields.get(&name.0).copied()
    }

    /// The first predicate that has a name.
    pub fn predicate(&self, name: Name) -> Option<&'a Predicate>
        ensures { option_map (λ p. p.now) result ≡ rules.predicate_named self.now.members name }
    {
        self.members.predicates.get(&name.0).copied()
    }

    /// The first method that has a name.
    pub fn method(&self, name: Name) -> Option<&'a Method>
        ensures { option_map (λ m. m.now) result ≡ rules.method_named self.now.members name }
    {
        self.members.methods.get(&name.0).copied()
    }

    /// Whether the class has a `run`.
    pub fn has_run(&self) -> bool
        ensures { result ≡ rules.has_run self.now }
    {
        self.members.has_run
    }

    /// Whether the class has a lock invariant.
    pub fn has_lock_invariant(&self) -> bool
        ensures { result ≡ rules.has_lock_invariant self.now }
    {
        self.class.lock_invariant.is_some()
    }
}

/// The classes of a program by their names.
#[derive(Drop)]
pub struct ClassTable<'a> {
    program: &'a Program,
    entries: Vec<ClassEntry<'a>>,
    places: IndexMap<u32, usize>,
}

impl<'a> Model for ClassTable<'a> {
    ghost use Rattle.std.specs.Prelude.{◌≡◌};
    ghost use Rattle.pv_ast.specs.declared.Program.{Program};
    ghost use Rattle.pv_ast.specs.contracts.Program as of_program;

    ghost Value = { Program };

    ghost coded = { of_program.the_row.coded };

    ghost use Rattle.pv_types.specs.Index.{IsPlaced};

    ghost view = { λ t. t.program.now };

    ghost invariant = { λ t. (t.entries.items ≡ t.program.now.classes) × IsPlaced t.places.entries t.program.now.classes t.program.now.classes };
}

impl<'a> ClassTable<'a> {
    /// The table of a program, made in one pass over it.
    pub fn new(alloc: Global, program: &'a Program) -> Result<ClassTable<'a>, NoMemory>
        ensures { IfOk result (λ t. t ≡ program.now) }
    {
        let classes = program.classes.as_slice();
        Ok(ClassTable {
            program,
            entries: entries_of(alloc, classes)?,
            places: places_of(alloc, classes)?,
        })
    }

    /// The first class that has a name.
    pub fn class_named(&self, name: Name) -> Option<&ClassEntry<'a>>
        ensures { option_map (λ c. c.now) result ≡ rules.class_named self.now.classes name }
    {
        match self.places.get(&name.0) {
            Some(at) => self.entries.get(*at),
            None => None,
        }
    }

    /// All classes in order.
    pub fn entries(&self) -> &[ClassEntry<'a>]
        ensures { result.now ≡ self.now.classes }
    {
        self.entries.as_slice()
    }

    /// Whether a name is `length`.
    pub fn is_length(&self, name: Name) -> bool
        ensures { result ≡ is_name self.now.length name }
    {
        match self.program.length {
            Some(other) => other.0 == name.0,
            None => false,
        }
    }
}

/// The entries of classes.
fn entries_of<'a>(alloc: Global, classes: &'a [Class]) -> Result<Vec<ClassEntry<'a>>, NoMemory>
    ensures { IfOk result (λ entries. entries.items ≡ classes.now) }
{
    let mut entries = Vec::new(alloc);
    for class in classes {
        entries.push(ClassEntry::new(alloc, class)?)?;
    }
    Ok(entries)
}

/// The place of the first class of each name, found in one pass from the last class to the first.
fn places_of(alloc: Global, classes: &[Class]) -> Result<IndexMap<u32, usize>, NoMemory>
    ensures { IfOk result (λ places. IsPlaced places.entries classes.now classes.now) }
{
    let mut places = IndexMap::new(alloc);
    for at in (0..classes.len()).rev() {
        places.insert(classes[at].name.name.0, at)?;
    }
    Ok(places)
}
