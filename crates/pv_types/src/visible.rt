ghost use Rattle.std.specs.Prelude.{◌≡◌, length, take, drop, OnOk, OnErr};
ghost use Rattle.pv_ast.specs.Rules.Scoping as scoping;
ghost use Rattle.pv_types.specs.Growth.{Extends};

use indexmap::IndexMap;
use pv_ast::{Declaration, Declared};
use pv_base::{Name, NoMemory};
use std::alloc::Global;
use std::marker::Model;

/// The names in scope, in the order of their declarations. A name is looked up in the same time however many there are.
#[derive(Drop)]
pub struct Visible {
    names: IndexMap<u32, Declared>,
    outside: usize,
}

impl Model for Visible {
    ghost use Rattle.pv_ast.specs.Rules.Scoping as scoping;

    ghost Value = { scoping.Visible };

    ghost view = { λ v. record { names = v.names.entries; outside = v.outside } };
}

/// How many names there were, and how many of them stood outside.
#[derive(Clone, Copy, Debug, PartialEq, Eq, Drop)]
pub struct Mark {
    pub count: usize,
    pub outside: usize,
}

impl Visible {
    /// No names.
    pub fn new(alloc: Global) -> Visible
        ensures { result ≡ scoping.nothing_visible }
    {
        Visible {
            names: IndexMap::new(alloc),
            outside: 0,
        }
    }

    /// What a name stands for.
    fn declared(&self, name: Name) -> Option<Declared>
        ensures { result ≡ scoping.declared_as self.now.names name }
    {
        self.names.get(&name.0).copied()
    }

    /// What a name stands for among those that were declared since the innermost par block or counted loop was entered.
    fn declared_inside(&self, name: Name) -> Option<Declared>
        ensures { result ≡ scoping.declared_as (drop self.now.outside self.now.names) name }
    {
        match self.names.get_index_of(&name.0) {
            Some(at) if self.outside <= at => self.declared(name),
            Some(_) => None,
            None => None,
        }
    }

    /// What a name stands for among so many names, those that were declared first.
    pub fn declared_before(&self, count: usize, name: Name) -> Option<Declared>
        ensures { result ≡ scoping.declared_as (take count self.now.names) name }
    {
        match self.names.get_index_of(&name.0) {
            Some(at) if at < count => self.declared(name),
            Some(_) => None,
            None => None,
        }
    }

    /// Whether a name is in scope.
    pub fn is_visible(&self, name: Name) -> bool
        ensures { result ≡ scoping.is_visible self.now name }
    {
        self.declared(name).is_some()
    }

    /// The variable that a name means.
    pub fn variable(&self, name: Name) -> Option<Declared>
        ensures { result ≡ scoping.variable_named self.now name }
    {
        match self.declared(name) {
            Some(declared) if !is_block(declared.declaration) => Some(declared),
            _ => None,
        }
    }

    /// Whether a name means a local of the body of the innermost par block or counted loop, or of the method where there is
    /// none.
    pub fn is_inner_local(&self, name: Name) -> bool
        ensures { result ≡ scoping.is_inner_local self.now name }
    {
        match self.declared_inside(name) {
            Some(declared) => is_local(declared.declaration),
            None => false,
        }
    }

    /// Whether a name means a par block around.
    pub fn is_block_around(&self, name: Name) -> bool
        ensures { result ≡ scoping.is_block_around self.now name }
    {
        match self.declared(name) {
            Some(declared) => is_block(declared.declaration),
            None => false,
        }
    }

    /// Whether a name means the innermost par block around.
    pub fn is_innermost_block(&self, name: Name) -> bool
        ensures { result ≡ scoping.is_innermost_block self.now name }
    {
        match self.declared_inside(name) {
            Some(declared) => is_block(declared.declaration),
            None => false,
        }
    }

    /// Brings a name into scope behind the others. A name that is in scope keeps its meaning. Without memory for it the names
    /// stay as they are.
    pub fn declare(&mut self, name: Name, declared: Declared) -> Result<(), NoMemory>
        ensures declared { OnOk result (self.new ≡ scoping.declare self.old name declared) }
        ensures extends { OnOk result (Extends self.old self.new) }
        ensures err { OnErr result (self.new ≡ self.old) }
    {
        if !self.is_visible(name) {
            self.names.insert(name.0, declared)?;
        }
        Ok(())
    }

    /// All names stand outside from now on.
    pub fn enter(&mut self)
        ensures { self.new ≡ scoping.entered self.old }
    {
        self.outside = self.names.len();
    }

    /// What `leave` needs to come back here.
    pub fn mark(&self) -> Mark
        ensures count { result.count ≡ length self.now.names }
        ensures outside { result.outside ≡ self.now.outside }
    {
        Mark {
            count: self.names.len(),
            outside: self.outside,
        }
    }

    /// Takes the names out that came since a mark.
    pub fn leave(&mut self, mark: Mark)
        ensures names { self.new.names ≡ take mark.count self.old.names }
        ensures outside { self.new.outside ≡ mark.outside }
    {
        self.names.truncate(mark.count);
        self.outside = mark.outside;
    }
}

/// Whether a name was declared as a block's.
fn is_block(declaration: Declaration) -> bool
    ensures { result ≡ scoping.is_block declaration }
{
    matches!(declaration, Declaration::Block)
}

/// Whether a name was declared as a local.
fn is_local(declaration: Declaration) -> bool
    ensures { result ≡ scoping.is_local declaration }
{
    matches!(declaration, Declaration::Local)
}
