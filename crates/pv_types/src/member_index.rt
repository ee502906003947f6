ghost use Rattle.std.specs.Prelude.{◌≡◌, List, [], ◌∷◌, IfOk, OnOk};
ghost use Rattle.pv_ast.specs.declared.Member.{Member};
ghost use Rattle.pv_types.specs.Index.{IsIndexOf};

use indexmap::IndexMap;
use pv_ast::{Member, Method, Predicate, PvType};
use pv_base::NoMemory;
use std::alloc::Global;

/// The first field, predicate and method of each name, and whether there is a `run`.
#[derive(Drop)]
pub(crate) struct MemberIndex<'a> {
    pub fields: IndexMap<u32, PvType>,
    pub predicates: IndexMap<u32, &'a Predicate>,
    pub methods: IndexMap<u32, &'a Method>,
    pub has_run: bool,
}

impl<'a> MemberIndex<'a> {
    /// Of no members.
    fn new(alloc: Global) -> MemberIndex<'a>
        ensures { IsIndexOf result [] }
    {
        MemberIndex {
            fields: IndexMap::new(alloc),
            predicates: IndexMap::new(alloc),
            methods: IndexMap::new(alloc),
            has_run: false,
        }
    }

    /// Puts a member before those that are there, so that it hides those of its kind and name.
    fn put_first(&mut self, member: &'a Member) -> Result<(), NoMemory>
        ensures { OnOk result ((members : List Member) → IsIndexOf self.old members → IsIndexOf self.new (member.now ∷ members)) }
    {
        match member {
            Member::Field(field) => {
                self.fields.insert(field.name.name.0, field.kind.kind)?;
                Ok(())
            }
            Member::Predicate(predicate) => {
                self.predicates.insert(predicate.name.name.0, predicate)?;
                Ok(())
            }
            Member::Method(method) => {
                self.methods.insert(method.name.name.0, method)?;
                Ok(())
            }
            Member::Run(_) => {
                self.has_run = true;
                Ok(())
            }
        }
    }

    /// Of members, made in one pass from the last one to the first.
    pub(crate) fn of(alloc: Global, members: &'a [Member]) -> Result<MemberIndex<'a>, NoMemory>
        ensures { IfOk result (λ index. IsIndexOf index members.now) }
    {
        let mut index = MemberIndex::new(alloc);
        for at in (0..members.len()).rev() {
            index.put_first(&members[at])?;
        }
        Ok(index)
    }
}
