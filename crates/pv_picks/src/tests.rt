use crate::{Part, PvUnit, units};
use pv_ast::{
    Class, Classes, Contract, Expr, ExprKind, Member, Method, Param, Predicate, Program, PvType,
    RunMethod, TypeWord, Word,
};
use pv_base::{Name, NoMemory, Span};
use sqlite_items::Items;
use std::alloc::Global;
use std::test::Fail;

const HERE: Span = Span { from: 0, to: 0 };

fn word(number: u32) -> Word {
    Word {
        name: Name(number),
        span: HERE,
    }
}

fn truth() -> Expr {
    Expr {
        span: HERE,
        kind: ExprKind::Truth(true),
    }
}

fn contract(alloc: Global) -> Contract {
    Contract {
        clauses: Items::new(alloc),
    }
}

fn field(number: u32) -> Member {
    let kind = TypeWord {
        kind: PvType::Int,
        span: HERE,
    };
    Member::Field(Param {
        name: word(number),
        kind,
    })
}

fn predicate(alloc: Global, number: u32) -> Member {
    Member::Predicate(Predicate {
        span: HERE,
        name: word(number),
        params: Items::new(alloc),
        body: truth(),
    })
}

fn method(alloc: Global, number: u32) -> Member {
    Member::Method(Method {
        span: HERE,
        name: word(number),
        result: None,
        params: Items::new(alloc),
        contract: contract(alloc),
        body: Items::new(alloc),
    })
}

fn run(alloc: Global) -> Member {
    Member::Run(RunMethod {
        span: HERE,
        word: HERE,
        contract: contract(alloc),
        body: Items::new(alloc),
    })
}

fn class(
    alloc: Global,
    lock_invariant: Option<Expr>,
    first: Member,
    second: Member,
) -> Result<Class, NoMemory> {
    let mut members = Items::new(alloc);
    members.push(first)?;
    members.push(second)?;
    Ok(Class {
        span: HERE,
        name: word(0),
        lock_invariant,
        members,
    })
}

/// Two classes, of which the second has a lock invariant, with each kind of member.
fn two_classes(alloc: Global) -> Result<Classes, NoMemory> {
    let mut classes = Items::new(alloc);
    classes.push(class(alloc, None, field(2), method(alloc, 3))?)?;
    classes.push(class(alloc, Some(truth()), run(alloc), predicate(alloc, 5))?)?;
    Ok(classes)
}

fn member(class: u32, place: u32) -> PvUnit {
    PvUnit {
        class,
        part: Part::Member(place),
    }
}

#[test]
fn each_part_but_fields_is_a_unit(rt: HostRuntime) -> Result<(), Fail> {
    let program = Program {
        classes: two_classes(rt.alloc()).expect(&rt, "memory"),
        length: None,
    };
    let found = units(rt.alloc(), &program).expect(&rt, "memory");
    let invariant = PvUnit {
        class: 1,
        part: Part::LockInvariant,
    };
    assert_eq!(rt; found.len(), 4);
    assert_eq!(rt; found.get(0), Some(&member(0, 1)));
    assert_eq!(rt; found.get(1), Some(&invariant));
    assert_eq!(rt; found.get(2), Some(&member(1, 0)));
    assert_eq!(rt; found.get(3), Some(&member(1, 1)));
    Ok(())
}
