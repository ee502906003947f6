//! Each call once.

use crate::{Literal, Shape, Symbol, Term, Terms, at_most, holds};
use sqlite_items::Items;
use std::test::Fail;

#[test]
fn comparisons_come_to_shapes(rt: HostRuntime) -> Result<(), Fail> {
    let symbol = Symbol(1);
    let term = Term { symbol, plus: 2 };
    let literal = Literal::AtMost(symbol, Symbol::ZERO, 5);
    assert_eq!(rt;
        at_most(term, Term::constant(7)),
        Shape::Difference(literal)
    );
    assert_eq!(rt;
        at_most(Term::constant(7), Term::constant(6)),
        Shape::Ground(false)
    );
    assert_eq!(rt;
        literal.opposite(),
        Literal::AtMost(Symbol::ZERO, symbol, -6)
    );
    Ok(())
}

#[test]
fn literals_hold_of_numbers(rt: HostRuntime) -> Result<(), Fail> {
    let values = Items::from_slice(rt.alloc(), &[0, 5])?;
    assert!(rt; holds(&Literal::AtMost(Symbol(1), Symbol(0), 5), &values));
    assert!(rt; !holds(&Literal::AtMost(Symbol(1), Symbol(0), 4), &values));
    assert!(rt; holds(&Literal::Same(Symbol(0), Symbol(9)), &values));
    assert!(rt; holds(&Literal::Differ(Symbol(1), Symbol(9)), &values));
    Ok(())
}

#[test]
fn terms_stand_in_order(rt: HostRuntime) -> Result<(), Fail> {
    let mut terms = Terms::new(rt.alloc());
    for plus in 0..6u8 {
        terms.push(Term::constant(i128::from(plus)))?;
    }
    assert_eq!(rt; terms.len(), 6);
    assert_eq!(rt; terms.get(5).copied(), Some(Term::constant(5)));
    assert_eq!(rt; terms.get(6).copied(), None);
    Ok(())
}
