//! Walks over small trees of decisions, the greatest path, and each question once.

ghost use Rattle.std.specs.Prelude.{◌≡◌, ◌<◌, ◌≤◌, ◌∷◌, [], OnOk, true};
ghost use Rattle.pv_linear.specs.Decisions.{literals_in};
ghost use Rattle.pv_diff.specs.Parts.{AllAtMost};
ghost use Rattle.pv_path.specs.Paths.{path_of, decisions};

use crate::{Next, Path};
use pv_linear::{
    AskFault, Asker, Literal, Sort, Symbol, Term, ask_at_most, ask_equal, ask_order, ask_same,
    ask_truth, make_symbol, question, take_turn,
};
use std::cmp::Ordering;
use std::test::Fail;

/// Which side of three questions and a turn a path takes, as a number below 24.
#[tactic(auto, using(crate::proofs::TestLemmas::differences_may_ask, crate::proofs::TestLemmas::differences_more, crate::proofs::TestLemmas::differences_decided, crate::proofs::TestLemmas::differences_turned))]
fn leaf(path: &mut Path) -> Result<usize, AskFault>
    requires path { AllAtMost (path_of path.old) }
    requires decisions { AllAtMost (literals_in (decisions path.old)) }
    ensures decisions { OnOk result (AllAtMost (literals_in (decisions path.new))) }
{
    let first = path.ask(Literal::AtMost(Symbol(1), Symbol(0), 0))?;
    let second = path.ask(Literal::AtMost(Symbol(2), Symbol(1), 0))?;
    let third = path.ask(Literal::AtMost(Symbol(3), Symbol(2), 0))?;
    let turn = path.turn()?;
    let sides = 4 * usize::from(first) + 2 * usize::from(second) + usize::from(third);
    Ok(3 * sides + turn as usize)
}

/// Goes to the next path.
fn go_on(path: &mut Path) -> bool
    requires decisions { AllAtMost (literals_in (decisions path.old)) }
    ensures path { result ≡ true → AllAtMost (path_of path.new) }
    ensures decisions { result ≡ true → AllAtMost (literals_in (decisions path.new)) }
{
    match path.next_path() {
        Next::More => true,
        Next::Done | Next::Splits => false,
    }
}

#[test]
fn each_leaf_once(rt: HostRuntime) -> Result<(), Fail> {
    let mut path = Path::new(rt.alloc());
    let mut seen = [false; 24];
    for _walk in 0..30 {
        let at = leaf(&mut path)?;
        assert!(rt; at < 24);
        assert!(rt; !seen[at]);
        seen[at] = true;
        if !go_on(&mut path) {
            break;
        }
    }
    assert!(rt; seen.iter().all(|one| *one));
    assert_eq!(rt; path.next_path(), Next::Done);
    Ok(())
}

/// Asks about two new symbols.
#[tactic(auto, using(crate::proofs::TestLemmas::differences_may_ask, crate::proofs::TestLemmas::differences_more))]
fn ask_next(path: &mut Path, k: u32) -> Result<bool, AskFault>
    requires path { AllAtMost (path_of path.old) }
    requires few { k < 65538 }
    requires some { 0 < k }
    ensures path { AllAtMost (path_of path.new) }
{
    match path.ask(Literal::AtMost(Symbol(2 * k), Symbol(2 * k - 1), 0)) {
        Ok(told) => Ok(told),
        Err(fault) => Err(fault),
    }
}

#[test]
fn full_at_the_last(rt: HostRuntime) -> Result<(), Fail> {
    let mut path = Path::new(rt.alloc());
    for k in 1..65537u32 {
        assert_eq!(rt; ask_next(&mut path, k), Ok(true));
    }
    assert_eq!(rt; ask_next(&mut path, 65537), Err(AskFault::Full));
    assert_eq!(rt; path.literals().len(), 65536);
    Ok(())
}

/// Takes eleven turns, and goes to the next path.
fn turn_eleven_times(path: &mut Path) -> Result<Next, AskFault> {
    for _ in 0..11 {
        let _turn = path.turn()?;
    }
    Ok(path.next_path())
}

#[test]
fn paths_split(rt: HostRuntime) -> Result<(), Fail> {
    let mut path = Path::new(rt.alloc());
    for _ in 0..65535 {
        assert_eq!(rt; turn_eleven_times(&mut path)?, Next::More);
    }
    assert_eq!(rt; turn_eleven_times(&mut path)?, Next::Splits);
    assert_eq!(rt; path.next_path(), Next::Splits);
    Ok(())
}

#[test]
#[tactic(auto, using(crate::proofs::TestLemmas::first_may_ask, crate::proofs::TestLemmas::first_may_be_same))]
fn questions_once(rt: HostRuntime) -> Result<(), Fail> {
    let literal = Literal::AtMost(Symbol(1), Symbol(0), 3);
    assert!(rt; question(literal, &mut Path::new(rt.alloc()))?);
    let term = Term {
        symbol: Symbol(1),
        plus: 2,
    };
    assert!(rt; ask_at_most(term, Term::constant(7), &mut Path::new(rt.alloc()))?);
    assert!(rt; ask_same(Symbol(1), Symbol(2), &mut Path::new(rt.alloc()))?);
    assert!(rt; ask_truth(Symbol(1), &mut Path::new(rt.alloc()))?);
    assert!(rt; !ask_truth(Symbol::ZERO, &mut Path::new(rt.alloc()))?);
    let seven = Term::constant(7);
    assert_eq!(rt;
        ask_order(term, seven, &mut Path::new(rt.alloc()))?,
        Ordering::Equal
    );
    assert_eq!(rt;
        ask_order(Term::constant(6), seven, &mut Path::new(rt.alloc()))?,
        Ordering::Less
    );
    assert!(rt; !ask_equal(Term::constant(8), seven, &mut Path::new(rt.alloc()))?);
    let mut path = Path::new(rt.alloc());
    assert_eq!(rt; take_turn(&mut path)?, 0);
    assert_eq!(rt; make_symbol(Sort::Number, &mut path)?, Symbol(1));
    assert_eq!(rt; make_symbol(Sort::Reference, &mut path)?, Symbol(2));
    assert_eq!(rt; path.next_path(), Next::More);
    assert_eq!(rt; take_turn(&mut path)?, 1);
    assert_eq!(rt; path.decided_turns(rt.alloc())?.as_slice(), [1].as_slice());
    assert_eq!(rt; make_symbol(Sort::Truth, &mut path)?, Symbol(1));
    Ok(())
}

/// Asks what follows from two differences, first with the solver and then without.
#[tactic(auto, using(crate::proofs::TestLemmas::differences_may_ask, crate::proofs::TestLemmas::differences_more, crate::proofs::TestLemmas::differences_decided))]
fn follows(path: &mut Path) -> Result<[bool; 4], AskFault>
    requires path { AllAtMost (path_of path.old) }
    requires decisions { AllAtMost (literals_in (decisions path.old)) }
    ensures decisions { OnOk result (AllAtMost (literals_in (decisions path.new))) }
{
    let below = path.ask(Literal::AtMost(Symbol(1), Symbol(2), -1))?;
    let next = path.ask(Literal::AtMost(Symbol(2), Symbol(3), 0))?;
    let far = path.ask(Literal::AtMost(Symbol(1), Symbol(3), 0))?;
    let again = path.ask(Literal::AtMost(Symbol(1), Symbol(3), 0))?;
    Ok([below, next, far, again])
}

#[test]
fn chains_follow(rt: HostRuntime) -> Result<(), Fail> {
    let mut path = Path::new(rt.alloc());
    assert_eq!(rt; follows(&mut path)?, [true, true, true, true]);
    assert_eq!(rt; path.literals().len(), 2);
    assert!(rt; go_on(&mut path));
    assert_eq!(rt; follows(&mut path)?, [true, false, true, true]);
    assert_eq!(rt; path.literals().len(), 3);
    assert!(rt; go_on(&mut path));
    assert_eq!(rt; follows(&mut path)?, [true, false, false, false]);
    assert!(rt; go_on(&mut path));
    assert_eq!(rt; follows(&mut path)?, [false, true, true, true]);
    Ok(())
}
