use crate::{Fraction, Rest, UNIT};
use std::process::Abort;
use std::test::Fail;

/// The units of a part that is an amount.
fn part(rt: &impl Abort, a: u32, b: u32) -> Fraction {
    Fraction::of(a, b).expect(rt, "an amount")
}

#[test]
fn sums_and_rests(rt: HostRuntime) -> Result<(), Fail> {
    let third = part(&rt, 1, 3);
    let sixth = part(&rt, 1, 6);
    let half = part(&rt, 1, 2);
    assert_eq!(rt; third.add(sixth), Some(half));
    assert_eq!(rt; half.take(third), Rest::Left(sixth));
    assert_eq!(rt; half.take(part(&rt, 2, 4)), Rest::Nothing);
    assert_eq!(rt; third.take(half), Rest::Short);
    assert_eq!(rt; half.add(half), Some(part(&rt, 40, 40)));
    assert_eq!(rt; half.add(half.add(sixth).expect(&rt, "two thirds")), None);
    Ok(())
}

#[test]
fn units_of_parts(rt: HostRuntime) -> Result<(), Fail> {
    assert_eq!(rt; UNIT, 5_342_931_457_063_200);
    assert_eq!(rt; part(&rt, 1, 1).units(), UNIT);
    assert_eq!(rt; part(&rt, 1, 40).units(), 133_573_286_426_580);
    assert_eq!(rt; part(&rt, 37, 37).units(), UNIT);
    assert_eq!(rt; Fraction::of(0, 1), None);
    assert_eq!(rt; Fraction::of(3, 2), None);
    assert_eq!(rt; Fraction::of(1, 41), None);
    Ok(())
}
