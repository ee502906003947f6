use crate::{Heap, Location, Value};
use pv_base::{Name, NoMemory};
use std::alloc::Global;
use std::test::Fail;

const CELL: Name = Name(3);

const ITEM: Name = Name(5);

const NEXT: Name = Name(8);

/// An object with three fields, of which two have one name, and an array of three numbers.
fn two(alloc: Global) -> Result<(Heap, u128, u128), NoMemory> {
    let mut heap = Heap::new(alloc);
    let fields = [
        (ITEM, Value::Number(-4)),
        (NEXT, Value::Reference(2)),
        (ITEM, Value::Truth(true)),
    ];
    let object = heap.make_object(CELL, &fields)?;
    let array = heap.make_array(Value::Number(7), 3)?;
    Ok((heap, object, array))
}

#[test]
fn what_is_there(rt: HostRuntime) -> Result<(), Fail> {
    let (heap, object, array) = two(rt.alloc()).expect(&rt, "memory");
    assert_eq!(rt; object, 1);
    assert_eq!(rt; array, 2);
    assert_eq!(rt; heap.count(), 2);
    assert_eq!(rt; heap.class(1), Some(CELL));
    assert_eq!(rt; heap.class(0), None);
    assert_eq!(rt; heap.class(2), None);
    assert_eq!(rt; heap.class(3), None);
    assert_eq!(rt; heap.length(2), Some(3));
    assert_eq!(rt; heap.length(1), None);
    assert_eq!(rt; heap.length(0), None);
    assert_eq!(rt;
        heap.read(&Location::Field(1, ITEM)),
        Some(Value::Number(-4))
    );
    assert_eq!(rt;
        heap.read(&Location::Field(1, NEXT)),
        Some(Value::Reference(2))
    );
    assert_eq!(rt; heap.read(&Location::Field(1, CELL)), None);
    assert_eq!(rt; heap.read(&Location::Field(2, ITEM)), None);
    assert_eq!(rt; heap.read(&Location::Cell(2, 0)), Some(Value::Number(7)));
    assert_eq!(rt; heap.read(&Location::Cell(2, 2)), Some(Value::Number(7)));
    assert_eq!(rt; heap.read(&Location::Cell(2, 3)), None);
    assert_eq!(rt; heap.read(&Location::Cell(2, -1)), None);
    assert_eq!(rt; heap.read(&Location::Cell(1, 0)), None);
    Ok(())
}

#[test]
fn writes_and_copies(rt: HostRuntime) -> Result<(), Fail> {
    let (mut heap, _, _) = two(rt.alloc()).expect(&rt, "memory");
    let before = heap.copy(rt.alloc()).expect(&rt, "memory");
    assert!(rt; heap.same(&before));
    let cell = Location::Cell(2, 1);
    assert!(rt; heap.read(&cell).is_some());
    heap.write(&cell, Value::Number(9));
    assert_eq!(rt; heap.read(&cell), Some(Value::Number(9)));
    assert_eq!(rt; heap.read(&Location::Cell(2, 0)), Some(Value::Number(7)));
    assert_eq!(rt; before.read(&cell), Some(Value::Number(7)));
    assert!(rt; !heap.same(&before));
    Ok(())
}

#[test]
fn many_elements(rt: HostRuntime) -> Result<(), Fail> {
    let mut heap = Heap::new(rt.alloc());
    let made = heap.make_array(Value::Number(0), 1_048_576);
    assert_eq!(rt; made.expect(&rt, "memory"), 1);
    assert_eq!(rt; heap.length(1), Some(1_048_576));
    let last = Location::Cell(1, 1_048_575);
    assert!(rt; heap.read(&last).is_some());
    heap.write(&last, Value::Number(-1));
    assert_eq!(rt; heap.read(&last), Some(Value::Number(-1)));
    assert_eq!(rt;
        heap.read(&Location::Cell(1, 1_048_574)),
        Some(Value::Number(0))
    );
    assert_eq!(rt; heap.read(&Location::Cell(1, 1_048_576)), None);
    Ok(())
}

#[test]
fn writes_through_aliases(rt: HostRuntime) -> Result<(), Fail> {
    let (mut heap, object, array) = two(rt.alloc()).expect(&rt, "memory");
    assert_eq!(rt;
        heap.read(&Location::Field(object, NEXT)),
        Some(Value::Reference(array))
    );
    let one = Location::Cell(array, 0);
    let other = Location::Cell(2, 0);
    assert!(rt; heap.read(&one).is_some());
    heap.write(&one, Value::Number(11));
    assert_eq!(rt; heap.read(&other), Some(Value::Number(11)));
    let field = Location::Field(object, ITEM);
    assert!(rt; heap.read(&field).is_some());
    heap.write(&field, Value::Truth(false));
    assert_eq!(rt;
        heap.read(&Location::Field(1, ITEM)),
        Some(Value::Truth(false))
    );
    assert_eq!(rt; heap.read(&other), Some(Value::Number(11)));
    Ok(())
}
