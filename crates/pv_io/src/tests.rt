ghost use Rattle.std.specs.Prelude.{◌≡◌, IfOk};

use super::{
    ByteSink, Bytes, Calls, Failed, FileEntry, FileShelf, Files, LoadFault, MemoryShelf,
    MemorySink, Sink, load, write_whole,
};
use pv_base::NoMemory;
use sqlite_items::Items;
use std::alloc::{AllocError, Global};
use std::test::Fail;
use std::{env, fs, io};

fn shelf(alloc: Global, fails: &[u64]) -> Result<MemoryShelf, AllocError>
    ensures hits { IfOk result (λ shelf. shelf.hits ≡ 0) }
    ensures misses { IfOk result (λ shelf. shelf.misses ≡ 0) }
{
    let mut files = Files::new(alloc);
    for (name, bytes) in [(b"one", b"first"), (b"two", b"other"), (b"one", b"third")] {
        files.push(FileEntry {
            name: Items::from_slice(alloc, name)?,
            bytes: Items::from_slice(alloc, bytes)?,
        })?;
    }
    Ok(MemoryShelf::new(alloc, files, Items::from_slice(alloc, fails)?))
}

fn loaded(alloc: Global, name: &[u8], limit: u32, fails: &[u64]) -> Result<Bytes, LoadFault> {
    load(alloc, &mut shelf(alloc, fails)?, name, limit)
}

fn sink(alloc: Global, fails: &[u64], empties: &[u64]) -> Result<MemorySink, NoMemory> {
    let fails = Items::from_slice(alloc, fails)?;
    let empties = Items::from_slice(alloc, empties)?;
    MemorySink::new(alloc, 5, fails, empties)
}

#[test]
fn loads_from_memory(rt: HostRuntime) -> Result<(), Fail> {
    let alloc = rt.alloc();
    assert_eq!(rt;
        loaded(alloc, b"one", 5, &[])?.as_slice(),
        b"first".as_slice()
    );
    assert_eq!(rt;
        loaded(alloc, b"two", 9, &[4])?.as_slice(),
        b"other".as_slice()
    );
    for (name, limit, fails, fault) in [
        (b"six", 9, 9, LoadFault::NoFile),
        (b"one", 4, 9, LoadFault::TooLarge),
        (b"one", 9, 1, LoadFault::Failed),
        (b"one", 9, 2, LoadFault::Failed),
        (b"one", 9, 3, LoadFault::Failed),
    ] {
        let answer = loaded(alloc, name, limit, &[fails]);
        assert!(rt; answer.is_err_and(|e| e == fault), "{fault:?} of {fails}");
    }
    Ok(())
}

#[test]
fn writes_into_memory(rt: HostRuntime) -> Result<(), Fail> {
    let mut plain = sink(rt.alloc(), &[], &[])?;
    assert_eq!(rt; write_whole(&mut plain, b"abc"), Ok(()));
    assert_eq!(rt; write_whole(&mut plain, b"defg"), Err(Failed));
    assert_eq!(rt; plain.written(), b"abcde".as_slice());
    let mut failing = sink(rt.alloc(), &[2], &[1])?;
    assert_eq!(rt; failing.write(b"abc"), Ok(0));
    assert_eq!(rt; failing.write(b"abc"), Err(Failed));
    assert_eq!(rt; failing.write(b"abc"), Ok(3));
    assert_eq!(rt; failing.written(), b"abc".as_slice());
    Ok(())
}

#[test]
fn loads_from_the_system(rt: HostRuntime) -> Result<(), Fail> {
    let path = env::temp_dir(&rt)?.join(rt.alloc(), "pv_io_test_of_file_shelf")?;
    let name = path.as_str();
    fs::write(&rt, name, "text")?;
    let bytes = load(rt.alloc(), &mut FileShelf::new(&rt), name.as_bytes(), 4);
    let large = load(rt.alloc(), &mut FileShelf::new(&rt), name.as_bytes(), 3);
    fs::remove_file(&rt, name)?;
    assert_eq!(rt; bytes?.as_slice(), b"text".as_slice());
    assert!(rt; large.is_err_and(|e| e == LoadFault::TooLarge));
    let gone = load(rt.alloc(), &mut FileShelf::new(&rt), name.as_bytes(), 4);
    assert!(rt; gone.is_err_and(|e| e == LoadFault::NoFile));
    let folder = load(rt.alloc(), &mut FileShelf::new(&rt), b"/", 4);
    assert!(rt; folder.is_err_and(|e| e == LoadFault::Failed));
    Ok(())
}

#[test]
fn writes_to_a_writer(rt: HostRuntime) {
    let mut shown = ByteSink::new(io::writer(&rt));
    assert_eq!(rt; write_whole(&mut shown, b"written by a sink\n"), Ok(()));
    let mut full = [0; 3];
    let rest: &mut [u8] = &mut full;
    let mut short = ByteSink::new(rest);
    assert_eq!(rt; write_whole(&mut short, b"long"), Err(Failed));
}
