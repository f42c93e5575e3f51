// That each call succeeds where memory is ample, and what the files and the sink in memory answer
// at their edges.
use crate::{FileFault, Files, Held, Items, MemFiles, MemSink, Sink, SinkFault, Str};
use std::alloc::Global;
use std::test::Fail;

fn entries(alloc: Global) -> Result<Held, FileFault> {
    let mut held = Items::new(alloc);
    for (name, text) in [("a", "first"), ("b", ""), ("a", "second")] {
        let bytes = Items::from_slice(alloc, text.as_bytes())?;
        held.push((Str::new(alloc, name)?, bytes))?;
    }
    Ok(held)
}

#[test]
fn reads_from_memory(rt: HostRuntime) -> Result<(), Fail> {
    let alloc = rt.alloc();
    let fails = Items::from_slice(alloc, &[4])?;
    let mut files = MemFiles::new(alloc, entries(alloc)?, fails);
    for (name, limit, text, fault) in [
        ("a", 5, "first", None),
        ("a", 4, "", Some(FileFault::Long(5))),
        ("b", 0, "", None),
        ("b", 9, "", Some(FileFault::Failed)),
        ("c", 9, "", Some(FileFault::Failed)),
        ("a", 9, "first", None),
    ] {
        match files.read_all(alloc, name, limit) {
            Ok(bytes) => assert_eq!(rt; (bytes.bytes(), None), (text.as_bytes(), fault), "{name}"),
            Err(error) => assert_eq!(rt; Some(error), fault, "{name}"),
        }
    }
    Ok(())
}

#[test]
fn writes_to_memory(rt: HostRuntime) -> Result<(), Fail> {
    let alloc = rt.alloc();
    let fails = Items::from_slice(alloc, &[3])?;
    let mut sink = MemSink::new(alloc, 10, 4, fails)?;
    for (piece, want) in [
        ("abcdef", Ok(4)),
        ("", Ok(0)),
        ("e", Err(SinkFault::Failed)),
        ("efghij", Ok(4)),
        ("ijk", Ok(2)),
        ("k", Err(SinkFault::Failed)),
        ("", Ok(0)),
    ] {
        assert_eq!(rt; sink.write(piece.as_bytes()), want, "{piece}");
    }
    assert_eq!(rt; sink.bytes(), "abcdefghij".as_bytes());
    let huge = MemSink::new(alloc, usize::MAX, 1, Items::new(alloc));
    assert_eq!(rt; huge.err(), Some(FileFault::Memory));
    Ok(())
}

#[test]
fn lists(rt: HostRuntime) -> Result<(), Fail> {
    let alloc = rt.alloc();
    let mut list = Items::from_vec([7u8, 8].to_vec(alloc)?);
    list.push(9)?;
    assert_eq!(rt; list.as_slice(), [7, 8, 9].as_slice());
    assert_eq!(rt;
        (list.len(), list.get(2).copied(), list.get(3).copied()),
        (3, Some(9), None)
    );
    let name = Str::new(alloc, "name")?;
    assert_eq!(rt; name.as_str(), "name");
    Ok(())
}
