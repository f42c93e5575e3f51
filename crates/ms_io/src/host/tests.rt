// What the adapters make of readers and writers that fail.
use super::drain;
use crate::{FileFault, Files, HostFiles, HostSink, Sink, SinkFault};
use std::io::{self, ErrorKind, Read, Write};
use std::test::Fail;

// Gives two bytes, and then fails or ends.
#[derive(Drop)]
struct Source {
    calls: u32,
    fails: bool,
}

impl Read for Source {
    fn read(&mut self, piece: &mut [u8]) -> io::Result<usize> {
        self.calls = self.calls.saturating_add(1);
        if self.calls == 1 {
            return Ok(piece.len().min(2));
        }
        if self.fails {
            return Err(io::Error::from(ErrorKind::Other));
        }
        Ok(0)
    }
}

// Takes two bytes at most, then nothing, and then fails.
#[derive(Drop)]
struct Pipe {
    calls: u32,
}

impl Write for Pipe {
    fn write(&mut self, piece: &[u8]) -> io::Result<usize> {
        self.calls = self.calls.saturating_add(1);
        match self.calls {
            1 => Ok(piece.len().min(2)),
            2 => Ok(0),
            _ => Err(io::Error::from(ErrorKind::BrokenPipe)),
        }
    }

    fn flush(&mut self) -> io::Result<()> {
        Ok(())
    }
}

#[test]
fn reads_to_the_end(rt: HostRuntime) -> Result<(), Fail> {
    let alloc = rt.alloc();
    for (fails, limit, want) in [
        (false, 2, Ok(2)),
        (false, 1, Err(FileFault::Long(2))),
        (true, 2, Err(FileFault::Failed)),
    ] {
        let mut source = Source { calls: 0, fails };
        let read = drain(alloc, &mut source, limit);
        assert_eq!(rt; read.map(|bytes| bytes.len()), want);
    }
    Ok(())
}

#[test]
fn reads_files(rt: HostRuntime) -> Result<(), Fail> {
    let alloc = rt.alloc();
    let mut files = HostFiles::new(rt);
    for (name, want) in [
        ("no such file", Err(FileFault::Failed)),
        ("/dev/null", Ok(0)),
        ("/dev/zero", Err(FileFault::Long(4096))),
    ] {
        let read = files.read_all(alloc, name, 9);
        assert_eq!(rt; read.map(|bytes| bytes.len()), want, "{name}");
    }
    Ok(())
}

#[test]
fn writes(rt: HostRuntime) -> Result<(), Fail> {
    let mut sink = HostSink::new(Pipe { calls: 0 });
    for want in [Ok(2), Err(SinkFault::Failed), Err(SinkFault::Failed)] {
        assert_eq!(rt; sink.write("abc".as_bytes()), want);
    }
    Ok(())
}
