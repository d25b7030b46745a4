// A file, a reader and a writer that fail in the midst, behind the adapters that make a disk, a source
// and a sink of them. The fault is answered: it is no end of the input, no empty file and no byte that
// was written.
use sb_outside::{Disk, FileDisk, Reading, Sink, Source, Writing};
use std::fs::{Metadata, OpenFile};
use std::io;
use std::io::{ErrorKind, Read, Seek, SeekFrom, Write};
use std::test::Fail;

// One of its calls fails. A read gives one byte, and a write takes one.
#[derive(Drop)]
struct Flaky {
    calls: u64,
    failing: u64,
}

fn failure() -> io::Error {
    io::Error::from(ErrorKind::Other)
}

impl Flaky {
    fn new(failing: u64) -> Self {
        Flaky { calls: 0, failing }
    }

    fn call(&mut self) -> io::Result<()> {
        let call = self.calls;
        self.calls = self.calls.saturating_add(1);
        if call == self.failing {
            return Err(failure());
        }
        Ok(())
    }
}

impl Read for Flaky {
    fn read(&mut self, into: &mut [u8]) -> io::Result<usize> {
        self.call()?;
        Ok(into.len().min(1))
    }
}

impl Write for Flaky {
    fn write(&mut self, bytes: &[u8]) -> io::Result<usize> {
        self.call()?;
        Ok(bytes.len().min(1))
    }

    fn flush(&mut self) -> io::Result<()> {
        self.call()
    }
}

impl Seek for Flaky {
    fn seek(&mut self, _to: SeekFrom) -> io::Result<u64> {
        self.call()?;
        Ok(0)
    }
}

// A file that can't say how long it is, and that may fail to be cut or synced.
#[derive(Drop)]
struct FlakyFile {
    inner: Flaky,
    cuts: bool,
    syncs: bool,
}

impl Read for FlakyFile {
    fn read(&mut self, into: &mut [u8]) -> io::Result<usize> {
        self.inner.read(into)
    }
}

impl Write for FlakyFile {
    fn write(&mut self, bytes: &[u8]) -> io::Result<usize> {
        self.inner.write(bytes)
    }

    fn flush(&mut self) -> io::Result<()> {
        self.inner.flush()
    }
}

impl Seek for FlakyFile {
    fn seek(&mut self, to: SeekFrom) -> io::Result<u64> {
        self.inner.seek(to)
    }
}

impl OpenFile for FlakyFile {
    fn metadata(&self) -> io::Result<Metadata> {
        Err(failure())
    }

    fn set_len(&self, _length: u64) -> io::Result<()> {
        if self.cuts { Ok(()) } else { Err(failure()) }
    }

    fn sync_all(&self) -> io::Result<()> {
        if self.syncs { Ok(()) } else { Err(failure()) }
    }

    fn sync_data(&self) -> io::Result<()> {
        self.sync_all()
    }
}

// Each row: the call of the file that fails (a read makes two, a write of two bytes four), whether it
// can be cut and synced, and which of length, read, write, cut and sync fail.
static ROWS: [(u64, bool, bool, [bool; 5]); 9] = [
    (9, true, true, [true, false, false, false, false]),
    (0, true, true, [true, true, false, false, false]),
    (1, true, true, [true, true, false, false, false]),
    (2, true, true, [true, false, true, false, false]),
    (3, true, true, [true, false, true, false, false]),
    (4, true, true, [true, false, true, false, false]),
    (5, true, true, [true, false, true, false, false]),
    (9, false, true, [true, false, false, true, false]),
    (9, true, false, [true, false, false, false, true]),
];

#[test]
fn a_file_fails(rt: HostRuntime) -> Result<(), Fail> {
    for (failing, cuts, syncs, expected) in &ROWS {
        let name = String::from_str(rt.alloc(), "flaky.journal")?;
        let file = FlakyFile {
            inner: Flaky::new(*failing),
            cuts: *cuts,
            syncs: *syncs,
        };
        let mut disk = FileDisk::new(rt.alloc(), file, name, rt);
        let mut piece = [0u8; 4];
        let found = [
            disk.length().is_err(),
            disk.read(0, &mut piece).is_err(),
            disk.write_at(0, b"ab").is_err(),
            disk.cut(1).is_err(),
            disk.sync().is_err(),
        ];
        drop(disk);
        assert!(rt; found == *expected, "{failing} {cuts} {syncs}");
    }
    Ok(())
}

#[test]
fn a_reader_and_a_writer_fail(rt: HostRuntime) -> Result<(), Fail> {
    let mut source = Reading::new(Flaky::new(1), rt);
    let mut sink = Writing::new(Flaky::new(1), rt);
    let mut piece = [0u8; 4];
    for expected in [Some(1), None, Some(1)] {
        assert!(rt; source.read(&mut piece).ok() == expected);
        assert!(rt; sink.write(b"ab").ok() == expected);
    }
    Ok(())
}
