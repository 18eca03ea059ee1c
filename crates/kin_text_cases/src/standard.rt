//! A reader and a writer of std as a source and a sink.

use kin_io::sink::write_all;
use kin_io::source::{Untaken, read_all};
use kin_io::standard::{StdSink, StdSource};
use std::io;
use std::io::{Read, Write};
use std::test::Fail;

/// Is interrupted once, and then gives one text and the end.
#[derive(Drop)]
struct Interrupted {
    calls: u32,
}

impl Read for Interrupted {
    fn read(&mut self, buf: &mut [u8]) -> io::Result<usize> {
        self.calls = self.calls.saturating_add(1);
        match self.calls {
            1 => Err(io::Error::from(io::ErrorKind::Interrupted)),
            2 if buf.len() >= 2 => {
                buf[..2].copy_from_slice(b"at");
                Ok(2)
            }
            _ => Ok(0),
        }
    }
}

#[test]
fn an_interrupted_read_fails_and_the_next_goes_on(rt: HostRuntime) -> Result<(), Fail> {
    let mut source = StdSource::new(Interrupted { calls: 0 });
    let first = read_all(rt.alloc(), &mut source, 10);
    assert!(rt; matches!(first, Err(Untaken::Fault)));
    let all = read_all(rt.alloc(), &mut source, 10)?;
    assert!(rt; all.as_slice() == b"at".as_slice());
    Ok(())
}

/// Takes five bytes, two at a time, and then none. Keeps them, and counts its flushes.
#[derive(Drop)]
struct Narrow {
    held: Vec<u8>,
    flushes: u32,
}

impl Write for Narrow {
    fn write(&mut self, buf: &[u8]) -> io::Result<usize> {
        let room = 5usize.saturating_sub(self.held.len());
        let count = buf.len().min(room).min(2);
        match self.held.extend_from_slice(&buf[..count]) {
            Ok(()) => Ok(count),
            Err(_) => Err(io::Error::from(io::ErrorKind::OutOfMemory)),
        }
    }

    fn flush(&mut self) -> io::Result<()> {
        self.flushes = self.flushes.saturating_add(1);
        Ok(())
    }
}

/// Of the second piece one byte fits, and the next write takes none.
#[test]
fn each_write_is_flushed_and_an_empty_one_fails(rt: HostRuntime) -> Result<(), Fail> {
    let mut narrow = Narrow {
        held: Vec::new(rt.alloc()),
        flushes: 0,
    };
    let rows: [(&[u8], bool, u32, &[u8]); 2] = [
        (b"0 1\n", true, 2, b"0 1\n"),
        (b"1 0\n", false, 3, b"0 1\n1"),
    ];
    for (piece, taken, flushes, held) in rows {
        let wrote = write_all(&mut StdSink::new(&mut narrow), piece).is_ok();
        assert!(rt;
            wrote == taken && narrow.held.as_slice() == held,
            "taken: {taken}"
        );
        assert_eq!(rt; narrow.flushes, flushes);
    }
    Ok(())
}
