use crate::{
    Failed, MemorySink, MemorySource, ReadStop, Sink, Source, StdSink, StdSource, Thrown,
    WriteStop, read_whole, word_of, write_whole,
};
use std::io;
use std::io::{ErrorKind, Read, Write};
use std::test::Fail;

#[test]
fn reads_whole(rt: HostRuntime) -> Result<(), Fail> {
    let bytes = b"abcde".as_slice();
    let rows: [(usize, &[u64], usize, Result<&[u8], ReadStop>); 6] = [
        (1, &[], 5, Ok(b"abcde".as_slice())),
        (7, &[], 9, Ok(b"abcde".as_slice())),
        (2, &[], 4, Err(ReadStop::TooLong)),
        (2, &[], 0, Err(ReadStop::TooLong)),
        (2, &[3], 5, Err(ReadStop::Failed)),
        (2, &[5], 5, Ok(b"abcde".as_slice())),
    ];
    for (step, failing, limit, want) in rows {
        let failing = failing.to_vec(rt.alloc())?;
        let mut input = MemorySource::new(bytes.to_vec(rt.alloc())?, step, failing);
        match (read_whole(rt.alloc(), &mut input, limit), want) {
            (Ok(all), Ok(want)) => assert_eq!(rt; all.as_slice(), want),
            (Err(stop), Err(want)) => assert_eq!(rt; stop, want),
            _ => assert!(rt; false, "step {step}, limit {limit}"),
        }
    }
    Ok(())
}

#[test]
fn writes_whole(rt: HostRuntime) -> Result<(), Fail> {
    // The last row is Ok only where each call is handed all that is left.
    let rows: [(usize, &[u64], Result<(), WriteStop>, &[u8]); 4] = [
        (1, &[], Ok(()), b"abcde".as_slice()),
        (1, &[3], Err(WriteStop::Failed), b"ab".as_slice()),
        (2, &[3], Err(WriteStop::Failed), b"abcd".as_slice()),
        (9, &[2], Ok(()), b"abcde".as_slice()),
    ];
    for (step, failing, want, held) in rows {
        let mut out = MemorySink::new(rt.alloc(), step, failing.to_vec(rt.alloc())?);
        let ended = write_whole(&mut out, b"abcde".as_slice());
        assert_eq!(rt; ended, want);
        assert_eq!(rt; out.bytes(), held);
    }
    Ok(())
}

/// A writer that takes nothing at its first call, fails at its second, and takes all from then on. As a reader it fails
/// at its second call.
#[derive(Drop)]
struct Unwilling {
    calls: u8,
}

impl Write for Unwilling {
    fn write(&mut self, buf: &[u8]) -> io::Result<usize> {
        self.calls = self.calls.saturating_add(1);
        match self.calls {
            1 => Ok(0),
            2 => Err(io::Error::from(ErrorKind::BrokenPipe)),
            _ => Ok(buf.len()),
        }
    }

    fn flush(&mut self) -> io::Result<()> {
        Ok(())
    }
}

impl Read for Unwilling {
    fn read(&mut self, buf: &mut [u8]) -> io::Result<usize> {
        self.calls = self.calls.saturating_add(1);
        match self.calls {
            2 => Err(io::Error::from(ErrorKind::BrokenPipe)),
            _ => Ok(buf.len().min(1)),
        }
    }
}

#[test]
fn adapts_std(rt: HostRuntime) -> Result<(), Fail> {
    let mut input = StdSource::new(b"ab".as_slice());
    let mut buffer = [0u8; 3];
    assert_eq!(rt; input.read(&mut buffer), Ok(2));
    assert_eq!(rt; &buffer[..2], b"ab".as_slice());
    let ended: Result<usize, Failed> = input.read(&mut buffer);
    assert_eq!(rt; ended, Ok(0));
    let mut input = StdSource::new(Unwilling { calls: 0 });
    assert_eq!(rt; input.read(&mut buffer), Ok(1));
    assert_eq!(rt; input.read(&mut buffer), Err(Failed));
    assert_eq!(rt; input.read(&mut buffer), Ok(1));
    let mut out = StdSink::new(Unwilling { calls: 0 });
    assert_eq!(rt; out.write(b"ab".as_slice()), Err(WriteStop::Failed));
    assert_eq!(rt; out.write(b"ab".as_slice()), Err(WriteStop::Failed));
    assert_eq!(rt; out.write(b"ab".as_slice()), Ok(2));
    assert_eq!(rt; word_of(Thrown::BadType), b"type".as_slice());
    Ok(())
}
