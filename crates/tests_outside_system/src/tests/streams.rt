//! Sources and sinks over streams that fail in the middle.

use bx_io::{Failed, NoFaultSource, Sink, Source};
use bx_io_system::{StdSink, StdSource};
use std::io::{self, ErrorKind, Read, Write};
use std::test::Fail;

/// A stream whose second call fails in this way, and whose calls after that move one byte and then none.
#[derive(Drop)]
struct Broken {
    fault: ErrorKind,
    calls: u8,
}

impl Broken {
    fn moved(&mut self) -> io::Result<usize> {
        self.calls = self.calls.saturating_add(1);
        match self.calls {
            1 | 3 => Ok(1),
            2 => Err(io::Error::from(self.fault)),
            _ => Ok(0),
        }
    }
}

impl Read for Broken {
    fn read(&mut self, into: &mut [u8]) -> io::Result<usize> {
        Ok(self.moved()?.min(into.len()))
    }
}

impl Write for Broken {
    fn write(&mut self, piece: &[u8]) -> io::Result<usize> {
        Ok(self.moved()?.min(piece.len()))
    }

    fn flush(&mut self) -> io::Result<()> {
        Ok(())
    }
}

#[test]
fn a_reader_that_fails_is_a_source_that_fails_and_goes_on(rt: HostRuntime) {
    for fault in [ErrorKind::Other, ErrorKind::Interrupted] {
        let mut source = StdSource::new(Broken { fault, calls: 0 });
        for wanted in [Ok(1), Err(Failed), Ok(1), Ok(0)] {
            assert_eq!(rt; source.read(&mut [0; 4]), wanted);
        }
    }
}

#[test]
fn a_writer_that_fails_or_takes_nothing_is_a_sink_that_fails(rt: HostRuntime) {
    for fault in [ErrorKind::Other, ErrorKind::Interrupted] {
        let mut sink = StdSink::new(Broken { fault, calls: 0 });
        for wanted in [Ok(1), Err(Failed), Ok(1), Err(Failed)] {
            assert_eq!(rt; sink.write(b"abc"), wanted);
        }
        assert_eq!(rt; sink.write(b""), Ok(0));
    }
}

#[test]
fn a_source_without_faults_gives_all_that_fits(rt: HostRuntime) -> Result<(), Fail> {
    let mut source = NoFaultSource::new(b"abcdef".to_vec(rt.alloc())?);
    for (count, bytes) in [(4, "abcd"), (2, "ef__"), (0, "____")] {
        let mut into = *b"____";
        assert_eq!(rt; source.read(&mut into), Ok(count));
        assert_eq!(rt; into.as_slice(), bytes.as_bytes());
    }
    Ok(())
}
