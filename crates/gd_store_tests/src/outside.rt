//! Sources, sinks and clocks.
use gd_outside::clock::{Clock, StdClock};
use gd_outside::sink::Sink;
use gd_outside::source::Source;
use gd_outside::stream::{StdSink, StdSource};
use std::io;
use std::io::{Read, Write};
use std::time::Duration;

/// Reads or takes one byte, fails, and then reads and takes nothing. It tells no content, and
/// cannot flush.
#[derive(Drop)]
struct Flaky(u8);

impl Flaky {
    /// How many bytes the next call gives or takes.
    fn next(&mut self) -> io::Result<usize> {
        self.0 = self.0.saturating_add(1);
        match self.0 {
            1 => Ok(1),
            2 => Err(io::ErrorKind::Other.into()),
            _ => Ok(0),
        }
    }
}

impl Read for Flaky {
    fn read(&mut self, buf: &mut [u8]) -> io::Result<usize> {
        buf.fill(b'x');
        Ok(self.next()?.min(buf.len()))
    }
}

impl Write for Flaky {
    fn write(&mut self, bytes: &[u8]) -> io::Result<usize> {
        Ok(self.next()?.min(bytes.len()))
    }

    fn flush(&mut self) -> io::Result<()> {
        Err(io::ErrorKind::Other.into())
    }
}

/// What the next read gives; 9 where it fails.
fn read_or_nine<S: Source>(source: &mut S, buf: &mut [u8]) -> usize {
    source.read(buf).unwrap_or(9)
}

/// What three reads of a reader give.
fn three_reads() -> [usize; 3] {
    let mut source = StdSource::new(Flaky(0));
    let mut buf = [0; 2];
    let first = read_or_nine(&mut source, &mut buf);
    let second = read_or_nine(&mut source, &mut buf);
    [first, second, read_or_nine(&mut source, &mut buf)]
}

#[test]
fn passes_reads_on(rt: HostRuntime) {
    assert!(rt; three_reads() == [1, 9, 0]);
}

/// What the next write takes; 9 where it fails.
fn write_or_nine<S: Sink>(sink: &mut S) -> usize {
    sink.write(b"ab").unwrap_or(9)
}

/// What two writes to a writer take, and whether it flushes.
fn two_writes() -> (usize, usize, bool) {
    let mut sink = StdSink::new(Flaky(0));
    let first = write_or_nine(&mut sink);
    let second = write_or_nine(&mut sink);
    (first, second, sink.flush().is_ok())
}

#[test]
fn passes_writes_on(rt: HostRuntime) {
    assert!(rt; two_writes() == (1, 9, false));
}

/// Gives one time, or none.
#[derive(Drop)]
struct Stopped(Option<Duration>);

impl std::time::Clock for Stopped {
    fn monotonic(&self) -> io::Result<Duration> {
        self.since_1970()
    }

    fn since_1970(&self) -> io::Result<Duration> {
        match self.0 {
            Some(time) => Ok(time),
            None => Err(io::ErrorKind::Other.into()),
        }
    }
}

/// What a clock gives at this time.
fn told(time: Option<Duration>) -> u64 {
    StdClock::new(&Stopped(time)).now_ms()
}

#[test]
fn counts_milliseconds(rt: HostRuntime) {
    assert!(rt; told(Some(Duration::new(1, 2_999_999))) == 1_002 && told(None) == 0);
}

#[test]
fn is_past_the_year_2020(rt: HostRuntime) {
    assert!(rt; StdClock::new(&rt).now_ms() > 1_577_836_800_000);
}
