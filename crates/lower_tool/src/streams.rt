//! Streams that fail in a way that no file does.

use lower_run::run::{ByTables, run};
use std::alloc::Global;
use std::io::{self, ErrorKind, Read, Write};

/// Is interrupted, then gives one byte, then fails.
#[derive(Drop)]
struct Failing {
    calls: u32,
}

impl Read for Failing {
    fn read(&mut self, buf: &mut [u8]) -> io::Result<usize> {
        self.calls = self.calls.saturating_add(1);
        match (self.calls, buf.first_mut()) {
            (1, _) => Err(io::Error::from(ErrorKind::Interrupted)),
            (2, Some(byte)) => {
                *byte = b'{';
                Ok(1)
            }
            _ => Err(io::Error::from(ErrorKind::BrokenPipe)),
        }
    }
}

#[test]
fn a_read_that_fails_in_mid_stream_is_a_fault(rt: HostRuntime) {
    let mut input = Failing { calls: 0 };
    let mut out = [];
    let mut errors = [0u8; 13];
    let status = run(
        rt.alloc(),
        &ByTables,
        &["body"],
        &mut input,
        &mut out.as_mut_slice(),
        &mut errors.as_mut_slice(),
    );
    assert!(rt; (status, input.calls) == (2, 3));
    assert!(rt; errors == *b"fault: input\n");
}

/// Gives a text a byte a call, until it fails at a call.
#[derive(Drop)]
struct Breaking<'a> {
    text: &'a [u8],
    calls: u32,
}

impl Read for Breaking<'_> {
    fn read(&mut self, buf: &mut [u8]) -> io::Result<usize> {
        let Some(calls) = self.calls.checked_sub(1) else {
            return Err(io::Error::from(ErrorKind::BrokenPipe));
        };
        self.calls = calls;
        match (self.text, buf.first_mut()) {
            ([byte, rest @ ..], Some(place)) => {
                *place = *byte;
                self.text = rest;
                Ok(1)
            }
            _ => Ok(0),
        }
    }
}

/// Takes a byte a call, until it fails at a call.
#[derive(Drop)]
struct Filling {
    calls: u32,
}

impl Write for Filling {
    fn write(&mut self, buf: &[u8]) -> io::Result<usize> {
        match self.calls.checked_sub(1) {
            Some(calls) => {
                self.calls = calls;
                Ok(buf.len().min(1))
            }
            None => Err(io::Error::from(ErrorKind::BrokenPipe)),
        }
    }

    fn flush(&mut self) -> io::Result<()> {
        Ok(())
    }
}

/// A path without its segments, whose listing has two lines of 22 bytes.
const DOCUMENT: &str = r#"{"nodes":[{"k":"Path"}]}"#;

/// How many calls read the document, the last one none of it, and how many write the listing.
const READS: u32 = 25;

const WRITES: u32 = 22;

/// The status of a run whose streams fail behind so many calls, and whether that much is written to `errors`, which is long enough.
fn ends_with(alloc: Global, reads: u32, writes: u32, said: &[u8; 14]) -> (u8, bool) {
    let mut input = Breaking {
        text: DOCUMENT.as_bytes(),
        calls: reads,
    };
    let mut out = Filling { calls: writes };
    let mut errors = [0u8; 14];
    let status = run(
        alloc,
        &ByTables,
        &["path"],
        &mut input,
        &mut out,
        &mut errors.as_mut_slice(),
    );
    (status, errors == *said)
}

/// How many of the first reads fail so, before one that doesn't.
fn reads_that_fail(alloc: Global) -> u32 {
    for reads in 0..100 {
        if ends_with(alloc, reads, WRITES, b"fault: input\n\0") != (2, true) {
            return reads;
        }
    }
    100
}

fn writes_that_fail(alloc: Global) -> u32 {
    for writes in 0..100 {
        if ends_with(alloc, READS, writes, b"fault: output\n") != (2, true) {
            return writes;
        }
    }
    100
}

#[test]
fn each_read_and_each_write_may_fail(rt: HostRuntime) {
    let alloc = rt.alloc();
    assert!(rt; reads_that_fail(alloc) == READS);
    assert!(rt; writes_that_fail(alloc) == WRITES);
    assert!(rt; ends_with(alloc, READS, WRITES, b"\0\0\0\0\0\0\0\0\0\0\0\0\0\0") == (0, true));
}

/// The status of a run where `out` and `errors` fail behind so many calls.
fn status_behind(alloc: Global, word: &str, text: &[u8], writes: u32, says: u32) -> u8 {
    let mut input = text;
    run(
        alloc,
        &ByTables,
        &[word],
        &mut input,
        &mut Filling { calls: writes },
        &mut Filling { calls: says },
    )
}

/// Of wrong words, of a text that isn't a document, of a listing that can't be written, and of one that can.
#[test]
fn errors_that_cannot_be_written_change_no_status(rt: HostRuntime) {
    let alloc = rt.alloc();
    let document = DOCUMENT.as_bytes();
    for says in 0..50 {
        assert!(rt; status_behind(alloc, "loop", b"", WRITES, says) == 2);
        assert!(rt; status_behind(alloc, "path", b"{", WRITES, says) == 2);
        assert!(rt; status_behind(alloc, "path", document, 0, says) == 2);
        assert!(rt; status_behind(alloc, "path", document, WRITES, says) == 0);
    }
}
