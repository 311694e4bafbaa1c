//! Where bytes come from and go to: sources and sinks, with one of each over memory and one of each
//! over any stream.

ghost use Rattle.std.specs.Prelude.{◌≡◌, ℕ, ◌<◌, List, [], length, Option, Some, IfOk, OnOk, OnErr};
ghost use Rattle.std.specs.Io.{ReadsAtMost, WritesAtMost};
ghost use Rattle.std.specs.Io.KnownBytes.{ReadConsumes, WriteAppends};
ghost use Rattle.hist_types.specs.Devices.{CountsFailure};

use std::alloc::{AllocError, Global};
use std::io::{Read, Write};
use std::marker::Model;
use thiserror::Error;

/// The error of a device that failed, for whatever reason.
#[derive(Clone, Copy, Debug, PartialEq, Eq, Error)]
#[error("device fault")]
pub struct Failed;

/// A device that bytes are read from.
pub trait Source {
    /// The bytes that the source has left to give, where they are known.
    ghost remaining: { Self → Option (List ℕ) };

    /// How often the source has failed.
    ghost failures: { Self → ℕ };

    /// Reads bytes into the front of the room, and returns how many. 0 for room that isn't empty is
    /// the source's end.
    fn read(&mut self, room: &mut [u8]) -> Result<usize, Failed>
        ensures within { ReadsAtMost result room.new }
        ensures bytes { ReadConsumes (remaining self.old) (remaining self.new) result room.new }
        ensures no_failure { OnOk result (failures self.new ≡ failures self.old) }
        ensures failed { OnErr result (CountsFailure (failures self.old) (failures self.new)) };
}

/// A device that bytes are written to.
pub trait Sink {
    /// The bytes that the sink took, where they are known.
    ghost contents: { Self → Option (List ℕ) };

    /// How often the sink has failed.
    ghost failures: { Self → ℕ };

    /// Takes bytes from the front of the piece, and returns how many: at least one of a piece that
    /// isn't empty.
    fn write(&mut self, piece: &[u8]) -> Result<usize, Failed>
        ensures within { WritesAtMost result piece.now }
        ensures progress { IfOk result (λ count. 0 < length piece.now → 0 < count) }
        ensures bytes { WriteAppends (contents self.old) (contents self.new) result piece.now }
        ensures no_failure { OnOk result (failures self.new ≡ failures self.old) }
        ensures failed { OnErr result (CountsFailure (failures self.old) (failures self.new)) };
}

/// Counts one more failure, up to the greatest number that there is, and returns the error.
fn count_failure(failures: &mut u64) -> Failed
    ensures { CountsFailure failures.old failures.new }
{
    *failures = failures.saturating_add(1);
    Failed
}

/// A source over memory: it gives the bytes in as large pieces as there is room for, and never
/// fails.
#[derive(Drop)]
pub struct MemorySource<'a> {
    rest: &'a [u8],
}

impl<'a> Model for MemorySource<'a> {
    ghost Value = { List ℕ };

    ghost view = { λ source. source.rest.now };
}

impl<'a> MemorySource<'a> {
    pub fn new(bytes: &'a [u8]) -> Self
        ensures { result ≡ bytes.now }
    {
        MemorySource { rest: bytes }
    }
}

impl Source for MemorySource<'_> {
    ghost remaining = { λ bytes. Some bytes };

    ghost failures = { λ _. 0 };

    fn read(&mut self, room: &mut [u8]) -> Result<usize, Failed> {
        let count = room.len().min(self.rest.len());
        let (given, rest) = self.rest.split_at(count);
        room[..count].copy_from_slice(given);
        self.rest = rest;
        Ok(count)
    }
}

/// A sink over memory: it keeps the bytes, and its only failure is out of memory.
#[derive(Drop)]
pub struct MemorySink {
    taken: Vec<u8>,
    failures: u64,
}

/// The view of a sink over memory: the bytes that it took, and how often it was out of memory.
impl Model for MemorySink {
    ghost Value = { List ℕ × ℕ };

    ghost view = { λ sink. (sink.taken.items, sink.failures) };
}

impl MemorySink {
    pub fn new(alloc: Global) -> Self
        ensures { result ≡ ([], 0) }
    {
        MemorySink {
            taken: Vec::new(alloc),
            failures: 0,
        }
    }

    /// The bytes that the sink took.
    pub fn bytes(&self) -> &[u8]
        ensures { result.now ≡ self.now.0 }
    {
        &self.taken
    }
}

impl Sink for MemorySink {
    ghost contents = { λ sink. Some sink.0 };

    ghost failures = { λ sink. sink.1 };

    fn write(&mut self, piece: &[u8]) -> Result<usize, Failed> {
        match self.taken.extend_from_slice(piece) {
            Ok(()) => Ok(piece.len()),
            Err(AllocError) => Err(count_failure(&mut self.failures)),
        }
    }
}

/// A source over a stream. As much is known of its bytes as of the stream's, and it fails where the
/// stream returns an error of any kind.
#[derive(Drop)]
pub struct StreamSource<R> {
    stream: R,
    failures: u64,
}

/// The view of a source over a stream: the stream, and how often it failed.
impl<R> Model for StreamSource<R> {
    ghost Value = { R × ℕ };

    ghost view = { λ source. (source.stream, source.failures) };
}

impl<R: Read> StreamSource<R> {
    pub fn new(stream: R) -> Self
        ensures { result ≡ (stream, 0) }
    {
        StreamSource {
            stream,
            failures: 0,
        }
    }
}

impl<R: Read> Source for StreamSource<R> {
    ghost remaining = { λ source. R.remaining source.0 };

    ghost failures = { λ source. source.1 };

    fn read(&mut self, room: &mut [u8]) -> Result<usize, Failed> {
        match self.stream.read(room) {
            Ok(count) => Ok(count),
            Err(_) => Err(count_failure(&mut self.failures)),
        }
    }
}

/// A sink over a stream. As much is known of its bytes as of the stream's, and it fails where the
/// stream returns an error of any kind, or takes nothing of a piece that isn't empty. It flushes
/// nothing, so the stream should keep no buffer of its own.
#[derive(Drop)]
pub struct StreamSink<W> {
    stream: W,
    failures: u64,
}

/// The view of a sink over a stream: the stream, and how often it failed.
impl<W> Model for StreamSink<W> {
    ghost Value = { W × ℕ };

    ghost view = { λ sink. (sink.stream, sink.failures) };
}

impl<W: Write> StreamSink<W> {
    pub fn new(stream: W) -> Self
        ensures { result ≡ (stream, 0) }
    {
        StreamSink {
            stream,
            failures: 0,
        }
    }
}

impl<W: Write> Sink for StreamSink<W> {
    ghost contents = { λ sink. W.contents sink.0 };

    ghost failures = { λ sink. sink.1 };

    fn write(&mut self, piece: &[u8]) -> Result<usize, Failed> {
        match self.stream.write(piece) {
            Ok(count) if count > 0 || piece.is_empty() => Ok(count),
            _ => Err(count_failure(&mut self.failures)),
        }
    }
}
