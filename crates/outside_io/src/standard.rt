//! Sources and sinks over streams of the standard library, such as the system's.
ghost use Rattle.std.specs.Prelude.{◌≡◌, ◌<◌, ◌≤◌, None, length};
ghost use Rattle.outside_io.specs.Outside.{Writes, PutInto};

use crate::{Fill, Put, Sink, Source};
use std::io::{Read, Write};
use std::marker::Model;

/// A source over a stream. An interrupted read is a failure like any other. Contracts see the stream and the count of failures,
/// and the bytes that are left if they see those of the stream. They don't see those of the system's streams.
#[derive(Drop)]
pub struct StdSource<I> {
    input: I,
    faults: u64,
}

impl<I> Model for StdSource<I> {
    ghost use Rattle.std.specs.Prelude.{ℕ};

    ghost Value = { I × ℕ };

    ghost view = { λ source. (source.input, source.faults) };
}

impl<I: Read + Drop> StdSource<I> {
    /// A source over the stream, which hasn't failed yet.
    pub fn new(input: I) -> StdSource<I>
        ensures { result ≡ (input, 0) }
    {
        StdSource { input, faults: 0 }
    }
}

impl<I: Read + Drop> Source for StdSource<I> {
    ghost left = { λ source. I.remaining source.0 };

    ghost faults = { λ source. source.1 };

    fn read(&mut self, buf: &mut [u8]) -> Fill {
        match self.input.read(buf) {
            Ok(0) => Fill::End,
            Ok(count) => Fill::Got(count),
            Err(_) => {
                self.faults = self.faults.saturating_add(1);
                Fill::Failed
            }
        }
    }
}

/// A sink over a stream. A write that takes nothing is a failure. Contracts see the stream and the count of failures.
#[derive(Drop)]
pub struct StdSink<O> {
    output: O,
    faults: u64,
}

impl<O> Model for StdSink<O> {
    ghost use Rattle.std.specs.Prelude.{ℕ};

    ghost Value = { O × ℕ };

    ghost view = { λ sink. (sink.output, sink.faults) };
}

impl<O: Write + Drop> StdSink<O> {
    /// A sink over the stream, which hasn't failed yet.
    pub fn new(output: O) -> StdSink<O>
        ensures { result ≡ (output, 0) }
    {
        StdSink { output, faults: 0 }
    }
}

impl<O: Write + Drop> Sink for StdSink<O> {
    ghost taken = { λ _. None };

    ghost faults = { λ sink. sink.1 };

    fn write(&mut self, piece: &[u8]) -> Put
        requires { 0 < length piece.now }
        ensures count { self.old.1 ≤ self.new.1 }
        ensures does { Writes None self.old.1 piece.now result None self.new.1 }
        ensures bytes { PutInto (O.contents self.old.0) piece.now result (O.contents self.new.0) }
    {
        match self.output.write(piece) {
            Ok(count) if count > 0 => Put::Took(count),
            _ => {
                self.faults = self.faults.saturating_add(1);
                Put::Failed
            }
        }
    }
}
