//! A source and a sink in memory that never fail.
ghost use Rattle.std.specs.Prelude.{◌≡◌, ◌<◌, ◌≤◌, ℕ, List, length, take, Option, Some, IfOk, min};
ghost use Rattle.outside_io.specs.Outside.{Reads, Writes};
ghost use Rattle.outside_io.specs.Sure.{sure_fill, empty_shelf, laid_up};
ghost use Rattle.std.specs.Option.{option_map};

use crate::{Fill, Put, Sink, Source};
use std::alloc::{AllocError, Global};
use std::marker::Model;

/// A source of given bytes. Contracts see the bytes that are left.
#[derive(Drop)]
pub struct SureSource {
    bytes: Vec<u8>,
    at: usize,
}

impl Model for SureSource {
    ghost use Rattle.std.specs.Prelude.{ℕ, List, drop, ◌≤◌, vec_len};

    ghost Value = { List ℕ };

    ghost view = { λ source. drop source.at source.bytes.items };

    ghost invariant = { λ source. source.at ≤ vec_len source.bytes };
}

impl SureSource {
    /// A source of these bytes.
    ///
    /// # Errors
    ///
    /// `AllocError` if the allocation of the copy fails.
    ///
    /// # Memory
    ///
    /// It allocates a copy of the bytes.
    pub fn new(alloc: Global, bytes: &[u8]) -> Result<SureSource, AllocError>
        ensures { IfOk result (λ source. source ≡ bytes.now) }
    {
        Ok(SureSource {
            bytes: bytes.to_vec(alloc)?,
            at: 0,
        })
    }
}

/// Copies as many bytes of `rest` into `buf` as both have, and returns their number.
pub fn fill(buf: &mut [u8], rest: &[u8]) -> usize
    requires room { 0 < length buf.old }
    requires some { 0 < length rest.now }
    ensures moves { 1 ≤ result }
    ensures most { result ≡ min (length rest.now) (length buf.old) }
    ensures same { take result buf.new ≡ take result rest.now }
{
    let count = rest.len().min(buf.len());
    buf[..count].copy_from_slice(&rest[..count]);
    count
}

impl Source for SureSource {
    ghost left = { λ source. Some source };

    ghost faults = { λ _. 0 };

    // It gives as many bytes as fit, and reports the end exactly if none is left.
    fn read(&mut self, buf: &mut [u8]) -> Fill
        requires { 0 < length buf.old }
        ensures does { Reads (Some self.old) 0 buf.new result (Some self.new) 0 }
        ensures most { result ≡ sure_fill self.old (length buf.old) }
    {
        let (_, rest) = self.bytes.split_at(self.at);
        if rest.is_empty() {
            return Fill::End;
        }
        let count = fill(buf, rest);
        self.at += count;
        Fill::Got(count)
    }
}

/// A sink with room for so many bytes. Contracts see its room and the bytes that it has taken, until a write passes the room.
#[derive(Drop)]
pub struct SureSink {
    bytes: Vec<u8>,
    room: usize,
    whole: bool,
}

impl Model for SureSink {
    ghost use Rattle.std.specs.Prelude.{Some, None, ◌≤◌, vec_len, vec_capacity, if◌then◌else◌};
    ghost use Rattle.outside_io.specs.Shelf.{Shelf};

    ghost Value = { Shelf };

    ghost view = { λ sink. record { room = sink.room; taken = if sink.whole then Some sink.bytes.items else None } };

    ghost invariant = { λ sink. (vec_len sink.bytes ≤ sink.room)
        × (sink.room ≤ vec_capacity sink.bytes) };
}

impl SureSink {
    /// An empty sink with room for so many bytes.
    ///
    /// # Errors
    ///
    /// `AllocError` if the allocation fails.
    ///
    /// # Memory
    ///
    /// It allocates the whole room.
    pub fn new(alloc: Global, room: usize) -> Result<SureSink, AllocError>
        ensures { IfOk result (λ sink. sink ≡ empty_shelf room) }
    {
        Ok(SureSink {
            bytes: Vec::with_capacity(alloc, room)?,
            room,
            whole: true,
        })
    }

    /// The bytes that the sink has taken; `None` if a write passed its room.
    pub fn bytes(&self) -> Option<&[u8]>
        ensures { option_map (λ bytes. bytes.now) result ≡ self.now.taken }
    {
        if self.whole { Some(&self.bytes) } else { None }
    }
}

impl Sink for SureSink {
    ghost taken = { λ sink. sink.taken };

    ghost faults = { λ _. 0 };

    // It takes each piece whole.
    fn write(&mut self, piece: &[u8]) -> Put
        requires { 0 < length piece.now }
        ensures does { Writes self.old.taken 0 piece.now result self.new.taken 0 }
        ensures whole { result ≡ Put.Took (length piece.now) }
        ensures kept { self.new ≡ laid_up self.old piece.now }
    {
        if self.whole && piece.len() <= self.room - self.bytes.len() {
            let Ok(()) = self.bytes.extend_from_slice(piece) else {
                unreachable!()
            };
        } else {
            self.whole = false;
        }
        Put::Took(piece.len())
    }
}
