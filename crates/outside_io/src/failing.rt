//! A source and a sink in memory that fail at listed calls.
ghost use Rattle.std.specs.Prelude.{◌≡◌, ◌<◌, ◌≤◌, ℕ, Bool, List, length, Some, IfOk};
ghost use Rattle.outside_io.specs.Outside.{Reads, Writes};
ghost use Rattle.outside_io.specs.Failing.{is_listed, feed_fill, fed, tray_put, laid_in, new_feed, new_tray};

use crate::sure::fill;
use crate::{Fill, Put, Sink, Source};
use std::alloc::{AllocError, Global};
use std::marker::Model;

/// A source of given bytes that fails at listed calls. Contracts see the bytes that are left, the arguments of `new`, and the
/// counts of calls and failures. No list has the last value of the count of calls.
#[derive(Drop)]
pub struct MemSource {
    bytes: Vec<u8>,
    at: usize,
    most: usize,
    failing: Vec<u32>,
    calls: u64,
    faults: u64,
}

impl Model for MemSource {
    ghost use Rattle.std.specs.Prelude.{drop, ◌≤◌, vec_len};
    ghost use Rattle.outside_io.specs.Feed.{Feed};

    ghost Value = { Feed };

    ghost view = { λ source. record {
      left = drop source.at source.bytes.items;
      most = source.most;
      failing = source.failing.items;
      calls = source.calls;
      faults = source.faults;
    } };

    ghost invariant = { λ source. (source.at ≤ vec_len source.bytes) × (1 ≤ source.most) };
}

impl MemSource {
    /// A source of these bytes that gives at most `most` of them a call, and fails at the calls with these numbers, counted
    /// from 1.
    ///
    /// # Errors
    ///
    /// `AllocError` if an allocation fails.
    ///
    /// # Memory
    ///
    /// It allocates copies of the bytes and of the list. Reads don't allocate.
    pub fn new(
        alloc: Global,
        bytes: &[u8],
        most: usize,
        failing: &[u32],
    ) -> Result<MemSource, AllocError>
        requires { 1 ≤ most }
        ensures { IfOk result (λ source. source ≡ new_feed bytes.now most failing.now) }
    {
        Ok(MemSource {
            bytes: bytes.to_vec(alloc)?,
            at: 0,
            most,
            failing: failing.to_vec(alloc)?,
            calls: 0,
            faults: 0,
        })
    }
}

// Whether a call's number is listed.
fn is_call_listed(failing: &[u32], call: u64) -> bool
    ensures { result ≡ is_listed failing.now call }
{
    failing.iter().any(|&listed| u64::from(listed) == call)
}

impl Source for MemSource {
    ghost left = { λ source. Some source.left };

    ghost faults = { λ source. source.faults };

    // It fails exactly at a listed call. At another call it reports the end exactly if no byte is left.
    fn read(&mut self, buf: &mut [u8]) -> Fill
        requires { 0 < length buf.old }
        ensures count { self.old.faults ≤ self.new.faults }
        ensures does { Reads (Some self.old.left) self.old.faults buf.new result
            (Some self.new.left) self.new.faults }
        ensures exact { result ≡ feed_fill self.old (length buf.old) }
        ensures after { self.new ≡ fed self.old result }
    {
        self.calls = self.calls.saturating_add(1);
        if is_call_listed(&self.failing, self.calls) {
            self.faults = self.faults.saturating_add(1);
            return Fill::Failed;
        }
        let (_, rest) = self.bytes.split_at(self.at);
        if rest.is_empty() {
            return Fill::End;
        }
        let size = buf.len().min(self.most);
        let count = fill(&mut buf[..size], rest);
        self.at += count;
        Fill::Got(count)
    }
}

/// A sink with room for so many bytes that fails at listed calls, and at any call if no room is left. Contracts see the bytes
/// that it has taken, the arguments of `new`, and the counts of calls and failures.
#[derive(Drop)]
pub struct MemSink {
    bytes: Vec<u8>,
    room: usize,
    most: usize,
    failing: Vec<u32>,
    calls: u64,
    faults: u64,
}

impl Model for MemSink {
    ghost use Rattle.std.specs.Prelude.{◌≤◌, vec_len, vec_capacity};
    ghost use Rattle.outside_io.specs.Tray.{Tray};

    ghost Value = { Tray };

    ghost view = { λ sink. record {
      taken = sink.bytes.items;
      room = sink.room;
      most = sink.most;
      failing = sink.failing.items;
      calls = sink.calls;
      faults = sink.faults;
    } };

    ghost invariant = { λ sink. (vec_len sink.bytes ≤ sink.room)
        × (sink.room ≤ vec_capacity sink.bytes) × (1 ≤ sink.most) };
}

impl MemSink {
    /// An empty sink with room for so many bytes. It takes at most `most` bytes a call, and fails at the calls with these
    /// numbers, counted from 1.
    ///
    /// # Errors
    ///
    /// `AllocError` if an allocation fails.
    ///
    /// # Memory
    ///
    /// It allocates the whole room and a copy of the list. Writes don't allocate.
    pub fn new(
        alloc: Global,
        room: usize,
        most: usize,
        failing: &[u32],
    ) -> Result<MemSink, AllocError>
        requires { 1 ≤ most }
        ensures { IfOk result (λ sink. sink ≡ new_tray room most failing.now) }
    {
        Ok(MemSink {
            bytes: Vec::with_capacity(alloc, room)?,
            room,
            most,
            failing: failing.to_vec(alloc)?,
            calls: 0,
            faults: 0,
        })
    }

    /// The bytes that the sink has taken.
    pub fn bytes(&self) -> &[u8]
        ensures { result.now ≡ self.now.taken }
    {
        &self.bytes
    }
}

impl Sink for MemSink {
    ghost taken = { λ sink. Some sink.taken };

    ghost faults = { λ sink. sink.faults };

    // It fails exactly at a listed call and if no room is left.
    fn write(&mut self, piece: &[u8]) -> Put
        requires { 0 < length piece.now }
        ensures count { self.old.faults ≤ self.new.faults }
        ensures does { Writes (Some self.old.taken) self.old.faults piece.now result
            (Some self.new.taken) self.new.faults }
        ensures exact { result ≡ tray_put self.old (length piece.now) }
        ensures after { self.new ≡ laid_in self.old piece.now result }
    {
        self.calls = self.calls.saturating_add(1);
        let free = self.room - self.bytes.len();
        if free == 0 || is_call_listed(&self.failing, self.calls) {
            self.faults = self.faults.saturating_add(1);
            return Put::Failed;
        }
        let count = piece.len().min(self.most).min(free);
        let Ok(()) = self.bytes.extend_from_slice(&piece[..count]) else {
            unreachable!()
        };
        Put::Took(count)
    }
}
