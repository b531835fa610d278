// A source and a sink in memory, which fail at the calls that their lists name.
ghost use Rattle.std.specs.Prelude.{◌≡◌, ℕ, ◌+◌, ◌-◌, ◌<◌, ◌≤◌, ◌↔◌, ◌⊎◌, List, Some, [], ◌++◌, min, IfOk, OnErr, IsErr, is_err, if◌then◌else◌, length, take, drop, vec_len, vec_capacity};
ghost use Rattle.std.specs.List.{Contains};
ghost use Rattle.odc_io.specs.Counts.{next_count};
ghost use Rattle.odc_io.specs.Streams.{ReadsNext};

use crate::calls::{count_up, is_listed};
use crate::traits::{Failed, Sink, Source};
use std::alloc::{AllocError, Global};
use std::marker::Model;

/// Bytes that are read from their front: a list of those that are left.
#[derive(Drop)]
pub struct Unread {
    bytes: Vec<u8>,
    at: usize,
}

impl Model for Unread {
    ghost Value = { List ℕ };

    ghost view = { λ u. drop u.at u.bytes.items };

    ghost invariant = { λ u. u.at ≤ vec_len u.bytes };
}

impl Unread {
    pub fn new(bytes: Vec<u8>) -> Unread
        ensures { result ≡ bytes.items }
    {
        Unread { bytes, at: 0 }
    }

    // Moves as many bytes as there are, and as the piece has room for, to its start.
    fn take_into(&mut self, into: &mut [u8]) -> usize
        ensures count { result ≡ min (length self.old) (length into.old) }
        ensures bytes { into.new ≡ take result self.old ++ drop result into.old }
        ensures left { self.new ≡ drop result self.old }
    {
        let left = self.bytes.len() - self.at;
        let count = left.min(into.len());
        let end = self.at + count;
        into[..count].copy_from_slice(&self.bytes[self.at..end]);
        self.at = end;
        count
    }
}

/// A source in memory. It numbers its calls from 1, and a call fails exactly where `fail` has its
/// number.
#[derive(Drop)]
pub struct MemSource {
    pub rest: Unread,
    pub calls: u64,
    pub fail: Vec<u64>,
    pub faults: u64,
}

impl MemSource {
    pub fn new(bytes: Vec<u8>, fail: Vec<u64>) -> MemSource
        ensures rest { result.rest ≡ bytes.items }
        ensures calls { result.calls ≡ 0 }
        ensures fail { result.fail ≡ fail }
        ensures faults { result.faults ≡ 0 }
    {
        MemSource {
            rest: Unread::new(bytes),
            calls: 0,
            fail,
            faults: 0,
        }
    }
}

impl Source for MemSource {
    ghost use Rattle.std.specs.Prelude.{Some};

    ghost rest = { λ s. Some s.rest };

    ghost faults = { λ s. s.faults };

    fn read(&mut self, into: &mut [u8]) -> Result<usize, Failed>
        ensures fails { IsErr result ↔ Contains self.old.fail.items (next_count self.old.calls) }
        ensures count { IfOk result (λ n. n ≡ min (length self.old.rest) (length into.old)) }
        ensures bytes { IfOk result (λ n. into.new ≡ take n self.old.rest ++ drop n into.old) }
        ensures ok { IfOk result (λ n. self.new ≡ record self.old { rest = drop n self.old.rest; calls = next_count self.old.calls }) }
        ensures err { OnErr result (self.new ≡ record self.old { calls = next_count self.old.calls; faults = next_count self.old.faults }) }

        // What the trait asks, for callers that know only that.
        ensures next { IfOk result (λ n. ReadsNext (Some self.old.rest) into.new n) }
        ensures end { IfOk result (λ n. 0 < length into.old → n ≡ 0 → self.old.rest ≡ []) }
        ensures counted { self.old.faults ≤ self.new.faults }
    {
        count_up(&mut self.calls);
        if is_listed(&self.fail, self.calls) {
            count_up(&mut self.faults);
            return Err(Failed);
        }
        Ok(self.rest.take_into(into))
    }
}

/// A sink in memory with room for so many bytes, of which it takes the memory when it is made. It
/// numbers its calls from 1, and a call fails exactly where `fail` has its number, or where the piece
/// has bytes and no room is left.
#[derive(Drop)]
pub struct MemSink {
    pub written: Vec<u8>,
    pub room: usize,
    pub calls: u64,
    pub fail: Vec<u64>,
    pub faults: u64,
    ghost reserved: { room ≤ vec_capacity written },
    ghost within: { vec_len written ≤ room },
}

impl MemSink {
    pub fn new(alloc: Global, room: usize, fail: Vec<u64>) -> Result<MemSink, AllocError>
        ensures written { IfOk result (λ s. s.written.items ≡ []) }
        ensures room { IfOk result (λ s. s.room ≡ room) }
        ensures calls { IfOk result (λ s. s.calls ≡ 0) }
        ensures fail { IfOk result (λ s. s.fail ≡ fail) }
        ensures faults { IfOk result (λ s. s.faults ≡ 0) }
    {
        Ok(MemSink {
            written: Vec::with_capacity(alloc, room)?,
            room,
            calls: 0,
            fail,
            faults: 0,
        })
    }
}

// Appends bytes for which the room is there.
fn append_within(written: &mut Vec<u8>, bytes: &[u8])
    requires { vec_len written.old + length bytes.now ≤ vec_capacity written.old }
    ensures items { written.new.items ≡ written.old.items ++ bytes.now }
    ensures capacity { vec_capacity written.old ≤ vec_capacity written.new }
{
    match written.extend_from_slice(bytes) {
        Ok(()) => {}
        Err(_) => unreachable!(),
    }
}

impl Sink for MemSink {
    ghost use Rattle.std.specs.Prelude.{Some};

    ghost written = { λ s. Some s.written.items };

    ghost faults = { λ s. s.faults };

    fn write(&mut self, bytes: &[u8]) -> Result<usize, Failed>
        ensures fails { IsErr result ↔ (Contains self.old.fail.items (next_count self.old.calls)
            ⊎ ((0 < length bytes.now) × (vec_len self.old.written ≡ self.old.room))) }
        ensures count { IfOk result (λ n. n ≡ min (length bytes.now) (self.old.room - vec_len self.old.written)) }
        ensures ok { IfOk result (λ n. self.new.written.items ≡ self.old.written.items ++ take n bytes.now) }
        ensures err { OnErr result (self.new.written ≡ self.old.written) }
        ensures calls { self.new.calls ≡ next_count self.old.calls }
        ensures faults { self.new.faults ≡ (if is_err result then next_count self.old.faults else self.old.faults) }
        ensures stays { (self.new.room ≡ self.old.room) × (self.new.fail ≡ self.old.fail) }

        // What the trait asks, for callers that know only that.
        ensures some { IfOk result (λ n. 0 < length bytes.now → 0 < n) }
        ensures counted { self.old.faults ≤ self.new.faults }
    {
        count_up(&mut self.calls);
        let left = self.room - self.written.len();
        if is_listed(&self.fail, self.calls) || (left == 0 && !bytes.is_empty()) {
            count_up(&mut self.faults);
            return Err(Failed);
        }
        let count = left.min(bytes.len());
        append_within(&mut self.written, &bytes[..count]);
        Ok(count)
    }
}
