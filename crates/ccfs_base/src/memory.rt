//! A source and a sink in memory, with one call that fails where that is wanted.
ghost use Rattle.std.specs.Prelude.{◌≡◌, ◌↔◌, ◌<◌, ◌≤◌, ◌-◌, ◌^◌, ℕ, List, [], ◌++◌, length, take, drop, min, IfOk, OnOk, OnErr};
ghost use Rattle.fault_counts.specs.Counts.{raised, HasCause};

use super::buffer::Bytes;
use super::edges::{Sink, SinkFailed, Source, SourceFailed};
use fault_counts::raised_count;
use std::alloc::Global;
use std::marker::Model;

/// A source that gives bytes in memory. Where it is told to, one call of it fails.
#[derive(Debug, Drop)]
pub struct MemSource {
    bytes: Bytes,
    place: usize,
    most: usize,
    fails: Option<u64>,
    calls: u64,
    faults: u64,
}

impl Model for MemSource {
    ghost use Rattle.std.specs.Prelude.{◌≤◌, length, take, drop};
    ghost use Rattle.ccfs_base.specs.Memory.{SourceNow};

    ghost Value = { SourceNow };

    ghost view = { λ s. record { given = take s.place s.bytes; left = drop s.place s.bytes; most = s.most; fails = s.fails; calls = s.calls; faults = s.faults } };

    ghost invariant = { λ s. (s.place ≤ length s.bytes) × (1 ≤ s.most) };
}

impl MemSource {
    /// A source that gives these bytes. `fails` is the number, from 1, of the one call that fails.
    pub fn new(bytes: Bytes, fails: Option<u64>) -> MemSource
        ensures { result ≡ record { given = []; left = bytes; most = usize.MAX; fails = fails; calls = 0; faults = 0 } }
    {
        MemSource::in_pieces(bytes, usize::MAX, fails)
    }

    /// The same, with at most `most` bytes in a call.
    pub fn in_pieces(bytes: Bytes, most: usize, fails: Option<u64>) -> MemSource
        requires { 1 ≤ most }
        ensures { result ≡ record { given = []; left = bytes; most = most; fails = fails; calls = 0; faults = 0 } }
    {
        MemSource {
            bytes,
            place: 0,
            most,
            fails,
            calls: 0,
            faults: 0,
        }
    }

    /// Its count of faults.
    pub fn faults(&self) -> u64
        ensures { result ≡ self.now.faults }
    {
        self.faults
    }
}

impl Source for MemSource {
    ghost use Rattle.ccfs_base.specs.Memory.{SourceEnds};

    ghost tells = { Unit {0} };

    ghost given = { λ s. s.given };

    ghost left = { λ s. s.left };

    ghost faults = { λ s. s.faults };

    fn read(&mut self, into: &mut [u8]) -> Result<usize, SourceFailed>
        requires { 0 < length into.old }
        ensures count { IfOk result (λ n. n ≤ length into.old) }
        ensures size { IfOk result (λ n. n ≡ min (length self.old.left) (min (length into.old) self.old.most)) }
        ensures given { IfOk result (λ n. self.new.given ≡ self.old.given ++ take n into.new) }
        ensures left { IfOk result (λ n. self.old.left ≡ take n into.new ++ self.new.left) }
        ensures end { IfOk result (λ n. (n ≡ 0) ↔ (self.old.left ≡ [])) }
        ensures rest { IfOk result (λ n. drop n into.new ≡ drop n into.old) }
        ensures nothing { OnErr result ((self.new.given ≡ self.old.given) × (self.new.left ≡ self.old.left) × (into.new ≡ into.old)) }
        ensures cause { HasCause self.old.faults self.new.faults result }
        ensures steady { OnOk result (self.new.faults ≡ self.old.faults) }
        ensures ends { SourceEnds self.old self.new result }
        ensures counted { self.new.calls ≡ raised self.old.calls }
        ensures plan { (self.new.fails ≡ self.old.fails) × (self.new.most ≡ self.old.most) }
    {
        self.calls = raised_count(self.calls);
        if self.fails == Some(self.calls) {
            self.faults = raised_count(self.faults);
            return Err(SourceFailed);
        }
        let rest = &self.bytes.all()[self.place..];
        let count = rest.len().min(into.len().min(self.most));
        into[..count].copy_from_slice(&rest[..count]);
        self.place += count;
        Ok(count)
    }
}

/// A sink that holds what is written to it in memory. Where it is told to, one call of it fails.
#[derive(Debug, Drop)]
pub struct MemSink {
    held: Bytes,
    most: usize,
    fails: Option<u64>,
    calls: u64,
    faults: u64,
    starved: u64,
}

impl Model for MemSink {
    ghost use Rattle.std.specs.Prelude.{◌≤◌};
    ghost use Rattle.ccfs_base.specs.Memory.{SinkNow};

    ghost Value = { SinkNow };

    ghost view = { λ s. record { held = s.held; most = s.most; fails = s.fails; calls = s.calls; faults = s.faults; starved = s.starved } };

    ghost invariant = { λ s. 1 ≤ s.most };
}

impl MemSink {
    /// A sink that holds nothing. `fails` is the number, from 1, of the one call that fails. It takes no memory.
    pub fn new(alloc: Global, fails: Option<u64>) -> MemSink
        ensures { result ≡ record { held = []; most = usize.MAX; fails = fails; calls = 0; faults = 0; starved = 0 } }
    {
        MemSink::in_pieces(alloc, usize::MAX, fails)
    }

    /// The same, with at most `most` bytes in a call.
    pub fn in_pieces(alloc: Global, most: usize, fails: Option<u64>) -> MemSink
        requires { 1 ≤ most }
        ensures { result ≡ record { held = []; most = most; fails = fails; calls = 0; faults = 0; starved = 0 } }
    {
        MemSink {
            held: Bytes::new(alloc),
            most,
            fails,
            calls: 0,
            faults: 0,
            starved: 0,
        }
    }

    /// What it holds.
    pub fn held(&self) -> &[u8]
        ensures { result.now ≡ self.now.held }
    {
        self.held.all()
    }

    /// Its count of faults.
    pub fn faults(&self) -> u64
        ensures { result ≡ self.now.faults }
    {
        self.faults
    }

    /// The calls that found no memory and appended nothing.
    pub fn starved(&self) -> u64
        ensures { result ≡ self.now.starved }
    {
        self.starved
    }
}

impl Sink for MemSink {
    ghost use Rattle.ccfs_base.specs.Memory.{SinkEnds};

    ghost tells = { Unit {0} };

    ghost held = { λ s. s.held };

    ghost faults = { λ s. s.faults };

    fn write(&mut self, bytes: &[u8]) -> Result<usize, SinkFailed>
        requires { 0 < length bytes.now }
        ensures count { IfOk result (λ n. (1 ≤ n) × (n ≤ length bytes.now)) }
        ensures size { IfOk result (λ n. n ≡ min (length bytes.now) self.old.most) }
        ensures put { IfOk result (λ n. self.new.held ≡ self.old.held ++ take n bytes.now) }
        ensures nothing { OnErr result (self.new.held ≡ self.old.held) }
        ensures cause { HasCause self.old.faults self.new.faults result }
        ensures steady { OnOk result (self.new.faults ≡ self.old.faults) }
        ensures ends { SinkEnds self.old self.new result }
        ensures counted { self.new.calls ≡ raised self.old.calls }
        ensures plan { (self.new.fails ≡ self.old.fails) × (self.new.most ≡ self.old.most) }
    {
        self.calls = raised_count(self.calls);
        if self.fails == Some(self.calls) {
            self.faults = raised_count(self.faults);
            return Err(SinkFailed);
        }
        let count = bytes.len().min(self.most);
        if self.held.append(&bytes[..count]).is_err() {
            self.faults = raised_count(self.faults);
            self.starved = raised_count(self.starved);
            return Err(SinkFailed);
        }
        Ok(count)
    }
}
