// A source over memory.
ghost use Rattle.std.specs.Prelude.{◌≡◌, ◌≤◌, ◌<◌, ◌++◌, [], ◌∷◌, false, length, take, min, OnOk, OnErr, MatchOption, Some, None};
ghost use Rattle.io_edge.specs.Edge.{bytes_named};
ghost use Rattle.io_edge.specs.Memory.{Opens, Reads};
ghost use Rattle.io_edge.specs.Stored.{contents, bytes_at, KeepsBehind};

use crate::stored::StoredFile;
use crate::{Failed, Source};
use lists::NoMemory;
use std::alloc::Global;
use std::marker::Model;

/// A source over files in memory, whose calls `open` and `read` take no memory. They are numbered together from 0,
/// and all from number 18446744073709551615 on have this number.
///
/// An `open` fails where its number is one that is to fail, or where no file has the name; only the first is counted.
/// A `read` fails where a file is open and its number is one that is to fail. Else it gives the least of `most`, the
/// buffer's length and the number of bytes left.
#[derive(Drop)]
pub struct MemorySource {
    alloc: Global,
    files: Vec<StoredFile>,
    failing: Vec<u64>,
    calls: u64,
    most: usize,
    place: Option<usize>,
    from: usize,
    faults: u64,
}

impl Model for MemorySource {
    ghost use Rattle.io_edge.specs.Memory.{SourceState};

    ghost Value = { SourceState };

    ghost use Rattle.std.specs.Prelude.{◌≤◌, is_some};
    ghost use Rattle.io_edge.specs.Stored.{contents, rest_of, IsPlace};

    ghost view = { λ s. record {
      files = contents s.files.items;
      failing = s.failing.items;
      calls = s.calls;
      most = s.most;
      opened = is_some s.place;
      left = rest_of (contents s.files.items) s.place s.from;
      faults = s.faults;
    } };

    ghost invariant = { λ s. IsPlace (contents s.files.items) s.place s.from × (1 ≤ s.most) };
}

impl MemorySource {
    /// No file, no failing call, nothing left to read.
    pub fn new(alloc: Global) -> MemorySource
        ensures { result ≡ record { files = []; failing = []; calls = 0; most = usize.MAX; opened = false; left = []; faults = 0 } }
    {
        MemorySource {
            alloc,
            files: Vec::new(alloc),
            failing: Vec::new(alloc),
            calls: 0,
            most: usize::MAX,
            place: None,
            from: 0,
            faults: 0,
        }
    }

    /// One more file, after the others. An earlier one with the same name is the one that `open` finds.
    pub fn add(&mut self, name: &str, bytes: &[u8]) -> Result<(), NoMemory>
        ensures ok { OnOk result (self.new ≡ record self.old { files = self.old.files ++ (name.now, bytes.now) ∷ [] }) }
        ensures err { OnErr result (self.new ≡ self.old) }
    {
        let file = StoredFile::new(self.alloc, name, bytes)?;
        self.files.push(file)?;
        Ok(())
    }

    /// The call with this number is to fail, unless it is a `read` while no file is open.
    pub fn fail_at(&mut self, call: u64) -> Result<(), NoMemory>
        ensures ok { OnOk result (self.new ≡ record self.old { failing = self.old.failing ++ call ∷ [] }) }
        ensures err { OnErr result (self.new ≡ self.old) }
    {
        self.failing.push(call)?;
        Ok(())
    }

    /// From here on a `read` gives at most n bytes. Without this call there is no bound.
    pub fn most(&mut self, n: usize)
        requires { 1 ≤ n }
        ensures { self.new ≡ record self.old { most = n } }
    {
        self.most = n;
    }
}

// Where the first file with this name stands.
fn place_of(files: &[StoredFile], name: &str) -> Option<usize>
    ensures { MatchOption result (bytes_named (contents files.now) name.now ≡ None)
        (λ place. (place < length files.now) × (bytes_named (contents files.now) name.now ≡ Some (bytes_at (contents files.now) place))) }
{
    for place in 0..files.len() {
        if files[place].name.as_str() == name {
            return Some(place);
        }
    }
    None
}

// Copies as much as fits, and at most `most` bytes, to the front of a buffer.
fn copy_front(rest: &[u8], into: &mut [u8], most: usize) -> usize
    ensures count { result ≡ min most (min (length into.old) (length rest.now)) }
    ensures bytes { take result into.new ≡ take result rest.now }
    ensures behind { KeepsBehind result into.old into.new }
{
    let count = most.min(into.len()).min(rest.len());
    into[..count].copy_from_slice(&rest[..count]);
    count
}

impl Source for MemorySource {
    ghost files = { λ s. Some s.files };

    ghost left = { λ s. Some s.left };

    ghost opened = { λ s. s.opened };

    ghost faults = { λ s. s.faults };

    ghost opens = { Opens };

    ghost reads = { Reads };

    fn open(&mut self, name: &str) -> Result<(), Failed> {
        let call = self.calls;
        self.calls = call.saturating_add(1);
        self.place = None;
        self.from = 0;
        if self.failing.contains(&call) {
            self.faults = self.faults.saturating_add(1);
            return Err(Failed);
        }
        self.place = place_of(&self.files, name);
        if self.place.is_none() {
            Err(Failed)
        } else {
            Ok(())
        }
    }

    fn read(&mut self, into: &mut [u8]) -> Result<usize, Failed> {
        let call = self.calls;
        self.calls = call.saturating_add(1);
        let Some(place) = self.place else {
            return Ok(0);
        };
        if self.failing.contains(&call) {
            self.faults = self.faults.saturating_add(1);
            return Err(Failed);
        }
        let count = copy_front(&self.files[place].bytes[self.from..], into, self.most);
        self.from += count;
        Ok(count)
    }
}
