// The system's files and streams. They count their failures, and tell of bytes what the file or the stream tells:
// those of the system tell nothing.
ghost use Rattle.std.specs.Prelude.{◌≡◌, ◌<◌, ◌≤◌, [], Some, false, length, drop, IfOk, OnErr};
ghost use Rattle.std.specs.Io.{ReadsAtMost, WritesAtMost};
ghost use Rattle.std.specs.Io.KnownBytes.{ReadConsumes, WriteAppends};
ghost use Rattle.io_edge.specs.Counts.{next, after_answer};

use crate::{Failed, Sink, Source};
use std::fs::OpenOptions;
use std::io::{Read, Write};
use std::marker::Model;
use std::rt::Files;

// How many bytes one read of a file takes at most.
const PIECE: usize = 4096;

/// Files by their paths. A read takes at most 4,096 bytes. Each call that fails raises the count by one, also an `open` of a path that is not there.
#[derive(Drop)]
pub struct FileSource<R: Files> {
    system: R,
    file: Option<R::File>,
    faults: u64,
}

impl<R: Files> Model for FileSource<R> {
    ghost use Rattle.std.specs.Prelude.{is_some};
    ghost use Rattle.io_edge.specs.Adapters.{FileState, left_of};

    ghost Value = { FileState };

    ghost view = { λ s. record {
      opened = is_some s.file;
      left = left_of R.File.remaining s.file;
      faults = s.faults;
    } };
}

impl<R: Files> FileSource<R> {
    /// A source over the files of `system`, which is the runtime that `main` is given.
    pub fn new(system: R) -> FileSource<R>
        ensures { result ≡ record { opened = false; left = Some []; faults = 0 } }
    {
        FileSource {
            system,
            file: None,
            faults: 0,
        }
    }
}

// Counts one failure more, and answers it.
fn counted(faults: &mut u64) -> Failed
    ensures rises { faults.new ≡ next faults.old }
    ensures count { faults.old ≤ faults.new }
{
    *faults = faults.saturating_add(1);
    Failed
}

// A read of a file, by way of a buffer of its own: a reader may write anywhere in the one that it is lent.
pub(crate) fn read_counted<F: Read>(
    file: &mut F,
    faults: &mut u64,
    into: &mut [u8],
) -> Result<usize, Failed>
    ensures exactly { faults.new ≡ after_answer faults.old result }
    ensures count { faults.old ≤ faults.new }
    ensures bound { ReadsAtMost result into.new }
    ensures bytes { ReadConsumes (F.remaining file.old) (F.remaining file.new) result into.new }
    ensures behind { IfOk result (λ n. drop n into.new ≡ drop n into.old) }
    ensures kept { OnErr result (into.new ≡ into.old) }
{
    let mut piece = [0; PIECE];
    let room = PIECE.min(into.len());
    match file.read(&mut piece[..room]) {
        Ok(count) => {
            into[..count].copy_from_slice(&piece[..count]);
            Ok(count)
        }
        Err(_) => Err(counted(faults)),
    }
}

impl<R: Files> Source for FileSource<R> {
    ghost use Rattle.std.specs.Prelude.{None};

    ghost files = { λ s. None };

    ghost left = { λ s. s.left };

    ghost opened = { λ s. s.opened };

    ghost faults = { λ s. s.faults };

    // The system promises nothing more of a call: all that is said is how the failures are counted.
    ghost opens = { λ old name result new. new.faults ≡ after_answer old.faults result };

    ghost reads = { λ old room result into new. new.faults ≡ after_answer old.faults result };

    fn open(&mut self, name: &str) -> Result<(), Failed> {
        self.file = None;
        match OpenOptions::new().read(true).open(&self.system, name) {
            Ok(file) => {
                self.file = Some(file);
                Ok(())
            }
            Err(_) => Err(counted(&mut self.faults)),
        }
    }

    fn read(&mut self, into: &mut [u8]) -> Result<usize, Failed> {
        match &mut self.file {
            None => Ok(0),
            Some(file) => read_counted(file, &mut self.faults, into),
        }
    }
}

// A write to a stream. Where it takes nothing of a piece that is not empty, that is a fault.
fn write_counted<W: Write>(stream: &mut W, faults: &mut u64, from: &[u8]) -> Result<usize, Failed>
    ensures exactly { faults.new ≡ after_answer faults.old result }
    ensures count { faults.old ≤ faults.new }
    ensures bound { WritesAtMost result from.now }
    ensures progress { IfOk result (λ n. 0 < length from.now → 0 < n) }
    ensures bytes { WriteAppends (W.contents stream.old) (W.contents stream.new) result from.now }
{
    match stream.write(from) {
        Ok(count) if count > 0 || from.is_empty() => Ok(count),
        _ => Err(counted(faults)),
    }
}

/// The standard output. Each call that fails raises the count by one.
#[derive(Drop)]
pub struct OutSink<W: Write> {
    stream: W,
    faults: u64,
}

impl<W: Write> Model for OutSink<W> {
    ghost use Rattle.io_edge.specs.Adapters.{StreamState};

    ghost Value = { StreamState };

    ghost view = { λ s. record { taken = W.contents s.stream; faults = s.faults } };
}

impl<W: Write> OutSink<W> {
    /// A sink over `stream`, which is the runtime's standard output.
    pub fn new(stream: W) -> OutSink<W>
        ensures { result ≡ record { taken = W.contents stream; faults = 0 } }
    {
        OutSink { stream, faults: 0 }
    }
}

impl<W: Write> Sink for OutSink<W> {
    ghost taken = { λ s. s.taken };

    ghost faults = { λ s. s.faults };

    ghost writes = { λ old piece result new. new.faults ≡ after_answer old.faults result };

    fn write(&mut self, from: &[u8]) -> Result<usize, Failed> {
        write_counted(&mut self.stream, &mut self.faults, from)
    }
}

/// The standard error. Each call that fails raises the count by one.
#[derive(Drop)]
pub struct ErrSink<W: Write> {
    stream: W,
    faults: u64,
}

impl<W: Write> Model for ErrSink<W> {
    ghost use Rattle.io_edge.specs.Adapters.{StreamState};

    ghost Value = { StreamState };

    ghost view = { λ s. record { taken = W.contents s.stream; faults = s.faults } };
}

impl<W: Write> ErrSink<W> {
    /// A sink over `stream`, which is the runtime's standard error.
    pub fn new(stream: W) -> ErrSink<W>
        ensures { result ≡ record { taken = W.contents stream; faults = 0 } }
    {
        ErrSink { stream, faults: 0 }
    }
}

impl<W: Write> Sink for ErrSink<W> {
    ghost taken = { λ s. s.taken };

    ghost faults = { λ s. s.faults };

    ghost writes = { λ old piece result new. new.faults ≡ after_answer old.faults result };

    fn write(&mut self, from: &[u8]) -> Result<usize, Failed> {
        write_counted(&mut self.stream, &mut self.faults, from)
    }
}
