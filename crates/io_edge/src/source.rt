// Where files are read from.
ghost use Rattle.std.specs.Prelude.{◌≡◌, ◌⊎◌, ◌≤◌, ℕ, Bool, true, false, List, Option, Result, length, drop, OnOk, OnErr, IfOk, IsErr};
ghost use Rattle.std.specs.Io.{ReadsAtMost};
ghost use Rattle.std.specs.Io.KnownBytes.{ReadConsumes, IsAtEnd};
ghost use Rattle.io_edge.specs.Edge.{Rose, IsMissing, OpensAt};
ghost use Rattle.io_edge.specs.declared.failed.Failed.{Failed};

use crate::Failed;

/// Opens files by their names and reads them. One file is open at a time, and none in a new source.
pub trait Source {
    /// The files as pairs of name and bytes, where the source tells them. No call changes them.
    ghost files: { Self → Option (List (List ℕ × List ℕ)) };

    /// The bytes that are still to be read, where the source tells them.
    ghost left: { Self → Option (List ℕ) };

    /// Whether a file is open.
    ghost opened: { Self → Bool };

    /// How often the source has failed, from 0 in a new one. It never falls, and stands still at the end of a `u64`.
    ghost faults: { Self → ℕ };

    /// What one call of `open` may do: the source before it, the name, the answer, the source after it. With
    /// `reads` it lets a contract say which calls were made, and that there were no others.
    ghost opens: { Self → List ℕ → Result (Unit {0}) Failed → Self → Type 0 };

    /// What one call of `read` may do: the source before it, the room of the buffer, the answer, the buffer and
    /// the source after it.
    ghost reads: { Self → ℕ → Result ℕ Failed → List ℕ → Self → Type 0 };

    /// Opens the first file with this name, in place of the one that is open. It fails where the count of failures
    /// rose, or where the source tells its files and none has this name. After a failure no file is open.
    fn open(&mut self, name: &str) -> Result<(), Failed>
        ensures files { files self.new ≡ files self.old }
        ensures count { faults self.old ≤ faults self.new }
        ensures failed { OnErr result (Rose (faults self.old) (faults self.new) ⊎ IsMissing (files self.old) name.now) }
        ensures missing { IsMissing (files self.old) name.now → IsErr result }
        ensures closed { OnErr result ((opened self.new ≡ false) × IsAtEnd (left self.new)) }
        ensures opened { OnOk result (opened self.new ≡ true) }
        ensures bytes { OnOk result (OpensAt (files self.old) name.now (left self.new)) }
        ensures call { opens self.old name.now result self.new };

    /// Reads on from the open file into the front of the buffer. `Ok(0)` into a buffer with room means its end, or
    /// that no file is open. What stands behind the bytes that are counted stays. A failure takes no bytes: what is left
    /// stays, and so does the whole buffer.
    fn read(&mut self, into: &mut [u8]) -> Result<usize, Failed>
        ensures files { files self.new ≡ files self.old }
        ensures opened { opened self.new ≡ opened self.old }
        ensures count { faults self.old ≤ faults self.new }
        ensures failed { OnErr result (Rose (faults self.old) (faults self.new)) }
        ensures closed { opened self.old ≡ false → result ≡ Ok 0 }
        ensures bound { ReadsAtMost result into.new }
        ensures bytes { ReadConsumes (left self.old) (left self.new) result into.new }
        ensures behind { IfOk result (λ n. drop n into.new ≡ drop n into.old) }
        ensures kept { OnErr result (into.new ≡ into.old) }
        ensures call { reads self.old (length into.old) result into.new self.new };
}
