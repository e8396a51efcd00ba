// Where bytes are written to.
ghost use Rattle.std.specs.Prelude.{◌≡◌, ◌≤◌, ◌<◌, ℕ, List, Option, Result, length, OnErr, IfOk};
ghost use Rattle.std.specs.Io.{WritesAtMost};
ghost use Rattle.std.specs.Io.KnownBytes.{WriteAppends};
ghost use Rattle.io_edge.specs.Edge.{Rose};
ghost use Rattle.io_edge.specs.declared.failed.Failed.{Failed};

use crate::Failed;

/// Takes bytes.
pub trait Sink {
    /// The bytes that it took, where it tells them.
    ghost taken: { Self → Option (List ℕ) };

    /// How often it has failed, from 0 in a new one. It never falls, and stands still at the end of a `u64`.
    ghost faults: { Self → ℕ };

    /// What one call of `write` may do: the sink before it, the piece, the answer, the sink after it. So a
    /// contract can say which calls were made, and that none came behind a failed one.
    ghost writes: { Self → List ℕ → Result ℕ Failed → Self → Type 0 };

    /// Takes bytes from the front of the piece, at least one where there is one, and answers how many. A failure
    /// takes none.
    fn write(&mut self, from: &[u8]) -> Result<usize, Failed>
        ensures count { faults self.old ≤ faults self.new }
        ensures failed { OnErr result (Rose (faults self.old) (faults self.new)) }
        ensures bound { WritesAtMost result from.now }
        ensures progress { IfOk result (λ n. 0 < length from.now → 0 < n) }
        ensures bytes { WriteAppends (taken self.old) (taken self.new) result from.now }
        ensures call { writes self.old from.now result self.new };
}
