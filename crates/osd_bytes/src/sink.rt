ghost use Rattle.std.specs.Prelude.{◌≡◌, ◌<◌, ℕ, List, length, Option, IfOk};
ghost use Rattle.std.specs.Io.{WritesAtMost};
ghost use Rattle.std.specs.Io.KnownBytes.{WriteAppends};
ghost use Rattle.osd_bytes.specs.Causes.{HasCause};

use crate::source::Fault;

/// Where bytes go.
pub trait Sink {
    /// The bytes that were taken, where the sink tells that.
    ghost taken: { Self → Option (List ℕ) };

    /// How many calls failed. The count never falls, and stays at its greatest number.
    ghost faults: { Self → ℕ };

    /// Which loan of a lent value this is, as at a source.
    ghost loan: { Self → ℕ } = { λ _. 0 };

    /// Takes some of the bytes from their front, at least one where there is one.
    ///
    /// A [`Fault`] comes only where the count of faults rose.
    fn put(&mut self, bytes: &[u8]) -> Result<usize, Fault>
        ensures bound { WritesAtMost result bytes.now }
        ensures some { IfOk result (λ n. 0 < length bytes.now → 0 < n) }
        ensures bytes { WriteAppends (taken self.old) (taken self.new) result bytes.now }
        ensures cause { HasCause (faults self.old) (faults self.new) result }
        ensures loan { loan self.new ≡ loan self.old };
}
