// A source whose text is kept, so that a person can be shown a place in it.
ghost use Rattle.std.specs.Prelude.{◌≡◌};

use osd_bytes::{Fault, Source};
use osd_lists::Bytes;
use std::alloc::Global;

/// The most bytes that [`Kept`] keeps: 1 MiB. A longer text isn't kept at all.
pub const KEPT_BYTES: usize = 1_048_576;

/// A source that keeps what came of it.
#[derive(Drop)]
pub struct Kept<S> {
    inner: S,
    bytes: Bytes,
    is_whole: bool,
}

impl<S> Kept<S> {
    /// The source, of which nothing came yet.
    pub fn new(alloc: Global, inner: S) -> Self {
        Kept {
            inner,
            bytes: Bytes::new(alloc),
            is_whole: true,
        }
    }

    /// All that came, where it isn't longer than [`KEPT_BYTES`] and there was memory for it.
    pub fn bytes(&self) -> Option<&[u8]> {
        if self.is_whole {
            Some(self.bytes.as_slice())
        } else {
            None
        }
    }

    // Keeps these bytes too.
    fn keep(&mut self, came: &[u8])
        ensures { self.new.inner ≡ self.old.inner }
    {
        let has_room = came.len() <= KEPT_BYTES.saturating_sub(self.bytes.len());
        if self.is_whole && has_room && self.bytes.extend_from_slice(came).is_ok() {
            return;
        }
        self.is_whole = false;
    }
}

impl<S: Source> Source for Kept<S> {
    ghost left = { λ s. S.left s.inner };

    ghost faults = { λ s. S.faults s.inner };

    ghost loan = { λ s. S.loan s.inner };

    fn take(&mut self, buf: &mut [u8]) -> Result<usize, Fault> {
        match self.inner.take(buf) {
            Ok(count) => {
                let (came, _) = buf.split_at(count);
                self.keep(came);
                Ok(count)
            }
            Err(fault) => Err(fault),
        }
    }
}
