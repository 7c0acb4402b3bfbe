ghost use Rattle.std.specs.Prelude.{◌≡◌, ℕ, List, [], ◌++◌};
ghost use Rattle.sha1.specs.Sha1.{sha1};
ghost use Rattle.hmac_tags.specs.Mac.{hmac_sha1, key_of, zero_filled};

use crate::block::{BLOCK, INNER_PAD, OUTER_PAD, filled, xored};
use sha1::Sha1;

// The block of a key. One that is longer than a block is replaced by its hash.
fn key_block(key: &[u8]) -> [u8; BLOCK]
    ensures { result ≡ zero_filled (key_of sha1 key.now) }
{
    if key.len() > BLOCK {
        filled(&Sha1::digest(key))
    } else {
        filled(key)
    }
}

// The same hash in the making once more. It takes no memory, so it can't fail.
fn copy_of(state: &Sha1) -> Sha1
    ensures { result ≡ state.now }
{
    match state.clone() {
        Ok(copy) => copy,
        Err(_) => unreachable!(),
    }
}

/// A key of HMAC-SHA1 (RFC 2104), made ready once for many texts: the hashes of its two pads, with
/// which each tag begins.
#[derive(Clone, Drop)]
pub struct HmacKey {
    inner: Sha1,
    outer: Sha1,
}

impl HmacKey {
    ghost use Rattle.hmac_tags.specs.InTheMaking.{Holds, IsKeyed};

    /// Takes a key of any length.
    pub fn new(key: &[u8]) -> Self
        ensures { IsKeyed result key.now }
    {
        let block = key_block(key);
        let mut inner = Sha1::new();
        inner.update(&xored(&block, INNER_PAD));
        let mut outer = Sha1::new();
        outer.update(&xored(&block, OUTER_PAD));
        HmacKey { inner, outer }
    }

    /// Begins a tag under the key, with the empty text.
    pub fn begin(&self) -> Hmac
        ensures { (key : List ℕ) → IsKeyed self.now key → Holds result key [] }
    {
        Hmac {
            inner: copy_of(&self.inner),
            outer: copy_of(&self.outer),
        }
    }
}

/// HMAC-SHA1 (RFC 2104) in the making: the text comes in pieces.
#[derive(Drop)]
pub struct Hmac {
    inner: Sha1,
    outer: Sha1,
}

impl Hmac {
    ghost use Rattle.hmac_tags.specs.InTheMaking.{Holds};

    /// Begins with a key of any length and the empty text.
    pub fn new(key: &[u8]) -> Self
        ensures { Holds result key.now [] }
    {
        let HmacKey { inner, outer } = HmacKey::new(key);
        Hmac { inner, outer }
    }

    /// Goes on with the text.
    pub fn update(&mut self, bytes: &[u8])
        ensures { (key text : List ℕ) → Holds self.old key text → Holds self.new key (text ++ bytes.now) }
    {
        self.inner.update(bytes);
    }

    /// The tag of the whole text under the key.
    pub fn finish(self) -> [u8; 20]
        ensures { (key text : List ℕ) → Holds self key text → result ≡ hmac_sha1 key text }
    {
        let Hmac { inner, outer } = self;
        let first = inner.finalize();
        let mut last = outer;
        last.update(&first);
        last.finalize()
    }
}
