ghost use Rattle.std.specs.Prelude.{◌≡◌, ◌<◌, length, position, nat_eq, IfSome};
ghost use Rattle.osd_drive.specs.State.{key_of_version};

use osd_lists::Sequence;

/// A key that a drive shares with the server.
#[derive(Clone, Copy, PartialEq, Eq)]
pub struct DriveKey {
    /// The number by which a capability names it.
    pub version: u16,
    pub key: [u8; 20],
}

/// The keys of a drive. Their versions differ; were two the same, the first would count.
pub type KeyTable = Sequence<DriveKey>;

// The place of the key of a version.
fn place_in(keys: &[DriveKey], version: u16) -> Option<usize>
    ensures place { result ≡ position (λ k. nat_eq k.version version) keys.now }
    ensures bound { IfSome result (λ i. i < length keys.now) }
{
    keys.iter().position(|key| key.version == version)
}

/// The key of a version.
pub fn key_in(keys: &[DriveKey], version: u16) -> Option<DriveKey>
    ensures { result ≡ key_of_version keys.now version }
{
    match place_in(keys, version) {
        Some(i) => Some(keys[i]),
        None => None,
    }
}
