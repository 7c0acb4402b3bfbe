ghost use Rattle.std.specs.Prelude.{◌≡◌, ◌++◌, ◌↔◌, ℕ, List, IsTrue};
ghost use Rattle.osd_capability.specs.Keys.{check_of, format_of, key_of};
ghost use Rattle.osd_commands.specs.Commands.{head, Holds, IsCheck};

use crate::commands::{BLOCK, Command, check_len, head_of};
use osd_capability::{CHECK_BYTES, CapKey, DRIVE_KEY_BYTES, SealingKey, capability_key};

// The check value of a command under a key.
fn check_under(key: &SealingKey, c: &Command) -> [u8; CHECK_BYTES]
    ensures { result ≡ check_of key.now (head c.now ++ c.now.payload) }
{
    let size = check_len(c.capability.format);
    key.check_value(&head_of(c)[..BLOCK - size], c.payload.as_slice())
}

/// Gives a command its check value under the key of its capability (RFC 2104). The key must be of
/// the capability's format.
pub fn seal(c: &mut Command, cap_key: &CapKey)
    requires { format_of cap_key.now ≡ c.old.capability.format }
    ensures sealed { c.new ≡ record c.old { check = check_of cap_key.now (head c.old ++ c.old.payload) } }

    // Under the drive's key that the capability's was made with, the check value is right.
    ensures holds { (key : List ℕ) → cap_key.now ≡ key_of key c.old.capability → Holds key c.new }
    ensures check { IsCheck c.new.capability.format c.new.check }
{
    c.check = check_under(&SealingKey::new(cap_key), c);
}

/// As [`seal`], with a key that was made ready once for many commands.
pub fn seal_with(c: &mut Command, cap_key: &SealingKey)
    requires { format_of cap_key.now ≡ c.old.capability.format }
    ensures sealed { c.new ≡ record c.old { check = check_of cap_key.now (head c.old ++ c.old.payload) } }
    ensures holds { (key : List ℕ) → cap_key.now ≡ key_of key c.old.capability → Holds key c.new }
    ensures check { IsCheck c.new.capability.format c.new.check }
{
    c.check = check_under(cap_key, c);
}

/// Whether the check value of a command is the one that the drive's key gives.
pub fn holds(key: &[u8; DRIVE_KEY_BYTES], c: &Command) -> bool
    ensures { IsTrue result ↔ Holds key.now c.now }
{
    holds_with(&SealingKey::new(&capability_key(key, &c.capability)), c)
}

/// Whether the check value of a command is the one that this key gives, which was made ready once for
/// many commands.
pub fn holds_with(cap_key: &SealingKey, c: &Command) -> bool
    ensures check { IsTrue result ↔ (c.now.check ≡ check_of cap_key.now (head c.now ++ c.now.payload)) }

    // Of the capability's key it tells what [`holds`] tells.
    ensures holds { (key : List ℕ) → cap_key.now ≡ key_of key c.now.capability → (IsTrue result ↔ Holds key c.now) }
{
    let check = check_under(cap_key, c);
    check.as_slice() == c.check.as_slice()
}
