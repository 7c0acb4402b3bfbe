ghost use Rattle.std.specs.Prelude.{◌≡◌, ◌↔◌, IsTrue, Some};
ghost use Rattle.osd_commands.specs.Commands.{Holds};
ghost use Rattle.osd_drive.specs.Known.{known};
ghost use Rattle.osd_drive.specs.Table.{is_checked};

use crate::keys::DriveKey;
use osd_capability::{Capability, IssuingKey, SealingKey};
use osd_commands::{Command, holds, holds_with};
use std::marker::Model;

/// A capability whose key, under a key of the drive, was made and made ready for check values. A holder
/// sends many commands with one capability, so the drive keeps the last one so; and it keeps its own key ready
/// for the next one.
#[derive(Drop)]
pub struct KnownCapability {
    drive_key: IssuingKey,
    capability: Capability,
    sealing: SealingKey,
}

impl Model for KnownCapability {
    ghost use Rattle.std.specs.Prelude.{◌≡◌};
    ghost use Rattle.osd_capability.specs.Keys.{key_of};
    ghost use Rattle.osd_drive.specs.Known.{Known};

    ghost Value = { Known };

    ghost view = { λ k. record { key = k.drive_key; capability = k.capability } };

    ghost invariant = { λ k. k.sealing ≡ key_of k.drive_key k.capability };
}

impl KnownCapability {
    /// Makes a capability's key under a drive's key, and makes it ready.
    pub fn new(key: &DriveKey, capability: &Capability) -> Self
        ensures { result ≡ known key.now capability.now }
    {
        KnownCapability::under(IssuingKey::new(&key.key), capability)
    }

    // Makes a capability's key under a drive's key that is ready.
    fn under(drive_key: IssuingKey, capability: &Capability) -> Self
        ensures key { result.key ≡ drive_key }
        ensures capability { result.capability ≡ capability.now }
    {
        let sealing = SealingKey::new(&drive_key.capability_key(capability));
        KnownCapability {
            drive_key,
            capability: *capability,
            sealing,
        }
    }

    /// The same of another capability. If that is under the same key of the drive, the drive's key stays ready.
    pub fn followed_by(self, key: &DriveKey, capability: &Capability) -> Self
        ensures { result ≡ known key.now capability.now }
    {
        let KnownCapability { drive_key, .. } = self;
        if drive_key.is_of(&key.key) {
            KnownCapability::under(drive_key, capability)
        } else {
            KnownCapability::new(key, capability)
        }
    }

    // Whether it is this capability under this key.
    fn is_of(&self, key: &DriveKey, capability: &Capability) -> bool
        ensures { IsTrue result ↔ (self.now ≡ known key.now capability.now) }
    {
        self.drive_key.is_of(&key.key) && self.capability == *capability
    }

    // Whether the check value of a command with this capability is right.
    fn holds(&self, c: &Command) -> bool
        requires { self.now.capability ≡ c.now.capability }
        ensures { IsTrue result ↔ Holds self.now.key c.now }
    {
        holds_with(&self.sealing, c)
    }
}

/// Whether a capability under a key is the known one.
pub fn is_known(last: &Option<KnownCapability>, key: &DriveKey, capability: &Capability) -> bool
    ensures { IsTrue result ↔ (last.now ≡ Some (known key.now capability.now)) }
{
    match last {
        Some(last) => last.is_of(key, capability),
        None => false,
    }
}

// The same as `is_checked` beside a known capability.
fn is_checked_beside(last: &KnownCapability, key: &DriveKey, c: &Command) -> bool
    ensures { IsTrue result ↔ Holds key.now.key c.now }
{
    if last.is_of(key, &c.capability) {
        last.holds(c)
    } else {
        holds(&key.key, c)
    }
}

/// Whether the check value of a command is the one that a key gives. Where its capability is the known one,
/// neither its key is made nor made ready.
pub fn is_checked(last: &Option<KnownCapability>, key: &DriveKey, c: &Command) -> bool
    ensures row { result ≡ is_checked key.now.key c.now }
    ensures law { IsTrue result ↔ Holds key.now.key c.now }
{
    match last {
        Some(last) => is_checked_beside(last, key, c),
        None => holds(&key.key, c),
    }
}
