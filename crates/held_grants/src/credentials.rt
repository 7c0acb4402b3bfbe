// The components of a layout, each with what opens its object.
ghost use Rattle.std.specs.Prelude.{◌≡◌, IfOk, IfSome, length};
ghost use Rattle.std.specs.Int.{w128, from_be_bytes};
ghost use Rattle.osd_capability.specs.declared.layout.TheConstants.{FORMAT_SHA1, FORMAT_SHA256};
ghost use Rattle.osd_capability.specs.Layout.{reading};
ghost use Rattle.client_rules.specs.Layouts.{drive_of, key_of, listed, with_capability, all_listed, is_secured, any_secured};

use client_rules::{Credential, Listed, MAX_DRIVE};
use layout_types::{KeySecurity, ObjectCred, OsdVersion};
use osd_capability::{CHECK_BYTES, CapKey, Capability, FORMAT_SHA1, SHA1_TAG_BYTES};
use osd_lists::{Memory, Sequence};
use std::alloc::Global;

// A key over SHA-1, where there are as many bytes as it has.
fn sha1_key(bytes: &[u8]) -> Option<CapKey>
    ensures { result ≡ key_of FORMAT_SHA1 bytes.now }
{
    if bytes.len() != SHA1_TAG_BYTES {
        return None;
    }
    let mut key = [0; SHA1_TAG_BYTES];
    key.copy_from_slice(bytes);
    Some(CapKey::One(key))
}

// A key over SHA-256, where there are as many bytes as it has.
fn sha256_key(bytes: &[u8]) -> Option<CapKey>
    ensures { result ≡ key_of FORMAT_SHA256 bytes.now }
{
    if bytes.len() != CHECK_BYTES {
        return None;
    }
    let mut key = [0; CHECK_BYTES];
    key.copy_from_slice(bytes);
    Some(CapKey::Two(key))
}

// The key of a capability of that format, where there are as many bytes as it has.
fn key_of(format: u8, bytes: &[u8]) -> Option<CapKey>
    ensures { result ≡ key_of format bytes.now }
{
    if format == FORMAT_SHA1 {
        sha1_key(bytes)
    } else {
        sha256_key(bytes)
    }
}

// The component of an object on that drive, where its capability can be read and its key fits.
fn opened(cred: &ObjectCred, drive: u32) -> Option<Listed>
    requires { drive ≡ drive_of cred.now.oc_object_id.oid_device_id }
    ensures { result ≡ with_capability cred.now (reading cred.now.oc_capability) }
{
    let capability = match Capability::from_bytes(cred.oc_capability.as_slice()) {
        Ok(capability) => capability,
        Err(_) => return None,
    };
    let key = key_of(capability.format, cred.oc_capability_key.as_slice())?;
    let credential = Credential {
        drive,
        key,
        capability,
    };
    Some(Listed {
        id: cred.oc_object_id,
        credential: Some(credential),
    })
}

/// A component as a client keeps it, `None` exactly where its credential can't be used.
#[tactic(auto, unfolding(client_rules::specs::Layouts::listed))]
pub fn listed(cred: &ObjectCred) -> Option<Listed>
    ensures { result ≡ listed cred.now }
{
    match cred.oc_osd_version {
        OsdVersion::Missing => Some(Listed {
            id: cred.oc_object_id,
            credential: None,
        }),
        OsdVersion::Version1 => None,
        OsdVersion::Version2 => {
            let drive = u128::from_be_bytes(cred.oc_object_id.oid_device_id);
            if drive > u128::from(MAX_DRIVE) {
                return None;
            }
            opened(cred, drive as u32)
        }
    }
}

/// All components of a layout, `None` exactly where the credential of one can't be used.
#[tactic(auto, unfolding(client_rules::specs::Layouts::all_listed))]
pub fn all_listed(alloc: Global, creds: &[ObjectCred]) -> Result<Option<Sequence<Listed>>, Memory>
    ensures value { IfOk result (λ all. all ≡ all_listed creds.now) }
    ensures long { IfOk result (λ all. IfSome all (λ ls. length ls ≡ length creds.now)) }
{
    let mut all = Sequence::new(alloc);
    for cred in creds {
        match listed(cred) {
            Some(component) => all.push(component)?,
            None => return Ok(None),
        }
    }
    Ok(Some(all))
}

/// Whether the key of some component isn't in clear.
pub fn any_secured(creds: &[ObjectCred]) -> bool
    ensures { result ≡ any_secured creds.now }
{
    for cred in creds {
        if let KeySecurity::Ssv = cred.oc_cap_key_sec {
            return true;
        }
    }
    false
}
