// The lengths that objects told.
ghost use Rattle.std.specs.Prelude.{◌≡◌, ◌≤◌, ◌*◌, length, IfOk};
ghost use Rattle.data_map.specs.declared.check.TheConstants.{MAX_COMPONENTS};
ghost use Rattle.server_rules.specs.declared.limits.TheConstants.{MAX_OBJECT_LENGTH};
ghost use Rattle.server_rules.specs.Audit.{length_in, lengths_of, present_lengths};
ghost use Rattle.stripe_repair.specs.Lengths.{length_of, AreLengths};

use osd_lists::{Memory, Sequence, u64_at};
use server_rules::{Component, Heard, MAX_OBJECT_LENGTH, Measured};
use std::alloc::Global;

// Eight bytes with a length that an object may have, else 0.
#[tactic(auto, unfolding(server_rules::specs::Audit::length_in))]
fn length_in(bytes: &[u8]) -> u64
    ensures { result ≡ length_in bytes.now }
{
    if bytes.len() == 8 && u64_at(bytes, 0) <= MAX_OBJECT_LENGTH {
        return u64_at(bytes, 0);
    }
    0
}

// The lengths that the replies carry.
pub(crate) fn lengths_of(alloc: Global, heard: &[Heard]) -> Result<Sequence<Measured>, Memory>
    ensures { IfOk result (λ ms. ms ≡ lengths_of heard.now) }
{
    let mut lengths = Sequence::new(alloc);
    for reply in heard {
        lengths.push(Measured {
            component: reply.component,
            length: length_in(reply.payload.as_slice()),
        })?;
    }
    Ok(lengths)
}

// The length that a component's object told, summed up where it told several.
fn length_of(lengths: &[Measured], component: u32) -> u64
    requires { AreLengths lengths.now }
    ensures value { result ≡ length_of lengths.now component }
    ensures bound { result ≤ MAX_COMPONENTS * MAX_OBJECT_LENGTH }
{
    let mut sum = 0u64;
    for measured in lengths {
        if measured.component == component {
            sum += measured.length;
        }
    }
    sum
}

// The lengths of the components that are still present.
#[tactic(auto, unfolding(server_rules::specs::Audit::present_lengths))]
pub(crate) fn present_lengths(lengths: &[Measured], components: &[Component]) -> u64
    requires lengths { AreLengths lengths.now }
    requires few { length components.now ≤ MAX_COMPONENTS }
    ensures { result ≡ present_lengths lengths.now components.now 0 }
{
    let mut sum = 0u64;
    let mut k = 0u32;
    for at in components {
        if !at.missing {
            sum += length_of(lengths, k);
        }
        k += 1;
    }
    sum
}
