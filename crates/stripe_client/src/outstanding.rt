// The request whose answer is awaited.
ghost use Rattle.std.specs.Prelude.{◌≡◌, Some, None, is_none, IfOk, option_map};
ghost use Rattle.layout_ops.specs.declared.messages.Request.{Request as Sent};
ghost use Rattle.layout_ops.specs.Spelling.{ArgsWritable, EnvelopeWritable};
ghost use Rattle.stripe_client.specs.Outstanding.{request_bytes, request_in};

use layout_ops::{Envelope, Request, write_envelope};
use osd_lists::{Bytes, Memory};
use std::alloc::Global;
use std::marker::Model;

/// The request of which a client awaits the answer, if there is one. It can be sent once more.
#[derive(Drop)]
pub struct Outstanding {
    // As it was sent. A message of another kind counts for none.
    message: Option<Envelope>,
}

impl Model for Outstanding {
    ghost use Rattle.std.specs.Prelude.{Option};
    ghost use Rattle.layout_ops.specs.declared.messages.Request.{Request as Sent};
    ghost use Rattle.stripe_client.specs.Outstanding.{request_in, CanBeSent};

    ghost Value = { Option Sent };

    ghost view = { λ s. request_in s.message };

    ghost invariant = { λ s. CanBeSent s.message };
}

impl Outstanding {
    /// No request.
    pub fn none() -> Self
        ensures { result ≡ None }
    {
        Outstanding { message: None }
    }

    /// That of this request.
    pub fn of(request: Request) -> Self
        requires { ArgsWritable request.args }
        ensures { result ≡ Some request }
    {
        Outstanding {
            message: Some(Envelope::Request(request)),
        }
    }

    /// Whether there is no request.
    pub fn is_none(&self) -> bool
        ensures { result ≡ is_none self.now }
    {
        match &self.message {
            Some(Envelope::Request(_)) => false,
            _ => true,
        }
    }

    /// The sequence number of the request.
    pub fn sequence(&self) -> Option<u32>
        ensures { result ≡ option_map (λ (r : Sent). r.sequence) self.now }
    {
        match &self.message {
            Some(Envelope::Request(request)) => Some(request.sequence),
            _ => None,
        }
    }

    /// The bytes of the request.
    pub fn spelled(&self, alloc: Global) -> Result<Option<Bytes>, Memory>
        ensures { IfOk result (λ b. b ≡ option_map request_bytes self.now) }
    {
        match &self.message {
            Some(envelope) => spelled_request(alloc, envelope),
            None => Ok(None),
        }
    }
}

// The bytes of a message that is a request.
fn spelled_request(alloc: Global, envelope: &Envelope) -> Result<Option<Bytes>, Memory>
    requires { EnvelopeWritable envelope.now }
    ensures { IfOk result (λ b. b ≡ option_map request_bytes (request_in (Some envelope.now))) }
{
    match envelope {
        Envelope::Request(_) => Ok(Some(write_envelope(alloc, envelope)?)),
        _ => Ok(None),
    }
}
