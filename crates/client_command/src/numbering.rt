// How a client learns a number that no request had.
//
// A process before it may have been stopped, and a request of it may be under way still with the number that the server
// expects. So that number is used up on a request that does nothing: after the answer to it, no request of an earlier
// process has a number that is still to come.
ghost use Rattle.std.specs.Prelude.{◌≡◌, ◌<◌, Some, IfOk, OnErr};
ghost use Rattle.cluster_text.specs.Peers.{KeepsAddresses};
ghost use Rattle.layout_ops.specs.Reading.{envelope_of};
ghost use Rattle.client_command.specs.OnLinks.{links_at};
ghost use Rattle.client_command.specs.Numbering.{AsksNothing, CutsFinding, CutsNothing, Finds, after};
ghost use Rattle.client_command.specs.Numbering.{null_message, said_by, said_read, said_to, used_by};
ghost use Rattle.client_command.specs.declared.numbering.NullAnswer.{NullAnswer};

use client_rules::GREATEST_SEQUENCE;
use held_grants::get_args;
use layout_ops::{
    Answer, Envelope, LayoutGetResult, NFS4ERR_NOENT, NFS4ERR_SEQ_MISORDERED, OpErr, Request,
    Results, read_envelope, write_envelope,
};
use osd_bytes::{Links, asked};
use osd_lists::{Bytes, Memory, Node};
use reply_matching::is_answer_to;
use std::alloc::Global;
use stripe_client::CallOp;

// A file that no server has.
const NO_FILE: u32 = 4_294_967_295;

// A number that no server expects: the numbers of requests begin with 1.
const NO_NUMBER: u32 = 0;

// What the server says to a request that does nothing.
#[derive(Clone, Copy)]
enum NullAnswer {
    // It took the request's number.
    Taken,
    // It expects this number.
    Expects(u32),
    // It gave no answer, or one that says neither.
    Unknown,
}

/// The number after one that is used up; the greatest again after that, under which no call is taken.
pub(crate) fn after(used: u32) -> u32
    ensures value { result ≡ after used }
    ensures bound { 0 < result }
{
    if used < GREATEST_SEQUENCE {
        used + 1
    } else {
        GREATEST_SEQUENCE
    }
}

// The request that does nothing: it asks for a layout of a file that nobody has.
fn null_message(alloc: Global, client: u32, sequence: u32) -> Result<Bytes, Memory>
    ensures { IfOk result (λ message. message ≡ null_message client sequence) }
{
    let read = CallOp::Read {
        file: NO_FILE,
        offset: 0,
        length: 1,
    };
    write_envelope(
        alloc,
        &Envelope::Request(Request {
            client,
            sequence,
            file: NO_FILE,
            args: get_args(&read),
        }),
    )
}

fn said_by(answer: &Answer) -> NullAnswer
    ensures { result ≡ said_by answer.now.detail answer.now.results }
{
    match &answer.results {
        Results::LayoutGet(LayoutGetResult::Refused { status }) => {
            if *status == NFS4ERR_NOENT {
                NullAnswer::Taken
            } else if *status == NFS4ERR_SEQ_MISORDERED {
                NullAnswer::Expects(answer.detail)
            } else {
                NullAnswer::Unknown
            }
        }
        _ => NullAnswer::Unknown,
    }
}

fn said_read(alloc: Global, came: &[u8]) -> Result<NullAnswer, Memory>
    ensures { IfOk result (λ said. said ≡ said_read (envelope_of came.now)) }
{
    match read_envelope(alloc, came) {
        Ok(Envelope::Answer(answer)) => Ok(said_by(&answer)),
        Ok(_) => Ok(NullAnswer::Unknown),
        Err(OpErr::Memory) => Err(Memory),
        Err(_) => Ok(NullAnswer::Unknown),
    }
}

// What a record says to the message, nothing if it isn't its answer.
fn said_to(alloc: Global, message: &[u8], came: &[u8]) -> Result<NullAnswer, Memory>
    ensures { IfOk result (λ said. said ≡ said_to message.now (Some came.now)) }
{
    if is_answer_to(alloc, message, came)? {
        said_read(alloc, came)
    } else {
        Ok(NullAnswer::Unknown)
    }
}

// Makes a request that does nothing.
fn ask_nothing<L: Links>(
    alloc: Global,
    client: u32,
    sequence: u32,
    links: &mut L,
) -> Result<NullAnswer, Memory>
    ensures asks { IfOk result (AsksNothing client sequence (links_at L.Links links.old) (links_at L.Links links.new)) }
    ensures cuts { OnErr result (CutsNothing client sequence (links_at L.Links links.old) (links_at L.Links links.new)) }
    ensures addresses { KeepsAddresses (L.standing links.old) (L.standing links.new) }
{
    let message = null_message(alloc, client, sequence)?;
    match asked(alloc, links, Node::Server, message.as_slice())? {
        Some(came) => said_to(alloc, message.as_slice(), came.as_slice()),
        None => Ok(NullAnswer::Unknown),
    }
}

// Uses up the number that the server expects.
fn use_up<L: Links>(
    alloc: Global,
    client: u32,
    sequence: u32,
    links: &mut L,
) -> Result<Option<u32>, Memory>
    ensures uses { IfOk result (λ used. (said : NullAnswer)
        × AsksNothing client sequence (links_at L.Links links.old) (links_at L.Links links.new) said
        × (used ≡ used_by sequence said)) }
    ensures cuts { OnErr result (CutsNothing client sequence (links_at L.Links links.old) (links_at L.Links links.new)) }
    ensures addresses { KeepsAddresses (L.standing links.old) (L.standing links.new) }
{
    // Here and below, arms in place of `?` or of the bare call are for the prover (docs/dev/PROVER_FORMS.md).
    match ask_nothing(alloc, client, sequence, links) {
        Ok(NullAnswer::Taken) => Ok(Some(sequence)),
        Ok(NullAnswer::Expects(_) | NullAnswer::Unknown) => Ok(None),
        Err(e) => Err(e),
    }
}

/// Asks the server which number it expects of a client, and uses that up. Gives the number; a request under the one
/// [`after`] it is new to the server, whatever an earlier process sent. `None` exactly if one of the two answers didn't
/// come, or the first named no number, or the second didn't say that the server took it.
///
/// # Errors
///
/// Want of memory alone: the first or the second request wasn't sent, or its exchange was cut off, or there was none for
/// what came of it.
pub(crate) fn find_number<L: Links>(
    alloc: Global,
    client: u32,
    links: &mut L,
) -> Result<Option<u32>, Memory>
    ensures finds { IfOk result (Finds client (links_at L.Links links.old) (links_at L.Links links.new)) }
    ensures cuts { OnErr result (CutsFinding client (links_at L.Links links.old) (links_at L.Links links.new)) }
    ensures addresses { KeepsAddresses (L.standing links.old) (L.standing links.new) }
{
    match ask_nothing(alloc, client, NO_NUMBER, links) {
        Ok(NullAnswer::Expects(sequence)) => match use_up(alloc, client, sequence, links) {
            Ok(used) => Ok(used),
            Err(e) => Err(e),
        },
        Ok(NullAnswer::Taken | NullAnswer::Unknown) => Ok(None),
        Err(e) => Err(e),
    }
}
