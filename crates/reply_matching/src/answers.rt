// Which records answer a message to the server.
ghost use Rattle.std.specs.Prelude.{◌≡◌, IfOk};
ghost use Rattle.reply_matching.specs.Answers.{answers_request, is_answer, is_answer_to};
ghost use Rattle.layout_ops.specs.Reading.{envelope_of};

use layout_ops::{Answer, Envelope, OpErr, Request, read_envelope};
use osd_lists::Memory;
use std::alloc::Global;

// Whether an answer has the client, the sequence number, the file and the operation of a request.
fn is_answer(request: &Request, answer: &Answer) -> bool
    ensures { result ≡ is_answer request.now answer.now }
{
    answer.client == request.client
        && answer.sequence == request.sequence
        && answer.file == request.file
        && answer.results.operation().number() == request.args.operation().number()
}

// Whether a record spells an answer to a request.
fn answers_request(alloc: Global, request: &Request, came: &[u8]) -> Result<bool, Memory>
    ensures { IfOk result (λ is. is ≡ answers_request request.now (envelope_of came.now)) }
{
    match read_envelope(alloc, came) {
        Ok(Envelope::Answer(answer)) => Ok(is_answer(request, &answer)),
        Ok(_) => Ok(false),
        Err(OpErr::Memory) => Err(Memory),
        Err(_) => Ok(false),
    }
}

/// Whether a record answers a message: the message is a request, and the record an answer with its client, sequence
/// number, file and operation, as they stand in the two envelopes.
///
/// # Errors
///
/// [`Memory`], if the reading of either finds none.
pub fn is_answer_to(alloc: Global, message: &[u8], came: &[u8]) -> Result<bool, Memory>
    ensures { IfOk result (λ is. is ≡ is_answer_to message.now came.now) }
{
    match read_envelope(alloc, message) {
        Ok(Envelope::Request(request)) => answers_request(alloc, &request, came),
        Ok(_) => Ok(false),
        Err(OpErr::Memory) => Err(Memory),
        Err(_) => Ok(false),
    }
}
