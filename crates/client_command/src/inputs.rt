// The input of a client: the text of its cluster, and the bytes that a write takes from behind it.
ghost use Rattle.std.specs.Prelude.{◌≡◌, ◌≤◌, length, IfErr, IfOk, OnOk};
ghost use Rattle.osd_bytes.specs.Reading.{TakesAtMost};
ghost use Rattle.osd_bytes.specs.declared.lines.TheConstants.{MAX_READ};
ghost use Rattle.client_command.specs.Inputs.{GivesWork, StopsAsking, asked_in, bytes_behind, given, takes_bytes, text_before, text_in, zero_at};

use cluster_text::{Cluster, CommandStop, Reader, read_cluster, read_whole};
use command_words::{ClientWords, ClientWork};
use osd_bytes::Source;
use osd_lists::{Bytes, Memory};
use scenario_text::Call;
use std::alloc::Global;

// Where the first zero byte is, or the end.
#[tactic(auto, unfolding(crate::specs::Inputs::zero_at))]
fn zero_at(input: &[u8]) -> usize
    ensures value { result ≡ zero_at input.now }
    ensures bound { result ≤ length input.now }
{
    for i in 0..input.len() {
        if input[i] == 0 {
            return i;
        }
    }
    input.len()
}

// What is before the first zero byte, and what is after it.
fn divided(input: &[u8]) -> (&[u8], &[u8])
    ensures text { result.0.now ≡ text_before input.now }
    ensures bytes { result.1.now ≡ bytes_behind input.now }
{
    let (text, rest) = input.split_at(zero_at(input));
    match rest {
        [_, bytes @ ..] => (text, bytes),
        [] => (text, rest),
    }
}

// Whether this is a write that has no bytes of its own.
fn takes_bytes(work: &ClientWork) -> bool
    ensures { result ≡ takes_bytes work.now }
{
    match work {
        ClientWork::Call(Call::Write { bytes, .. }) => matches!(bytes.as_slice(), []),
        _ => false,
    }
}

// Gives a write these bytes.
fn give(alloc: Global, work: &mut ClientWork, bytes: &[u8]) -> Result<(), Memory>
    ensures { OnOk result (work.new ≡ given work.old bytes.now) }
{
    if let ClientWork::Call(Call::Write { bytes: own, .. }) = work {
        *own = Bytes::copied(alloc, bytes)?;
    }
    Ok(())
}

// What is asked with the bytes in an input, and the text of the cluster there.
fn asked_in(alloc: Global, words: ClientWords, input: &[u8]) -> Result<(ClientWords, &[u8]), Memory>
    ensures asked { IfOk result (λ a. a.0 ≡ asked_in words input.now) }
    ensures text { IfOk result (λ a. a.1.now ≡ text_in words.work input.now) }
{
    if !takes_bytes(&words.work) {
        return Ok((words, input));
    }
    let (text, bytes) = divided(input);
    let mut asked = words;
    give(alloc, &mut asked.work, bytes)?;
    Ok((asked, text))
}

/// Reads the cluster that the text in a source describes, and what is asked with the bytes behind the text: a write that
/// has no bytes of its own takes those behind the first zero byte of the source, where the text ends.
///
/// # Errors
///
/// [`CommandStop::BadCluster`] exactly if the text is refused, with its kind; those of [`read_whole`].
pub(crate) fn ask_from<S: Source>(
    alloc: Global,
    words: ClientWords,
    source: &mut S,
) -> Result<(Cluster, ClientWords), CommandStop>
    ensures asks { IfOk result (λ a. GivesWork words (S.left source.old) (S.left source.new) a.0 a.1) }
    ensures same { OnOk result (S.faults source.new ≡ S.faults source.old) }
    ensures stops { IfErr result (StopsAsking words (S.left source.old) (S.left source.new)
        (S.faults source.old) (S.faults source.new)) }
    ensures loan { S.loan source.new ≡ S.loan source.old }
    ensures input { TakesAtMost MAX_READ (S.left source.old) (S.left source.new) }
{
    let input = match read_whole(alloc, source) {
        Ok(input) => input,
        Err(stop) => return Err(stop),
    };
    let (asked, text) = asked_in(alloc, words, input.as_slice())?;
    match read_cluster(alloc, Reader::Client, text) {
        Ok(cluster) => Ok((cluster, asked)),
        Err(e) => Err(CommandStop::from(e)),
    }
}
