ghost use Rattle.std.specs.Prelude.{◌≡◌, ◌≤◌, IfErr, IfOk, OnOk};
ghost use Rattle.osd_bytes.specs.Reading.{TakesAtMost};
ghost use Rattle.osd_bytes.specs.declared.lines.TheConstants.{MAX_READ};
ghost use Rattle.client_rules.specs.declared.limits.TheConstants.{MAX_CLIENT};
ghost use Rattle.cluster_text.specs.Outside.{streams_at};
ghost use Rattle.client_command.specs.OnLinks.{links_at};
ghost use Rattle.client_command.specs.Numbering.{IsNumbered};
ghost use Rattle.client_command.specs.Ends.{EndsClient, KnowsCluster, StopsClient, StopsTelling, StopsWork, Tells, ToldAll, WorksAs};

use crate::inputs::ask_from;
use crate::reports::report;
use crate::work_ends::{ClientEnd, Report};
use cluster_text::{Cluster, CommandStop, put_stop, settle_at};
use command_words::ClientWords;
use osd_bytes::{Links, Sink, Source, put_all};
use std::alloc::Global;

// Puts what a report tells.
fn tell<K: Sink>(report: Report, sink: &mut K) -> Result<ClientEnd, CommandStop>
    ensures told { IfOk result (ToldAll report (K.taken sink.old) (K.taken sink.new)) }
    ensures stops { IfErr result (StopsTelling report (K.taken sink.old) (K.taken sink.new)
        (K.faults sink.old) (K.faults sink.new)) }
{
    let Report { text, end } = report;
    match put_all(sink, text.as_slice()) {
        Ok(()) => {}
        Err(_) => return Err(CommandStop::WriteFault),
    }
    match end {
        Some(end) => Ok(end),
        None => Err(CommandStop::LinkFault),
    }
}

// Does the work of a client in a cluster, and tells of it.
fn work_in<K: Sink, L: Links>(
    alloc: Global,
    cluster: &Cluster,
    words: ClientWords,
    sink: &mut K,
    links: &mut L,
) -> Result<ClientEnd, CommandStop>
    requires number { words.number ≤ MAX_CLIENT }
    requires first { IsNumbered words.first }
    ensures tells { IfOk result (Tells words
        (links_at L.Links links.old) (links_at L.Links links.new)
        (K.taken sink.old) (K.taken sink.new)) }
    ensures knows { OnOk result (KnowsCluster cluster.now (L.standing links.new)) }
    ensures stops { IfErr result (StopsWork words cluster.now
        (links_at L.Links links.old) (links_at L.Links links.new) (L.standing links.new)
        (K.taken sink.old) (K.taken sink.new) (K.faults sink.old) (K.faults sink.new)) }
{
    // Here and below, arms in place of `?` or of the bare call are for the prover (docs/dev/PROVER_FORMS.md).
    match settle_at(alloc, links, cluster, &[]) {
        Ok(()) => {}
        Err(stop) => return Err(stop),
    }
    let report = report(alloc, words, links)?;
    match tell(report, sink) {
        Ok(end) => Ok(end),
        Err(stop) => Err(stop),
    }
}

// Works as a client of the cluster that the source describes, with the bytes behind the text. A stop isn't told here.
fn work<S: Source, K: Sink, L: Links>(
    alloc: Global,
    words: ClientWords,
    source: &mut S,
    sink: &mut K,
    links: &mut L,
) -> Result<ClientEnd, CommandStop>
    requires number { words.number ≤ MAX_CLIENT }
    requires first { IsNumbered words.first }
    ensures works { IfOk result (WorksAs words
        (streams_at S.Source K.Sink source.old sink.old) (streams_at S.Source K.Sink source.new sink.new)
        (links_at L.Links links.old) (links_at L.Links links.new) (L.standing links.new)) }
    ensures stops { IfErr result (StopsClient words
        (streams_at S.Source K.Sink source.old sink.old) (streams_at S.Source K.Sink source.new sink.new)
        (links_at L.Links links.old) (links_at L.Links links.new) (L.standing links.new)) }
    ensures input { TakesAtMost MAX_READ (S.left source.old) (S.left source.new) }
{
    let (cluster, asked) = match ask_from(alloc, words, source) {
        Ok(parts) => parts,
        Err(stop) => return Err(stop),
    };
    match work_in(alloc, &cluster, asked, sink, links) {
        Ok(end) => Ok(end),
        Err(stop) => Err(stop),
    }
}

/// Carries out one call of a client in the cluster that the source describes, or hands its server one order. The
/// sink is told the timeouts and the end of the call, or what the server answers to the order, and then `next` with
/// the number of the client's next request; or else, in a line of its own, why the client stopped before. A client that
/// isn't given the number of its first request finds a fresh one before its call; if it doesn't, `error number` is told,
/// and nothing else is done. An order needs none, and `next` tells the given one again, if one was given. After a call
/// every grant is returned before anything is told. A write that has no bytes of its own takes those after the first
/// zero byte of the source, where the text ends then.
///
/// # Errors
///
/// [`CommandStop::BadCluster`] exactly if the text is refused; [`CommandStop::ReadFault`];
/// [`CommandStop::Full`] exactly if the text passes 67,108,864 bytes; [`CommandStop::LinkFault`] if the links
/// couldn't be settled, and exactly if an exchange with the server gave no record or one that isn't the awaited
/// answer; [`CommandStop::WriteFault`]; [`CommandStop::Memory`].
pub fn client_command<S: Source, K: Sink, L: Links>(
    alloc: Global,
    words: ClientWords,
    source: &mut S,
    sink: &mut K,
    links: &mut L,
) -> Result<ClientEnd, CommandStop>
    requires number { words.number ≤ MAX_CLIENT }
    requires first { IsNumbered words.first }
    ensures works { IfOk result (WorksAs words
        (streams_at S.Source K.Sink source.old sink.old) (streams_at S.Source K.Sink source.new sink.new)
        (links_at L.Links links.old) (links_at L.Links links.new) (L.standing links.new)) }
    ensures stops { IfErr result (EndsClient words
        (streams_at S.Source K.Sink source.old sink.old) (streams_at S.Source K.Sink source.new sink.new)
        (links_at L.Links links.old) (links_at L.Links links.new) (L.standing links.new)) }
    ensures input { TakesAtMost MAX_READ (S.left source.old) (S.left source.new) }
{
    match work(alloc, words, source, sink, links) {
        Ok(end) => Ok(end),
        Err(stop) => {
            put_stop(sink, stop);
            Err(stop)
        }
    }
}
