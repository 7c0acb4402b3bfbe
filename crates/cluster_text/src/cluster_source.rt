ghost use Rattle.std.specs.Prelude.{◌≡◌, IfErr, IfOk, OnOk};
ghost use Rattle.osd_bytes.specs.Reading.{TakesAtMost};
ghost use Rattle.osd_bytes.specs.declared.lines.TheConstants.{MAX_READ};
ghost use Rattle.cluster_text.specs.Inputs.{GivesCluster, StopsCluster};

use crate::cluster::{Cluster, Reader};
use crate::cluster_document::read_cluster;
use crate::stop::CommandStop;
use crate::whole::read_whole;
use osd_bytes::Source;
use std::alloc::Global;

/// Reads the cluster that the whole text of a source describes.
///
/// # Errors
///
/// [`CommandStop::BadCluster`] exactly if the text is refused, with its kind; those of [`read_whole`].
pub fn cluster_from<S: Source>(
    alloc: Global,
    reader: Reader,
    source: &mut S,
) -> Result<Cluster, CommandStop>
    ensures cluster { IfOk result (GivesCluster reader (S.left source.old) (S.left source.new)) }
    ensures same { OnOk result (S.faults source.new ≡ S.faults source.old) }
    ensures stops { IfErr result (StopsCluster reader (S.left source.old) (S.left source.new)
        (S.faults source.old) (S.faults source.new)) }
    ensures loan { S.loan source.new ≡ S.loan source.old }
    ensures input { TakesAtMost MAX_READ (S.left source.old) (S.left source.new) }
{
    let text = read_whole(alloc, source)?;
    match read_cluster(alloc, reader, text.as_slice()) {
        Ok(cluster) => Ok(cluster),
        Err(e) => Err(CommandStop::from(e)),
    }
}
