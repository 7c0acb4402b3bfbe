// What a command says when it has served, or when it stops.
ghost use Rattle.std.specs.Prelude.{◌≡◌, IfOk, string_bytes};
ghost use Rattle.cluster_text.specs.Lines.{PutsLine, exit_code_of, served_line, stop_line, stop_of_serving};

use crate::errors::ClusterKind;
use crate::stop::CommandStop;
use osd_bytes::{ServeErr, Sink, put_all};
use osd_lists::Memory;
use std::alloc::Global;

impl CommandStop {
    /// The exit status of the program.
    pub fn exit_code(self) -> u8
        ensures { result ≡ exit_code_of self }
    {
        match self {
            CommandStop::ReadFault => 4,
            CommandStop::WriteFault => 5,
            CommandStop::Memory => 6,
            CommandStop::Full => 7,
            CommandStop::LinkFault => 8,
            CommandStop::BadCluster(_) => 9,
        }
    }

    /// The line that tells of the stop, with its newline; nothing if the sink failed. A cluster text has no lines that
    /// are counted, so 0 stands in the place of a line's number.
    pub fn line(self) -> &'static [u8]
        ensures { result.now ≡ stop_line self }
    {
        match self {
            CommandStop::BadCluster(ClusterKind::Toml) => b"error cluster toml\n",
            CommandStop::BadCluster(ClusterKind::Unknown) => b"error cluster unknown\n",
            CommandStop::BadCluster(ClusterKind::Missing) => b"error cluster missing\n",
            CommandStop::BadCluster(ClusterKind::WrongType) => b"error cluster type\n",
            CommandStop::BadCluster(ClusterKind::Range) => b"error cluster range\n",
            CommandStop::BadCluster(ClusterKind::Repeated) => b"error cluster repeated\n",
            CommandStop::ReadFault => b"error 0 read\n",
            CommandStop::WriteFault => b"",
            CommandStop::Memory => b"error 0 memory\n",
            CommandStop::Full => b"error 0 full input\n",
            CommandStop::LinkFault => b"error link\n",
        }
    }
}

/// Puts the line that tells why a command stopped. It is cut only where the sink's count of faults rose.
pub fn put_stop<K: Sink>(sink: &mut K, stop: CommandStop)
    ensures puts { PutsLine (K.taken sink.old) (K.taken sink.new) (K.faults sink.old) (K.faults sink.new)
        (stop_line stop) }
    ensures loan { K.loan sink.new ≡ K.loan sink.old }
{
    match put_all(sink, stop.line()) {
        Ok(()) | Err(_) => {}
    }
}

/// The line that tells how many connections were served.
pub fn served_line(alloc: Global, connections: u32) -> Result<String, Memory>
    ensures { IfOk result (λ line. string_bytes line ≡ served_line connections) }
{
    Ok(format!(in alloc; "served {connections}\n")?)
}

/// Why a command stops if serving stops for this reason.
pub fn stop_of_serving(e: ServeErr) -> CommandStop
    ensures { result ≡ stop_of_serving e }
{
    match e {
        ServeErr::LinkFault => CommandStop::LinkFault,
        ServeErr::Memory => CommandStop::Memory,
    }
}
