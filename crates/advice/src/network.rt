// Why a network failed.
use osd_links::LinkFault;
use std::alloc::{AllocError, Global};

/// Who asked over the network that failed.
#[derive(Clone, Copy, PartialEq, Eq)]
pub enum Asker {
    /// A drive.
    Drive,
    /// The server of a cluster.
    Server,
    /// A client.
    Client,
}

// What a client's end leaves open.
const CLIENT_REST: &str = "\
The request may have been carried out, so its number may have been used: don't use it again, neither for this call nor for
another one. Without --sequence a client finds the right number by itself.
";

// What is said to a client that learned no number.
const NOT_BEGUN: &str = "\
The client didn't learn the number of its next request, so nothing was done: give the same command again.
";

// What may be done about it.
fn rest_for(asker: Asker) -> &'static str {
    match asker {
        Asker::Drive => "",
        Asker::Server => "The drives have to listen before the server makes its files on them.\n",
        Asker::Client => CLIENT_REST,
    }
}

/// What a person is told where the network failed: who failed last, at which address and why, and what a client's
/// end leaves open.
pub fn failed_links(
    alloc: Global,
    asker: Asker,
    fault: Option<LinkFault<'_>>,
) -> Result<String, AllocError> {
    let rest = rest_for(asker);
    match fault {
        Some(fault) => format!(in alloc; "pnfs_osd: {fault}\n{rest}"),
        None if asker == Asker::Client => format!(in alloc;
            "pnfs_osd: the server's answer isn't the one to this request\n{rest}"
        ),
        None => format!(in alloc; "pnfs_osd: no answer that can be used\n{rest}"),
    }
}

/// What a person is told if a client learned no number from the server: which party failed, if one did, and that nothing was
/// done.
pub fn no_number(alloc: Global, fault: Option<LinkFault<'_>>) -> Result<String, AllocError> {
    match fault {
        Some(fault) => format!(in alloc; "pnfs_osd: {fault}\n{NOT_BEGUN}"),
        None => format!(in alloc;
            "pnfs_osd: the server didn't say which number it expects, or another request had it\n{NOT_BEGUN}"
        ),
    }
}
