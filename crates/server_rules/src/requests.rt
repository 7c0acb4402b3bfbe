// What the server looks at in a client's request.
use layout_types::IoErr;
use osd_lists::Sequence;

/// What a request asks, with its body read.
#[derive(Drop)]
pub enum RequestArgs {
    /// LAYOUTGET: a layout for these bytes of the file.
    Get {
        iomode: u32,
        offset: u64,
        length: u64,
    },
    /// LAYOUTCOMMIT: the offset of the last byte that was written.
    Commit {
        last: Option<u64>,
    },
    /// LAYOUTRETURN: the layout goes, with a report of errors.
    Return {
        report: Sequence<IoErr>,
    },
}

/// A request of a client.
#[derive(Drop)]
pub struct ClientRequest {
    pub client: u32,
    pub sequence: u32,
    pub file: u32,
    pub args: RequestArgs,
}
