// What the program says of itself. The script `pnfs_osd` at the top prints the same texts out of this file, so that
// they can be read before the program is built: keep the lines between a constant's first line and its quotation mark.

const VERSION: &str = "\
pnfs_osd 0.2.0
";

/// What the program is told to do, and how it ends.
pub const PROGRAM: &str = "\
usage: pnfs_osd replay < SCENARIO
       pnfs_osd generate N K
       pnfs_osd show KIND < LINES
       pnfs_osd check KIND < LINES
       pnfs_osd drive --number N --connections K < CLUSTER
       pnfs_osd stored-drive --number N --connections K --store NAME < CLUSTER
       pnfs_osd server --connections K < CLUSTER
       pnfs_osd stored-server --connections K --store NAME < CLUSTER
       pnfs_osd client --number N [--sequence Q] --call TEXT < CLUSTER
       pnfs_osd help [COMMAND] | --help | --version
       pnfs_osd COMMAND --help

replay        carries out a scenario and writes its transcript (docs/rules/SCENARIO.md)
generate      makes a scenario of K calls from the number N, carries it out and writes what it came to
show          writes the fields of the structure that each line spells in hexadecimal digits (docs/rules/STRUCTURES.md)
check         says whether the structure that each line spells is well formed
drive         serves K connections as drive N of a cluster, which it keeps in memory (docs/use/OPERATIONS.md)
stored-drive  does the same, and keeps the drive in the file NAME
server        makes the files of a cluster, and serves K connections as its metadata server
stored-server does the same, and keeps the server in the file NAME
client        carries out one call as client N of a cluster, or hands its server one order

Exit status: 0 done, 2 the words name no command, 3 a line was refused, 4 the input failed, 5 the output failed,
6 no memory, 7 the input, a line or the bytes that are kept pass their limit, 8 the network failed or the server didn't
answer, 9 the cluster text was refused, 10 the call or the order was refused, 11 a file failed that keeps a drive or the
server, 12 such a file isn't what it has to be.
";

const REPLAY: &str = "\
usage: pnfs_osd replay < SCENARIO

Carries out a scenario over drives, a metadata server and clients in one process, and writes its transcript.
docs/rules/SCENARIO.md has the language of both.
";

const GENERATE: &str = "\
usage: pnfs_osd generate N K

Makes a scenario of K calls, at most 1000, from the number N, carries it out, and writes what it came to: the counts of
its calls, the SHA-1 of its transcript, and the transcript's last line.
";

const SHOW: &str = "\
usage: pnfs_osd show KIND < LINES

Writes the fields of the structure of RFC 5664 that each line spells in hexadecimal digits, or why it spells none.
KIND is map, cred, layout, deviceaddr, update, ioerrs or hint (docs/rules/STRUCTURES.md).
";

const CHECK: &str = "\
usage: pnfs_osd check KIND < LINES

Writes ok and the structure of RFC 5664 again that each line spells in hexadecimal digits, or why it spells none.
KIND is map, cred, layout, deviceaddr, update, ioerrs or hint (docs/rules/STRUCTURES.md).
";

const DRIVE: &str = "\
usage: pnfs_osd drive --number N --connections K < CLUSTER

Serves K connections as drive N (0 to 63) of the cluster that the text describes (docs/use/OPERATIONS.md). Writes
'listening' once it listens at its address, and 'served K' at the end. All options are required.
";

const STORED_DRIVE: &str = "\
usage: pnfs_osd stored-drive --number N --connections K --store NAME < CLUSTER

Serves K connections as drive N (0 to 63) of the cluster that the text describes, and keeps the drive in the file NAME: what
it answered is there when it is started again, whatever stopped it (docs/use/OPERATIONS.md). A file that isn't there, or is
empty, is made. Writes 'listening' once it listens at its address, and 'served K' at the end. All options are required.
";

const SERVER: &str = "\
usage: pnfs_osd server --connections K < CLUSTER

Makes the files of the cluster that the text describes on its drives, which have to listen already, and serves K
connections as its metadata server (docs/use/OPERATIONS.md). Writes 'listening' once the files are made and it listens at
its address, and 'served K' at the end. All options are required.
";

const STORED_SERVER: &str = "\
usage: pnfs_osd stored-server --connections K --store NAME < CLUSTER

Serves K connections as the metadata server of the cluster that the text describes, and keeps the server in the file NAME: what
it answered is there when it is started again, whatever stopped it (docs/use/OPERATIONS.md). A file that isn't there, or is
empty, is made. Drives and files of the cluster that the server lacks are added and made, on drives that have to listen already.
Writes 'listening' once that is done and it listens at its address, and 'served K' at the end. All options are required.
";

const CLIENT: &str = "\
usage: pnfs_osd client --number N [--sequence Q] --call TEXT < CLUSTER

Carries out one call as client N (0 to 15) of the cluster that the text describes, or hands its server one order
(docs/use/OPERATIONS.md). The client asks the server for the number of its first request, in two exchanges more. They can be
saved with --sequence Q: 1 the first time, then what the line 'next Q' of the run before says, and no number twice.

TEXT      write F OFFSET HEX, write F OFFSET -, read F OFFSET LENGTH, recall F, revoke F, rebuild F, audit F or
          declare D, F a file as f0, D a drive as d0. With - the bytes are those after the first zero byte of
          standard input, where the text of the cluster ends then
";

// What is said of a command.
fn usage_of(command: &str) -> Option<&'static str> {
    match command {
        "replay" => Some(REPLAY),
        "generate" => Some(GENERATE),
        "show" => Some(SHOW),
        "check" => Some(CHECK),
        "drive" => Some(DRIVE),
        "stored-drive" => Some(STORED_DRIVE),
        "server" => Some(SERVER),
        "stored-server" => Some(STORED_SERVER),
        "client" => Some(CLIENT),
        _ => None,
    }
}

fn is_help(word: &String) -> bool {
    matches!(word.as_str(), "--help" | "-h")
}

fn is_version(word: &String) -> bool {
    matches!(word.as_str(), "--version" | "-V")
}

// What a command's words ask for: its usage or the version, wherever the word for it stands.
fn command_text(command: &str, rest: &[String]) -> Option<&'static str> {
    let usage = usage_of(command)?;
    if rest.iter().any(is_help) {
        Some(usage)
    } else if rest.iter().any(is_version) {
        Some(VERSION)
    } else {
        None
    }
}

/// The text that the words ask for, where they ask what the program is or how it is used.
pub fn text_asked(words: &[String]) -> Option<&'static str> {
    match words {
        [] => None,
        [word] if is_help(word) || word.as_str() == "help" => Some(PROGRAM),
        [word] if is_version(word) => Some(VERSION),
        [help, command] if help.as_str() == "help" => match command.as_str() {
            "help" => Some(PROGRAM),
            command => usage_of(command),
        },
        [command, rest @ ..] => command_text(command.as_str(), rest),
    }
}
