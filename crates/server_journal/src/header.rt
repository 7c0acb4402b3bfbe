ghost use Rattle.std.specs.Prelude.{◌≡◌, IsTrue};
ghost use Rattle.server_journal.specs.Header.{journal_header};

use gate_log::HEADER_SIZE;
use osd_lists::put_u32;

/// `OSDJ`.
const MAGIC: u32 = 0x4f53_444a;

/// The version of the form of journals.
const VERSION: u32 = 1;

/// How many bytes of the header say nothing, and are 0.
const UNUSED: usize = 16;

/// What stands in front of a journal.
///
/// | place | size | field |
/// |---|---|---|
/// | 0 | 4 | `OSDJ` |
/// | 4 | 4 | version, 1 |
/// | 8 | 16 | zeros |
///
/// Numbers are big-endian.
#[tactic(auto, unfolding(crate::specs::Header::journal_header))]
pub(crate) fn header_bytes() -> [u8; HEADER_SIZE]
    ensures { result ≡ journal_header }
{
    let mut out = [0u8; UNUSED + 8];
    put_u32(&mut out, 0, MAGIC);
    put_u32(&mut out, 4, VERSION);
    out
}

/// Whether these bytes are the header of a journal.
pub(crate) fn is_header(bytes: &[u8; HEADER_SIZE]) -> bool
    ensures yes { IsTrue result → bytes.now ≡ journal_header }
    ensures no { bytes.now ≡ journal_header → IsTrue result }
{
    bytes.as_slice() == header_bytes().as_slice()
}
