// That what lines show of messages are bytes. The types say so, and the proof has to be told: nothing is done here.
ghost use Rattle.history_claims.specs.Carried.{AreCarried, IsCarried};
ghost use Rattle.osd_lists.specs.Blocks.{IsBytes};

use scenario_text::Line;

fn are_bytes(bytes: &[u8])
    ensures { IsBytes bytes.now }
{
    let _ = bytes;
}

fn shows_bytes(line: &Line)
    ensures { IsCarried line.now }
{
    if let Line::Message { bytes, .. } = line {
        are_bytes(bytes.as_slice());
    }
}

/// The messages of these lines are of bytes.
pub fn show_bytes(lines: &[Line])
    ensures { AreCarried lines.now }
{
    for line in lines {
        shows_bytes(line);
    }
}
