ghost use Rattle.std.specs.Prelude.{◌≡◌, ◌<◌, [], length, IfSome};
ghost use Rattle.osd_objects.specs.Lanes.{place_of, lane_of, with_lane, HasRoom};

use arrayvec::ArrayVec;
use std::marker::Model;

/// How many holders an object keeps a lane for.
pub const MAX_LANES: usize = 32;

/// The last change of an object that was made for a holder, with the short reply to it.
#[derive(Clone, Copy, Default, PartialEq, Eq)]
pub struct LaneEntry {
    /// Whose lane it is: the holder of the command's capability.
    pub holder: u32,
    /// The nonce of the command.
    pub nonce: u64,
    /// The number of the command's action.
    pub action: u16,
    /// The detail of the reply.
    pub detail: u64,
}

/// The lanes of an object, one for each holder that changed it. They take no memory of their own.
#[derive(Drop)]
pub struct Lanes {
    entries: ArrayVec<LaneEntry, MAX_LANES>,
}

impl Model for Lanes {
    ghost use Rattle.std.specs.Prelude.{List};
    ghost use Rattle.osd_objects.specs.declared.lanes.LaneEntry.{LaneEntry as Entry};

    ghost Value = { List Entry };

    ghost view = { λ s. s.entries.items };
}

// The place of a holder's lane.
fn place_in(lanes: &[LaneEntry], holder: u32) -> Option<usize>
    ensures place { result ≡ place_of lanes.now holder }
    ensures bound { IfSome result (λ i. i < length lanes.now) }
{
    lanes.iter().position(|lane| lane.holder == holder)
}

impl Lanes {
    /// No lanes.
    pub fn new() -> Self
        ensures { result ≡ [] }
    {
        Lanes {
            entries: ArrayVec::new(),
        }
    }

    /// How many lanes there are.
    pub fn len(&self) -> u32
        ensures { result ≡ length self.now }
    {
        self.entries.len() as u32
    }

    /// The lane of a holder.
    pub fn get(&self, holder: u32) -> Option<LaneEntry>
        ensures { result ≡ lane_of self.now holder }
    {
        let lanes = self.entries.as_slice();
        match place_in(lanes, holder) {
            Some(i) => Some(lanes[i]),
            None => None,
        }
    }

    /// Puts a lane in the place of its holder's, or adds it.
    pub fn put(&mut self, lane: LaneEntry)
        requires { HasRoom self.old lane.holder }
        ensures { self.new ≡ with_lane self.old lane }
    {
        match place_in(self.entries.as_slice(), lane.holder) {
            Some(i) => self.entries.as_mut_slice()[i] = lane,
            None => self.entries.push(lane),
        }
    }
}
