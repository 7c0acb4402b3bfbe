// Members that are moved out of a list one after another.
ghost use Rattle.std.specs.Prelude.{◌≡◌, ◌<◌, ◌+◌, ◌∷◌, drop, length};

use osd_lists::Sequence;
use std::mem;

/// The member at a place, where another stands then: it is moved, and nothing is copied.
pub fn take_member<T: Drop>(list: &mut Sequence<T>, place: usize, instead: T) -> T
    requires { place < length list.old }
    ensures taken { drop place list.old ≡ result ∷ drop (place + 1) list.new }
    ensures count { length list.new ≡ length list.old }
{
    mem::replace(list.get_mut(place), instead)
}
