// What holds of a history in which nothing is lost.
ghost use Rattle.lossless_law.specs.Lossless.{LosslessIsCalm};

use cause_law::components_have_causes;
use component_law::server_writes_to_others;
use world_history::{messages_are_read, reading_goes_on};

/// A history in which no drive fails or is declared, and no line tells that a component becomes missing, is calm.
pub fn lossless_is_calm()
    ensures { LosslessIsCalm }
{
    reading_goes_on();
    messages_are_read();
    components_have_causes();
    server_writes_to_others();
}
