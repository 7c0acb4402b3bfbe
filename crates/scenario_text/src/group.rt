ghost use Rattle.std.specs.Prelude.{◌≡◌};
ghost use Rattle.scenario_text.specs.Groups.{group_of};

use crate::event::Event;

// The kinds of events: what makes parties and settings, what concerns calls and messages, and the rest.
#[derive(Clone, Copy)]
pub(crate) enum Group {
    Setup,
    Traffic,
    Upkeep,
}

pub(crate) fn event_group(event: &Event) -> Group
    ensures { result ≡ group_of event.now }
{
    match event {
        Event::Drive { .. }
        | Event::Disk { .. }
        | Event::Client { .. }
        | Event::File { .. }
        | Event::ZonedFile { .. }
        | Event::Zone { .. }
        | Event::Least { .. }
        | Event::Format { .. } => Group::Setup,
        Event::Do { .. }
        | Event::Call { .. }
        | Event::Deliver { .. }
        | Event::DropMessage { .. }
        | Event::Settle
        | Event::Resend { .. }
        | Event::Timeout { .. }
        | Event::Leave { .. }
        | Event::Inject { .. } => Group::Traffic,
        Event::Clock { .. }
        | Event::Recall { .. }
        | Event::Revoke { .. }
        | Event::Rebuild { .. }
        | Event::Audit { .. }
        | Event::Declare { .. }
        | Event::Stop { .. }
        | Event::Fail { .. }
        | Event::Crash { .. }
        | Event::Reopen { .. } => Group::Upkeep,
    }
}
