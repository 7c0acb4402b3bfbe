// What the server does in an event.
ghost use Rattle.std.specs.Prelude.{IfOk};
ghost use Rattle.server_rules.specs.History.{Obeys, Zones, Resends as ResendsAt, Formats as FormatsAt};
ghost use Rattle.world_history.specs.Moves.{adds_drive, makes, raw_of, gives};
ghost use Rattle.layout_world.specs.Acting.{Acts, ActsWith, ends_by, ends_made};

use crate::parties::Parties;
use layout_ops::OrderKind;
use osd_lists::Memory;
use scenario_text::{DriveName, FileMap, FileName};
use std::alloc::Global;
use stripe_repair::Place;
use world_network::Act;

/// A drive is made, stored or not, and the server knows it. There must be none of that number.
pub fn add_drive(
    parties: &mut Parties,
    alloc: Global,
    drive: DriveName,
    key: [u8; 20],
    capacity: u64,
    stored: bool,
) -> Result<Act, Memory>
    ensures { IfOk result (λ act. Acts (λ w chosen. adds_drive w drive key capacity stored) parties.old parties.new act) }
{
    parties.drives.add(alloc, drive, key, capacity, stored)?;
    let act = parties.server.add_drive(alloc, drive, key, capacity)?;
    Ok(act)
}

/// A file is made, spread over zones or not, or it is noted why it isn't.
pub fn make_file<P: Place>(
    parties: &mut Parties,
    alloc: Global,
    file: FileName,
    map: &FileMap,
    tag: u32,
    zoned: bool,
    placer: &P,
) -> Result<Act, Memory>
    requires placer { P.is_placer placer.now }
    ensures { IfOk result (λ act. ActsWith (λ w chosen. makes w chosen file (raw_of map.now) tag zoned)
        (ends_made file (raw_of map.now) tag zoned) parties.old parties.new act) }
{
    let act = parties
        .server
        .make_file(alloc, file, map, tag, zoned, placer)?;
    Ok(act)
}

/// A drive is put into a zone, of which the server is told.
pub fn set_zone(
    parties: &mut Parties,
    alloc: Global,
    drive: DriveName,
    zone: u32,
) -> Result<Act, Memory>
    ensures { IfOk result (λ act. Acts (λ w chosen. gives w chosen (Zones drive zone)) parties.old parties.new act) }
{
    parties.server.set_zone(drive, zone)?;
    Ok(Act::nothing(alloc))
}

/// The server is given an order on a file, or on a failed drive that is taken out.
pub fn order<P: Place>(
    parties: &mut Parties,
    alloc: Global,
    kind: OrderKind,
    target: u32,
    placer: &P,
) -> Result<Act, Memory>
    requires placer { P.is_placer placer.now }
    ensures { IfOk result (λ act. ActsWith (λ w chosen. gives w chosen (Obeys kind target))
        (ends_by (Obeys kind target)) parties.old parties.new act) }
{
    let act = parties.server.order(alloc, kind, target, placer)?;
    Ok(act)
}

/// What jobs wait for is sent again.
pub fn resend(parties: &Parties, alloc: Global) -> Result<Act, Memory>
    ensures { IfOk result (λ act. Acts (λ w chosen. gives w chosen ResendsAt) parties.now parties.now act) }
{
    let act = parties.server.resend(alloc)?;
    Ok(act)
}

/// Fences leave files with this format at least.
pub fn set_format(parties: &mut Parties, alloc: Global, format: u8) -> Result<Act, Memory>
    ensures { IfOk result (λ act. Acts (λ w chosen. gives w chosen (FormatsAt format)) parties.old parties.new act) }
{
    parties.server.set_format(format)?;
    Ok(Act::nothing(alloc))
}
