ghost use Rattle.std.specs.Prelude.{◌≡◌, ◌≤◌, ◌^◌, ◌<◌, ◌&&◌, [], true, None, length, count_by, is_none, is_some, IsTrue, IfErr, IfOk, OnOk};
ghost use Rattle.data_map.specs.Check.{HasAlgorithm};
ghost use Rattle.server_rules.specs.declared.limits.TheConstants.{MAX_FILE_COMPONENTS};
ghost use Rattle.zone_place.specs.Zones.{ask_of, has_room};
ghost use Rattle.server_rules.specs.Files.{file_at};
ghost use Rattle.server_rules.specs.Making.{by_zones, checked_64, components_on, drives_for, online, places, refusal, usable};
ghost use Rattle.server_rules.specs.Zoning.{in_zones};
ghost use Rattle.zone_place.specs.declared.loads.TheConstants.{MAX_DRIVES};
ghost use Rattle.file_jobs.specs.Sound.{IsSound};
ghost use Rattle.server_state.specs.Drives.{AreDrives};
ghost use Rattle.server_state.specs.Tables.{AreEntries, files_in};
ghost use Rattle.server_state.specs.States.{server_of, HasRoom, IsGood};
ghost use Rattle.layout_server.specs.Creating.{unmade_by, Creates, HasDrives, IsRefused, RefusedFor};

use crate::loads::loads_of;
use crate::rounds::put;
use data_map::{DataMap, MAX_STRIPE_UNIT, MapErr, RawMap};
use file_jobs::{FileState, make};
use osd_lists::{Memory, Numbers};
use server_rules::{Component, Components, Drive, Grants, Kept, MAX_FILE_COMPONENTS, Phase};
use server_state::{Files, State, Step, finish_step, list, no_effects};
use std::alloc::Global;
use stripe_repair::{Place, zone_loads};
use thiserror::Error;
use zone_place::{zone_ask, zone_room};

/// Why a file isn't made; of several reasons the first in this order.
#[derive(Clone, Copy, Debug, PartialEq, Eq, Error)]
pub enum FileErr {
    /// There is a file of that number.
    #[error("the file exists")]
    FileExists,
    /// The map can't be used, or has more than 64 components.
    #[error("the map can't be used: {0}")]
    BadMap(MapErr),
    /// There are fewer drives online than the map has components. For a file that is spread over zones those in a zone
    /// count.
    #[error("only {online} drives are online")]
    TooFewDrives { online: u32 },
    /// The online drives in zones have no room for a file that is spread over them.
    #[error("{online} online drives in zones have no room for it")]
    NoSpread { online: u32 },
    /// There is no memory for it.
    #[error("no memory for a file")]
    Memory,
}

impl From<Memory> for FileErr {
    ghost use Rattle.layout_server.specs.declared.new_files.FileErr.TheVariants.{Memory as NoMemory};

    ghost from_gives = { λ _ e. e ≡ NoMemory };

    fn from(_: Memory) -> Self {
        FileErr::Memory
    }
}

/// A file that is to be made.
#[derive(Clone, Copy)]
pub struct NewFile {
    pub number: u32,
    pub map: DataMap,
    /// The tag that its components are made with.
    pub tag: u32,
    /// Its components are spread over zones of drives.
    pub zoned: bool,
}

/// A map as it is checked, with at most 64 components.
#[tactic(auto, unfolding(server_rules::specs::Making::checked_64))]
pub fn checked_64(raw: RawMap) -> Result<DataMap, MapErr>
    requires { HasAlgorithm raw }
    ensures value { result ≡ checked_64 raw }
    ensures same { IfOk result (λ map. map ≡ raw) }
    ensures few { IfOk result (λ map. map.comps ≤ MAX_FILE_COMPONENTS) }
{
    if raw.unit == 0 || raw.unit > MAX_STRIPE_UNIT {
        return Err(MapErr::Unit);
    }
    if raw.comps > MAX_FILE_COMPONENTS {
        return Err(MapErr::TooMany);
    }
    DataMap::check(raw)
}

/// There is a file of that number.
pub fn has_file(files: &Files, number: u32) -> bool
    requires { AreEntries files.now.entries }
    ensures { result ≡ is_some (file_at (files_in files.now.entries) number) }
{
    files.contains_key(&number)
}

// How many drives are online.
fn count_by_online(drives: &[Drive]) -> u32
    requires { length drives.now ≤ MAX_DRIVES }
    ensures { result ≡ count_by (λ d. d.online) drives.now }
{
    drives.iter().filter(|drive| drive.online).count() as u32
}

// How many online drives are in a zone.
fn count_by_zone(drives: &[Drive]) -> u32
    requires { length drives.now ≤ MAX_DRIVES }
    ensures { result ≡ count_by (λ d. d.online && is_some d.zone) drives.now }
{
    drives
        .iter()
        .filter(|drive| drive.online && drive.zone.is_some())
        .count() as u32
}

// How many drives may take components of such a file.
fn count_usable(zoned: bool, drives: &[Drive]) -> u32
    requires { AreDrives drives.now }
    ensures { result ≡ usable zoned drives.now }
{
    if zoned {
        return count_by_zone(drives);
    }
    count_by_online(drives)
}

// The drives have room for such a file.
fn has_room(alloc: Global, state: &State, zoned: bool, map: &DataMap) -> Result<bool, Memory>
    requires { IsGood state.now }
    ensures { IfOk result (λ room. room ≡ is_none (by_zones map.now zoned state.now.drives)) }
{
    if zoned {
        let loads = loads_of(alloc, state)?;
        let zones = zone_loads(alloc, loads.as_slice())?;
        return Ok(zone_room(&zone_ask(map), zones.as_slice()));
    }
    Ok(true)
}

// The map of a file that may be made.
#[tactic(auto, unfolding(server_rules::specs::Making::refusal))]
fn usable(
    alloc: Global,
    state: &State,
    number: u32,
    raw: RawMap,
    zoned: bool,
) -> Result<DataMap, FileErr>
    requires good { IsGood state.now }
    requires algorithm { HasAlgorithm raw }
    ensures usable { IfOk result (λ map. refusal (server_of state.now) number raw zoned ≡ None) }
    ensures refused { IfErr result (RefusedFor (refusal (server_of state.now) number raw zoned)) }
    ensures same { IfOk result (λ map. map ≡ raw) }
    ensures few { IfOk result (λ map. map.comps ≤ MAX_FILE_COMPONENTS) }
    ensures drives { IfOk result (HasDrives zoned state.now.drives) }
{
    if has_file(&state.files, number) {
        return Err(FileErr::FileExists);
    }
    let map = match checked_64(raw) {
        Ok(map) => map,
        Err(cause) => return Err(FileErr::BadMap(cause)),
    };
    let online = count_usable(zoned, state.drives.as_slice());
    if online < raw.comps {
        return Err(FileErr::TooFewDrives { online });
    }
    if !has_room(alloc, state, zoned, &map)? {
        return Err(FileErr::NoSpread { online });
    }
    Ok(map)
}

// Present components on these drives, with object numbers from `object` on.
#[tactic(auto, unfolding(server_rules::specs::Making::components_on))]
fn components_on(alloc: Global, drives: &[u32], object: u64) -> Result<Components, Memory>
    requires { object < 2 ^ 63 }
    ensures { IfOk result (λ components. components ≡ components_on drives.now object) }
{
    let mut components = Components::new(alloc);
    for i in 0..drives.len() {
        components.push(Component {
            drive: drives[i],
            object: object + i as u64,
            missing: false,
        })?;
    }
    Ok(components)
}

// A file that isn't made yet.
fn unmade(alloc: Global, state: &State, file: NewFile, drives: &[u32]) -> Result<FileState, Memory>
    requires room { HasRoom (server_of state.now) }
    requires many { length drives.now ≡ file.map.comps }
    requires few { file.map.comps ≤ MAX_FILE_COMPONENTS }
    ensures value { IfOk result (unmade_by state.now file drives.now) }
    ensures sound { IfOk result (λ made. IsSound made.kept) }
    ensures alone { IfOk result (λ made. made.kept.grants ≡ []) }
{
    let components = components_on(alloc, drives, state.next_object)?;
    let kept = Kept {
        number: file.number,
        map: file.map,
        zoned: file.zoned,
        first_tag: file.tag,
        tag: file.tag,
        format: state.format,
        size: 0,
        high: 0,
        ready: false,
        phase: Phase::Still,
        components,
        grants: Grants::new(alloc),
        ended: Grants::new(alloc),
    };
    Ok(FileState {
        kept,
        spent: false,
        job: None,
    })
}

// Different online drives for the components, by the placer.
fn chosen_for<P: Place>(
    alloc: Global,
    state: &State,
    count: u32,
    placer: &P,
) -> Result<Numbers, Memory>
    requires good { IsGood state.now }
    requires placer { P.is_placer placer.now }
    requires enough { count ≤ length (online state.now.drives) }
    ensures placed { IfOk result (λ chosen. places state.now.drives count chosen ≡ chosen) }
    ensures many { IfOk result (λ chosen. length chosen ≡ count) }
{
    let loads = loads_of(alloc, state)?;
    placer.place(count, loads.as_slice())
}

// Different online drives for the components, spread over their zones by the placer.
fn spread_for<P: Place>(
    alloc: Global,
    state: &State,
    map: &DataMap,
    placer: &P,
) -> Result<Numbers, Memory>
    requires good { IsGood state.now }
    requires placer { P.is_placer placer.now }
    requires room { IsTrue (has_room (ask_of map.now) (in_zones (online state.now.drives))) }
    ensures placed { IfOk result (λ chosen. drives_for true state.now.drives map.now chosen ≡ chosen) }
    ensures many { IfOk result (λ chosen. length chosen ≡ map.now.comps) }
{
    map.known();
    let loads = loads_of(alloc, state)?;
    let zones = zone_loads(alloc, loads.as_slice())?;
    placer.spread(alloc, &zone_ask(map), zones.as_slice())
}

// The drives for the components of such a file.
fn drives_for<P: Place>(
    alloc: Global,
    state: &State,
    file: &NewFile,
    placer: &P,
) -> Result<Numbers, Memory>
    requires good { IsGood state.now }
    requires placer { P.is_placer placer.now }
    requires drives { HasDrives file.now.zoned state.now.drives file.now.map }
    ensures placed { IfOk result (λ chosen. drives_for file.now.zoned state.now.drives file.now.map chosen ≡ chosen) }
    ensures many { IfOk result (λ chosen. length chosen ≡ file.now.map.comps) }
{
    if file.zoned {
        return spread_for(alloc, state, &file.map, placer);
    }
    chosen_for(alloc, state, file.map.raw().comps, placer)
}

// A file is made that may be made.
fn create<P: Place>(
    alloc: Global,
    state: &mut State,
    file: NewFile,
    placer: &P,
) -> Result<Step, Memory>
    requires good { IsGood state.old }
    requires room { HasRoom (server_of state.old) }
    requires placer { P.is_placer placer.now }
    requires few { file.map.comps ≤ MAX_FILE_COMPONENTS }
    requires drives { HasDrives file.zoned state.old.drives file.map }
    requires usable { refusal (server_of state.old) file.number file.map file.zoned ≡ None }
    ensures made { IfOk result (λ out. Creates file state.old state.new out) }
    ensures good { OnOk result (IsGood state.new) }
{
    let drives = drives_for(alloc, state, &file, placer)?;
    let mut made = unmade(alloc, state, file, drives.as_slice())?;
    let object = state.next_object + drives.len() as u64;
    let mut effects = no_effects(alloc, state.next_nonce, object);
    make(alloc, &mut made, &mut effects)?;
    put(&mut state.files, file.number, made)?;
    let step = finish_step(alloc, state, effects)?;
    list(state, file.number)?;
    Ok(step)
}

/// A file is made on drives that the placer names, spread over zones or not, and its components are sent CREATE.
///
/// # Errors
///
/// As [`FileErr`] says. Then nothing is changed, want of memory excepted.
pub fn create_file<P: Place>(
    alloc: Global,
    state: &mut State,
    number: u32,
    raw: RawMap,
    tag: u32,
    zoned: bool,
    placer: &P,
) -> Result<Step, FileErr>
    requires good { IsGood state.old }
    requires room { HasRoom (server_of state.old) }
    requires placer { P.is_placer placer.now }
    requires algorithm { HasAlgorithm raw }
    ensures refused { IfErr result (IsRefused number raw zoned state.old state.new) }
    ensures made { IfOk result (λ out. Creates (record { number = number; map = raw; tag = tag; zoned = zoned })
        state.old state.new out) }
    ensures good { OnOk result (IsGood state.new) }
{
    let map = usable(alloc, state, number, raw, zoned)?;
    let file = NewFile {
        number,
        map,
        tag,
        zoned,
    };
    Ok(create(alloc, state, file, placer)?)
}
