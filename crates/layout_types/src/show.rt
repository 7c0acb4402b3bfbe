ghost use Rattle.std.specs.Prelude.{◌≡◌, ◌++◌, ℕ, List, OnOk, codes};
ghost use Rattle.layout_types.specs.Grammar.{GivesOrMemory};
ghost use Rattle.layout_types.specs.Leaves.{text_read};
ghost use Rattle.layout_types.specs.Lines.{members_lines, list_lines, targetaddr_lines, delta_lines, hint_part};

use crate::cred::ObjectCred;
use crate::device_addr::{DeviceAddr, NetAddr, TargetId};
use crate::err::LayoutErr;
use crate::hint::LayoutHint;
use crate::ioerrs::{IoErr, IoErrs};
use crate::layout::Layout;
use crate::lines::{
    front_of_member, joined, put_bool, put_bytes, put_number, put_opaque, put_signed, put_u32,
};
use crate::objid::ObjId;
use crate::structure::{Part, read_all};
use crate::update::LayoutUpdate;
use data_map::RawMap;
use osd_lists::{Bytes, Memory, Sequence};
use std::alloc::Global;

// What is shown field by field.
pub(crate) trait Show {
    // The lines of a value, whose fields' names stand behind others.
    ghost lines: { List ℕ → Self → List ℕ };

    // Adds the lines.
    fn show(&self, alloc: Global, out: &mut Bytes, front: &[u8]) -> Result<(), Memory>
        ensures { OnOk result (out.new ≡ out.old ++ lines front.now self.now) };
}

// The text of the structure that the bytes spell.
pub(crate) fn show_all<T: Part + Show>(alloc: Global, bytes: &[u8]) -> Result<Bytes, LayoutErr>
    ensures { GivesOrMemory (text_read T.reading T.lines bytes.now) result }
{
    let value: T = read_all(alloc, bytes)?;
    let mut text = Bytes::new(alloc);
    value.show(alloc, &mut text, b"")?;
    text.extend_from_slice(b".\n")?;
    Ok(text)
}

// The members of a list from number `first` on.
fn show_members<T: Show>(
    alloc: Global,
    out: &mut Bytes,
    path: &[u8],
    list: &[T],
) -> Result<(), Memory>
    ensures { OnOk result (out.new ≡ out.old ++ members_lines T.lines path.now 0 list.now) }
{
    for (n, member) in list.iter().enumerate() {
        let front = front_of_member(alloc, path, n as u64)?;
        member.show(alloc, out, front.as_slice())?;
    }
    Ok(())
}

// The count of a list, and its members.
fn show_list<T: Show + Drop>(
    alloc: Global,
    out: &mut Bytes,
    front: &[u8],
    name: &[u8],
    list: &Sequence<T>,
) -> Result<(), Memory>
    ensures { OnOk result (out.new ≡ out.old ++ list_lines T.lines (front.now ++ name.now) list.now) }
{
    put_number(out, front, name, list.len() as u64)?;
    let path = joined(alloc, front, name)?;
    show_members(alloc, out, path.as_slice(), list.as_slice())
}

// A part whose fields' names stand behind a name.
fn show_part<T: Show>(
    alloc: Global,
    out: &mut Bytes,
    front: &[u8],
    name: &[u8],
    part: &T,
) -> Result<(), Memory>
    ensures { OnOk result (out.new ≡ out.old ++ T.lines (front.now ++ name.now) part.now) }
{
    let inner = joined(alloc, front, name)?;
    part.show(alloc, out, inner.as_slice())
}

impl Show for ObjId {
    ghost use Rattle.layout_types.specs.Lines.{objid_lines};

    ghost lines = { objid_lines };

    #[tactic(auto, unfolding(crate::specs::Lines::objid_lines))]
    fn show(&self, alloc: Global, out: &mut Bytes, front: &[u8]) -> Result<(), Memory> {
        put_opaque(alloc, out, front, b"oid_device_id", &self.oid_device_id)?;
        put_number(out, front, b"oid_partition_id", self.oid_partition_id)?;
        put_number(out, front, b"oid_object_id", self.oid_object_id)
    }
}

impl Show for ObjectCred {
    ghost use Rattle.layout_types.specs.Lines.{cred_lines};

    ghost lines = { cred_lines };

    #[tactic(auto, unfolding(crate::specs::Lines::cred_lines))]
    fn show(&self, alloc: Global, out: &mut Bytes, front: &[u8]) -> Result<(), Memory> {
        show_part(alloc, out, front, b"oc_object_id.", &self.oc_object_id)?;
        put_u32(out, front, b"oc_osd_version", self.oc_osd_version.number())?;
        put_u32(out, front, b"oc_cap_key_sec", self.oc_cap_key_sec.number())?;
        put_bytes(
            alloc,
            out,
            front,
            b"oc_capability_key",
            &self.oc_capability_key,
        )?;
        put_bytes(alloc, out, front, b"oc_capability", &self.oc_capability)
    }
}

impl Show for RawMap {
    ghost use Rattle.layout_types.specs.Lines.{map_lines};

    ghost lines = { map_lines };

    #[tactic(auto, unfolding(crate::specs::Lines::map_lines))]
    fn show(&self, _alloc: Global, out: &mut Bytes, front: &[u8]) -> Result<(), Memory> {
        put_u32(out, front, b"odm_num_comps", self.comps)?;
        put_number(out, front, b"odm_stripe_unit", self.unit)?;
        put_u32(out, front, b"odm_group_width", self.width)?;
        put_u32(out, front, b"odm_group_depth", self.depth)?;
        put_u32(out, front, b"odm_mirror_cnt", self.mirrors)?;
        put_u32(out, front, b"odm_raid_algorithm", self.algorithm)
    }
}

impl Show for Layout {
    ghost use Rattle.layout_types.specs.Lines.{layout_lines};

    ghost lines = { layout_lines };

    #[tactic(auto, unfolding(crate::specs::Lines::layout_lines))]
    fn show(&self, alloc: Global, out: &mut Bytes, front: &[u8]) -> Result<(), Memory> {
        show_part(alloc, out, front, b"olo_map.", &self.olo_map)?;
        put_u32(out, front, b"olo_comps_index", self.olo_comps_index)?;
        show_list(alloc, out, front, b"olo_components", &self.olo_components)
    }
}

impl Show for TargetId {
    ghost use Rattle.layout_types.specs.Lines.{target_lines};

    ghost lines = { target_lines };

    #[tactic(auto, unfolding(crate::specs::Lines::target_lines))]
    fn show(&self, alloc: Global, out: &mut Bytes, front: &[u8]) -> Result<(), Memory> {
        match self {
            TargetId::Anon => put_number(out, front, b"oti_type", 1),
            TargetId::ScsiName(name) => {
                put_number(out, front, b"oti_type", 2)?;
                put_bytes(alloc, out, front, b"oti_value", name)
            }
            TargetId::ScsiDeviceId(id) => {
                put_number(out, front, b"oti_type", 3)?;
                put_bytes(alloc, out, front, b"oti_value", id)
            }
        }
    }
}

impl Show for NetAddr {
    ghost use Rattle.layout_types.specs.Lines.{netaddr_lines};

    ghost lines = { netaddr_lines };

    #[tactic(auto, unfolding(crate::specs::Lines::netaddr_lines))]
    fn show(&self, alloc: Global, out: &mut Bytes, front: &[u8]) -> Result<(), Memory> {
        put_bytes(alloc, out, front, b"na_r_netid", &self.na_r_netid)?;
        put_bytes(alloc, out, front, b"na_r_addr", &self.na_r_addr)
    }
}

// The bool of an address, and the address.
fn show_netaddr(
    alloc: Global,
    out: &mut Bytes,
    front: &[u8],
    netaddr: &Option<NetAddr>,
) -> Result<(), Memory>
    ensures { OnOk result (out.new ≡ out.old ++ targetaddr_lines front.now netaddr.now) }
{
    match netaddr {
        None => put_bool(out, front, b"oda_targetaddr.ota_available", false),
        Some(netaddr) => {
            put_bool(out, front, b"oda_targetaddr.ota_available", true)?;
            show_part(alloc, out, front, b"oda_targetaddr.", netaddr)
        }
    }
}

impl Show for DeviceAddr {
    ghost use Rattle.layout_types.specs.Lines.{deviceaddr_lines};

    ghost lines = { deviceaddr_lines };

    #[tactic(auto, unfolding(crate::specs::Lines::deviceaddr_lines))]
    fn show(&self, alloc: Global, out: &mut Bytes, front: &[u8]) -> Result<(), Memory> {
        show_part(alloc, out, front, b"oda_targetid.", &self.oda_targetid)?;
        show_netaddr(alloc, out, front, &self.oda_targetaddr)?;
        put_opaque(alloc, out, front, b"oda_lun", &self.oda_lun)?;
        put_bytes(alloc, out, front, b"oda_systemid", &self.oda_systemid)?;
        show_part(
            alloc,
            out,
            front,
            b"oda_root_obj_cred.",
            &self.oda_root_obj_cred,
        )?;
        put_bytes(alloc, out, front, b"oda_osdname", &self.oda_osdname)
    }
}

// The bool of a delta, and the delta.
fn show_delta(out: &mut Bytes, front: &[u8], delta: Option<i64>) -> Result<(), Memory>
    ensures { OnOk result (out.new ≡ out.old ++ delta_lines front.now delta) }
{
    match delta {
        None => put_bool(out, front, b"dsu_valid", false),
        Some(delta) => {
            put_bool(out, front, b"dsu_valid", true)?;
            put_signed(out, front, b"dsu_delta", delta)
        }
    }
}

impl Show for LayoutUpdate {
    ghost use Rattle.layout_types.specs.Lines.{update_lines};

    ghost lines = { update_lines };

    #[tactic(auto, unfolding(crate::specs::Lines::update_lines))]
    fn show(&self, _alloc: Global, out: &mut Bytes, front: &[u8]) -> Result<(), Memory> {
        show_delta(out, front, self.dsu_delta)?;
        put_bool(out, front, b"olu_ioerr_flag", self.olu_ioerr_flag)
    }
}

impl Show for IoErr {
    ghost use Rattle.layout_types.specs.Lines.{ioerr_lines};

    ghost lines = { ioerr_lines };

    #[tactic(auto, unfolding(crate::specs::Lines::ioerr_lines))]
    fn show(&self, alloc: Global, out: &mut Bytes, front: &[u8]) -> Result<(), Memory> {
        show_part(alloc, out, front, b"oer_component.", &self.oer_component)?;
        put_number(out, front, b"oer_comp_offset", self.oer_comp_offset)?;
        put_number(out, front, b"oer_comp_length", self.oer_comp_length)?;
        put_bool(out, front, b"oer_iswrite", self.oer_iswrite)?;
        put_u32(out, front, b"oer_errno", self.oer_errno.number())
    }
}

impl Show for IoErrs {
    ghost use Rattle.layout_types.specs.Lines.{ioerrs_lines};

    ghost lines = { ioerrs_lines };

    #[tactic(auto, unfolding(crate::specs::Lines::ioerrs_lines))]
    fn show(&self, alloc: Global, out: &mut Bytes, front: &[u8]) -> Result<(), Memory> {
        show_list(
            alloc,
            out,
            front,
            b"olr_ioerr_report",
            &self.olr_ioerr_report,
        )
    }
}

// The bool of a number, whose path is the number's and `_set`, and the number.
fn show_hint(
    alloc: Global,
    out: &mut Bytes,
    front: &[u8],
    name: &[u8],
    value: Option<u64>,
) -> Result<(), Memory>
    ensures { OnOk result (out.new ≡ out.old ++ hint_part (front.now ++ name.now) value) }
{
    let path = joined(alloc, front, name)?;
    match value {
        None => put_bool(out, path.as_slice(), b"_set", false),
        Some(value) => {
            put_bool(out, path.as_slice(), b"_set", true)?;
            put_number(out, front, name, value)
        }
    }
}

// A number of 32 bits, if there is one, as one of 64.
fn widened(value: Option<u32>) -> Option<u64>
    ensures { result ≡ value }
{
    match value {
        None => None,
        Some(n) => Some(u64::from(n)),
    }
}

impl Show for LayoutHint {
    ghost use Rattle.layout_types.specs.Lines.{hint_lines};

    ghost lines = { hint_lines };

    #[tactic(auto, unfolding(crate::specs::Lines::hint_lines))]
    fn show(&self, alloc: Global, out: &mut Bytes, front: &[u8]) -> Result<(), Memory> {
        show_hint(alloc, out, front, b"max_comps", widened(self.max_comps))?;
        show_hint(alloc, out, front, b"stripe_unit", self.stripe_unit)?;
        show_hint(alloc, out, front, b"group_width", widened(self.group_width))?;
        show_hint(alloc, out, front, b"group_depth", widened(self.group_depth))?;
        show_hint(alloc, out, front, b"mirror_cnt", widened(self.mirror_cnt))?;
        show_hint(
            alloc,
            out,
            front,
            b"raid_algorithm",
            widened(self.raid_algorithm),
        )
    }
}
