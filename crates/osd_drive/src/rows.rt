ghost use Rattle.std.specs.Prelude.{◌≡◌, ◌+◌, nat_eq};
ghost use Rattle.osd_drive.specs.declared.limits.TheConstants.{MAX_TAG};
ghost use Rattle.osd_drive.specs.Table.{is_create, is_write, is_set_attr, is_set_tag, has_range, has_value, is_mutating, of_object, has_no_right, is_elsewhere, is_out_of_range, lacks_object, finds_object, has_other_tag, passes_limit, lacks_space, lacks_lane, is_stale, lacks_attribute, is_repeated, tag_of, nonce_of, late_fault_of};

use crate::limits::{FIRST_PARTITION, MAX_END, MAX_LENGTH, MAX_OBJECTS, MAX_TAG, MAX_VALUE};
use crate::store_view::StoreView;
use crate::verdict::Verdict;
use osd_commands::{Action, Command};
use osd_objects::{FIRST_USER_ATTRIBUTE, MAX_ATTRIBUTES, MAX_LANES};

fn creates(action: Action) -> bool
    ensures { result ≡ is_create action }
{
    matches!(action, Action::Create)
}

fn sets_attr(action: Action) -> bool
    ensures { result ≡ is_set_attr action }
{
    matches!(action, Action::SetAttr)
}

fn sets_tag(action: Action) -> bool
    ensures { result ≡ is_set_tag action }
{
    matches!(action, Action::SetTag)
}

fn writes(action: Action) -> bool
    ensures { result ≡ is_write action }
{
    matches!(action, Action::Write)
}

fn ranges(action: Action) -> bool
    ensures { result ≡ has_range action }
{
    matches!(action, Action::Read | Action::Write)
}

fn carries_value(action: Action) -> bool
    ensures { result ≡ has_value action }
{
    matches!(action, Action::Create | Action::SetAttr)
}

// Whether an action changes an object.
fn mutates(action: Action) -> bool
    ensures { result ≡ is_mutating action }
{
    !matches!(action, Action::Read | Action::GetAttr)
}

// The end of the command's range.
fn end_of(c: &Command) -> u128
    ensures { result ≡ c.now.offset + c.now.length }
{
    u128::from(c.offset) + u128::from(c.length)
}

/// Whether the right is missing, or a SET ATTR names an attribute that is no user's.
pub fn has_no_right(c: &Command) -> bool
    ensures { result ≡ has_no_right c.now }
{
    c.capability.rights & c.action.right() == 0
        || (sets_attr(c.action) && c.attribute < FIRST_USER_ATTRIBUTE)
}

/// Whether the capability is for another object, or the partition is another drive's.
pub fn is_elsewhere(number: u32, c: &Command) -> bool
    ensures { result ≡ is_elsewhere number c.now }
{
    !(c.partition == c.capability.partition
        && c.object == c.capability.object
        && c.partition == FIRST_PARTITION + u64::from(number))
}

/// Whether the range isn't inside the capability's.
pub fn is_out_of_range(c: &Command) -> bool
    ensures { result ≡ is_out_of_range c.now }
{
    let start = c.capability.range_start;
    let end = u128::from(start) + u128::from(c.capability.range_len);
    ranges(c.action) && !(start <= c.offset && end_of(c) <= end)
}

fn lacks_object(view: &StoreView, c: &Command) -> bool
    ensures { result ≡ lacks_object view.now c.now }
{
    !creates(c.action) && view.object.is_none()
}

fn finds_object(view: &StoreView, c: &Command) -> bool
    ensures { result ≡ finds_object view.now c.now }
{
    creates(c.action) && view.object.is_some()
}

fn has_other_tag(view: &StoreView, c: &Command) -> bool
    ensures { result ≡ has_other_tag view.now c.now }
{
    let other = match view.object {
        Some(object) => c.capability.tag != object.tag,
        None => false,
    };
    !creates(c.action) && other
}

// Whether the object has the greatest tag.
fn has_last_tag(view: &StoreView) -> bool
    ensures { result ≡ of_object (λ o. nat_eq o.tag MAX_TAG) view.now.object }
{
    match view.object {
        Some(object) => object.tag == MAX_TAG,
        None => false,
    }
}

fn passes_limit(view: &StoreView, c: &Command) -> bool
    ensures { result ≡ passes_limit view.now c.now }
{
    c.length > MAX_LENGTH
        || (ranges(c.action) && end_of(c) > u128::from(MAX_END))
        || (carries_value(c.action) && c.payload.len() > MAX_VALUE)
        || (sets_tag(c.action) && has_last_tag(view))
        || (creates(c.action) && view.objects >= MAX_OBJECTS)
}

fn lacks_space(view: &StoreView, c: &Command) -> bool
    ensures { result ≡ lacks_space view.now c.now }
{
    let growth = match view.object {
        Some(object) => end_of(c).saturating_sub(u128::from(object.length)),
        None => 0,
    };
    writes(c.action) && c.length > 0 && growth > u128::from(view.free)
}

fn lacks_lane(view: &StoreView, c: &Command) -> bool
    ensures { result ≡ lacks_lane view.now c.now }
{
    let full = match view.object {
        Some(object) => object.lanes as usize >= MAX_LANES,
        None => false,
    };
    mutates(c.action) && view.lane.is_none() && full
}

fn is_stale(view: &StoreView, c: &Command) -> bool
    ensures { result ≡ is_stale view.now c.now }
{
    let later = match view.lane {
        Some(lane) => lane.nonce > c.nonce,
        None => false,
    };
    mutates(c.action) && later
}

fn lacks_attribute(view: &StoreView, c: &Command) -> bool
    ensures { result ≡ lacks_attribute view.now c.now }
{
    let full = match view.object {
        Some(object) => object.user_attrs as usize >= MAX_ATTRIBUTES,
        None => false,
    };
    sets_attr(c.action) && !view.has_attribute && full
}

fn is_repeated(view: &StoreView, c: &Command) -> bool
    ensures { result ≡ is_repeated view.now c.now }
{
    let same = match view.lane {
        Some(lane) => lane.nonce == c.nonce,
        None => false,
    };
    mutates(c.action) && same
}

fn tag_in(view: &StoreView) -> u32
    ensures { result ≡ tag_of view.now.object }
{
    match view.object {
        Some(object) => object.tag,
        None => 0,
    }
}

fn nonce_in(view: &StoreView) -> u64
    ensures { result ≡ nonce_of view.now.lane }
{
    match view.lane {
        Some(lane) => lane.nonce,
        None => 0,
    }
}

/// The first of the rows on the object that applies, else `Perform`.
#[tactic(auto, unfolding(crate::specs::Table::late_fault_of))]
pub fn late_verdict(view: &StoreView, c: &Command) -> Verdict
    ensures { result ≡ late_fault_of view.now c.now }
{
    if lacks_object(view, c) {
        Verdict::NoObject
    } else if finds_object(view, c) {
        Verdict::Exists
    } else if has_other_tag(view, c) {
        Verdict::Tag {
            current: tag_in(view),
        }
    } else if passes_limit(view, c) {
        Verdict::Limit
    } else if lacks_space(view, c) {
        Verdict::NoSpace { free: view.free }
    } else if lacks_lane(view, c) {
        Verdict::LaneFull
    } else if is_stale(view, c) {
        Verdict::Stale {
            last: nonce_in(view),
        }
    } else if lacks_attribute(view, c) {
        Verdict::AttrFull
    } else if is_repeated(view, c) {
        Verdict::Again
    } else {
        Verdict::Perform
    }
}
