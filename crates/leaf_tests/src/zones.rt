//! Components spread over zones: whether there is room, which drives are dealt, and a drive for one component.
use std::alloc::Global;
use zone_place::{Holder, ZoneAsk, ZoneLoad, deal, pick, zone_room};

// Two groups of three components, of which one may be lost.
const ASKED: ZoneAsk = ZoneAsk {
    groups: 2,
    size: 3,
    most: 1,
};

fn online(drive: u32, zone: u32) -> ZoneLoad {
    ZoneLoad {
        drive,
        online: true,
        objects: 0,
        zone,
    }
}

// Drives 0 to 5 in these zones.
fn in_zones(zones: &[u32; 6]) -> [ZoneLoad; 6] {
    [
        online(0, zones[0]),
        online(1, zones[1]),
        online(2, zones[2]),
        online(3, zones[3]),
        online(4, zones[4]),
        online(5, zones[5]),
    ]
}

fn has_room(zones: &[u32; 6]) -> bool {
    zone_room(&ASKED, &in_zones(zones))
}

fn is_dealt(alloc: Global, zones: &[u32; 6], dealt: &[u32]) -> bool {
    match deal(alloc, &ASKED, &in_zones(zones)) {
        Ok(chosen) => chosen.as_slice() == dealt,
        Err(_) => false,
    }
}

#[test]
fn three_zones_of_two_drives_have_room(rt: HostRuntime) {
    assert!(rt; has_room(&[7, 5, 9, 5, 7, 9]) && !has_room(&[5, 5, 5, 7, 7, 9]));
    assert!(rt; is_dealt(rt.alloc(), &[7, 5, 9, 5, 7, 9], &[1, 0, 2, 3, 4, 5]));
}

// Each component where dealing puts it; the drive of component 0 is lost.
const HOLDERS: [Holder; 6] = [
    Holder {
        component: 0,
        drive: 1,
    },
    Holder {
        component: 1,
        drive: 0,
    },
    Holder {
        component: 2,
        drive: 2,
    },
    Holder {
        component: 3,
        drive: 3,
    },
    Holder {
        component: 4,
        drive: 4,
    },
    Holder {
        component: 5,
        drive: 5,
    },
];

fn is_picked(spare: [ZoneLoad; 2], component: u32, picked: Option<u32>) -> bool {
    let zones = in_zones(&[7, 5, 9, 5, 7, 9]);
    let loads = [
        zones[0], zones[1], zones[2], zones[3], zones[4], zones[5], spare[0], spare[1],
    ];
    pick(&ASKED, component, &HOLDERS, &loads) == picked
}

#[test]
fn a_component_goes_to_a_zone_without_others_of_its_group(rt: HostRuntime) {
    assert!(rt; is_picked([online(8, 7), online(7, 5)], 0, Some(7)));
    assert!(rt; is_picked([online(8, 5), online(7, 5)], 0, Some(7)));
    assert!(rt; is_picked([online(8, 7), online(7, 5)], 2, None));
}
