// A fence by itself.
use osd_commands::Reply;
use osd_lists::{Bytes, Numbers};
use recall_fence::Fence;
use server_rules::{OTHER_TAG, PERFORMED};
use std::alloc::Global;

// The component that replies, the verdict and the detail, whether it counts, and the lowest that is waited for then.
type Step = (u32, u16, u64, bool, Option<u32>);

// Replies to a fence at tag 7 that waits for components 0, 2 and 3.
const STEPS: &[Step] = &[
    // Another tag, and a verdict that isn't named.
    (0, OTHER_TAG, 7, false, Some(0)),
    (0, OTHER_TAG, 9, false, Some(0)),
    (0, 11, 0, false, Some(0)),
    // A component that it doesn't wait for.
    (1, PERFORMED, 0, true, Some(0)),
    (2, PERFORMED, 8, true, Some(0)),
    (0, OTHER_TAG, 8, true, Some(3)),
    (0, PERFORMED, 0, true, Some(3)),
];

fn goes(alloc: Global, fence: &mut Fence, step: Step) -> bool {
    let (component, verdict, detail, counts, lowest) = step;
    let reply = Reply {
        action: 6,
        verdict,
        object: 65_536,
        nonce: 1,
        detail,
        payload: Bytes::new(alloc),
    };
    fence.on_reply(component, &reply) == counts && fence.waiting_for() == lowest
}

fn all_go(alloc: Global, fence: &mut Fence) -> bool {
    for step in STEPS.iter() {
        if !goes(alloc, fence, *step) {
            return false;
        }
    }
    true
}

fn ends(fence: &mut Fence) -> bool {
    fence.drop_component(3);
    fence.waiting_for().is_none() && fence.next_tag() == 8 && fence.file() == 5
}

fn waits(alloc: Global, present: Numbers) -> bool {
    match Fence::start(alloc, 5, present, 7) {
        Ok(mut fence) => all_go(alloc, &mut fence) && ends(&mut fence),
        Err(_) => false,
    }
}

fn waits_for(alloc: Global, present: &[u32]) -> bool {
    match Numbers::copied(alloc, present) {
        Ok(present) => waits(alloc, present),
        Err(_) => false,
    }
}

#[test]
fn a_fence_waits_for_those_neither_done_nor_dropped(rt: HostRuntime) {
    assert!(rt; waits_for(rt.alloc(), &[0, 2, 3]));
}
