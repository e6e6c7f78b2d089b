//! The enabled events of two work-groups of two work-items, and of groups in two dimensions.

use enabled_events::grid::Grid;
use enabled_events::ready::Ready;
use kernel_tree::events::Event;
use std::test::Fail;

const IN_A_ROW: Grid = Grid {
    global: (4, 1),
    local: (2, 1),
};

#[test]
fn a_release_stands_at_its_groups_first_item(rt: HostRuntime) -> Result<(), Fail> {
    let mut ready = Ready::new(rt.alloc(), IN_A_ROW)?;
    assert_eq!(rt; ready.enabled(), 0);
    ready.set_item(3, true);
    ready.set_group(0, true);
    let count = ready.enabled();
    assert_eq!(rt; count, 2);
    if count == 2 {
        assert!(rt; ready.nth_enabled(0) == Event::Release(0));
        assert!(rt; ready.nth_enabled(1) == Event::Step(3));
    }
    Ok(())
}

#[test]
fn an_item_that_ends_has_no_event(rt: HostRuntime) -> Result<(), Fail> {
    let mut ready = Ready::new(rt.alloc(), IN_A_ROW)?;
    ready.set_item(0, true);
    ready.set_item(2, true);
    ready.set_item(0, false);
    let count = ready.enabled();
    assert_eq!(rt; count, 1);
    if count == 1 {
        assert!(rt; ready.nth_enabled(0) == Event::Step(2));
    }
    Ok(())
}

// Item 4 is group 0's, and comes behind group 1's first.
#[test]
fn a_release_may_stand_between_items_of_another_group(rt: HostRuntime) -> Result<(), Fail> {
    let grid = Grid {
        global: (4, 6),
        local: (2, 3),
    };
    let mut ready = Ready::new(rt.alloc(), grid)?;
    ready.set_item(4, true);
    ready.set_group(1, true);
    ready.set_item(1, true);
    let count = ready.enabled();
    assert_eq!(rt; count, 3);
    if count == 3 {
        assert!(rt; ready.nth_enabled(0) == Event::Step(1));
        assert!(rt; ready.nth_enabled(1) == Event::Release(1));
        assert!(rt; ready.nth_enabled(2) == Event::Step(4));
    }
    assert!(rt; !ready.has_stopped(0) && ready.has_stopped(1));
    Ok(())
}
