//! Accesses of cells by two work-groups of two work-items each: items 0 and 1, items 2 and 3.

ghost use Rattle.std.specs.Prelude.{◌≡◌};

use kernel_tree::tree::Array;
use race_marks::cells::CellMarks;
use race_marks::marks::{Marks, Touch};
use std::test::Fail;

fn reads(group: u16, item: u16) -> Touch
    ensures { result.group ≡ group }
{
    Touch {
        group,
        item,
        writes: false,
    }
}

fn writes(group: u16, item: u16) -> Touch
    ensures { result.group ≡ group }
{
    Touch {
        group,
        item,
        writes: true,
    }
}

#[test]
fn a_read_and_a_write_in_one_epoch_race(rt: HostRuntime) -> Result<(), Fail> {
    let mut marks = Marks::new(rt.alloc(), 1, 2)?;
    assert!(rt; !marks.touch(0, reads(0, 0)));
    assert!(rt; marks.touch(0, writes(0, 1)));
    assert!(rt; !marks.touch(0, writes(0, 0)));
    assert!(rt; marks.touch(0, reads(0, 1)));
    Ok(())
}

#[test]
fn items_may_read_one_cell_and_none_may_write_it_then(rt: HostRuntime) -> Result<(), Fail> {
    let mut marks = Marks::new(rt.alloc(), 1, 2)?;
    assert!(rt; !marks.touch(0, reads(0, 0)));
    assert!(rt; !marks.touch(0, reads(0, 1)));
    assert!(rt; marks.touch(0, writes(0, 0)));
    assert!(rt; marks.touch(0, writes(0, 1)));
    Ok(())
}

#[test]
fn a_release_orders_its_own_group_alone(rt: HostRuntime) -> Result<(), Fail> {
    let mut marks = Marks::new(rt.alloc(), 1, 2)?;
    assert!(rt; !marks.touch(0, writes(0, 0)));
    assert!(rt; marks.touch(0, reads(0, 1)));
    marks.release(1);
    assert!(rt; marks.touch(0, reads(0, 1)));
    marks.release(0);
    assert!(rt; marks.touch(0, reads(1, 2)));
    assert!(rt; !marks.touch(0, reads(0, 1)));
    Ok(())
}

#[test]
fn groups_may_read_one_cell_and_none_may_write_it_then(rt: HostRuntime) -> Result<(), Fail> {
    let mut marks = Marks::new(rt.alloc(), 1, 2)?;
    assert!(rt; !marks.touch(0, reads(0, 0)));
    assert!(rt; marks.touch(0, writes(1, 2)));
    assert!(rt; !marks.touch(0, reads(1, 2)));
    marks.release(0);
    assert!(rt; marks.touch(0, writes(0, 0)));
    assert!(rt; !marks.touch(0, reads(0, 1)));
    Ok(())
}

// A group's epochs begin again after 65,535 releases, at the one in which the cell was written.
#[test]
fn a_release_orders_however_many_came_before(rt: HostRuntime) -> Result<(), Fail> {
    let mut marks = Marks::new(rt.alloc(), 1, 2)?;
    assert!(rt; !marks.touch(0, writes(0, 0)));
    for _ in 0..65_535 {
        marks.release(0);
    }
    assert!(rt; !marks.touch(0, reads(0, 1)));
    assert!(rt; marks.touch(0, reads(1, 2)));
    Ok(())
}

#[test]
fn four_cells_race_at_the_first_that_does(rt: HostRuntime) -> Result<(), Fail> {
    let alloc = rt.alloc();
    let row = vec![in alloc; 0; 8]?;
    let outs = vec![in alloc; row]?;
    let mut marks = CellMarks::new(alloc, &outs, &[], 2)?;
    let output = Array::Output(0);
    assert!(rt; !marks.touch(output, 6, reads(0, 0)));
    assert!(rt; !marks.touch(output, 7, reads(0, 0)));
    assert!(rt; marks.touch_four(output, 0, writes(1, 2)).is_none());
    assert!(rt; marks.touch_four(output, 1, reads(1, 2)).is_none());
    assert!(rt; marks.touch_four(output, 1, writes(1, 2)) == Some(2));
    Ok(())
}

#[test]
fn a_flag_orders_its_own_memory_alone(rt: HostRuntime) -> Result<(), Fail> {
    let alloc = rt.alloc();
    let row = vec![in alloc; 0; 1]?;
    let outs = vec![in alloc; row]?;
    let mut marks = CellMarks::new(alloc, &outs, &[1], 2)?;
    assert!(rt; !marks.touch(Array::Output(0), 0, writes(0, 0)));
    assert!(rt; !marks.touch(Array::Local(0), 0, writes(0, 0)));
    assert!(rt; !marks.touch(Array::Local(0), 0, writes(1, 2)));
    marks.release(0, true, false);
    assert!(rt; marks.touch(Array::Output(0), 0, reads(0, 1)));
    assert!(rt; !marks.touch(Array::Local(0), 0, reads(0, 1)));
    assert!(rt; marks.touch(Array::Local(0), 0, reads(1, 3)));
    Ok(())
}
