use grid::grid::{BLOCK_BYTES, Grid};
use history::operation::{Answer, Edit, LookUp, Operation};
use history::run::run;
use layers::intersection::Intersection;
use layers::union::Union;
use layers::window::{Stretch, Window};
use list::link_list::LinkList;
use list::record::LinkRecord;
use pile::bottom::{Bottom, Open};
use pile::piles::{ask_with_mirror, run_on_every_layer};
use sheet::lengths::Lengths;
use sheet::refusal::Refusal;
use sheet::sheet::{Editable, Sheet};
use stack::step::{Step, Turn};
use std::test::Fail;
use turned::mirrored::Mirrored;
use turned::swapped::Swapped;

const FREE: LinkRecord = LinkRecord { left: 0, right: 0 };

/// What the host left in a record.
const LEFT_OVER: LinkRecord = LinkRecord { left: 7, right: 9 };

#[test]
fn a_full_list_refuses_its_link_and_another(rt: HostRuntime) -> Result<(), Fail> {
    let block = vec![in rt.alloc(); LEFT_OVER; 1]?;
    let mut list = LinkList::lay(Lengths::new(2, 2)?, block);
    assert!(rt; list.link(1, 1) == Ok(()));
    assert!(rt; list.free() == 0);
    assert!(rt; list.link(1, 1) == Err(Refusal::AlreadyLinked));
    assert!(rt; list.link(2, 2) == Err(Refusal::NothingFree));
    assert!(rt; list.unlink(1, 1) == Ok(()));
    assert!(rt; list.link(2, 2) == Ok(()));
    Ok(())
}

#[test]
fn links_stand_first_and_freed_records_are_zero(rt: HostRuntime) -> Result<(), Fail> {
    let block = vec![in rt.alloc(); LEFT_OVER; 4]?;
    let mut list = LinkList::lay(Lengths::new(2, 2)?, block);
    assert!(rt; list.link(2, 1) == Ok(()) && list.link(1, 2) == Ok(()));
    assert!(rt; list.next_link(1, 0) == Some(2) && list.next_link(2, 2) == None);
    assert!(rt; list.unlink(2, 1) == Ok(()));
    let block = list.into_block();
    assert!(rt; block.len() == 4);
    assert!(rt; block[0] == LinkRecord { left: 1, right: 2 });
    assert!(rt; block[1] == LinkRecord { left: 0, right: 0 });
    assert!(rt; block[2] == LEFT_OVER && block[3] == LEFT_OVER);
    Ok(())
}

#[test]
fn a_long_block_is_used_up_to_the_limit(rt: HostRuntime) -> Result<(), Fail> {
    let block = vec![in rt.alloc(); LEFT_OVER; 4_097]?;
    let list = LinkList::lay(Lengths::new(512, 512)?, block);
    assert!(rt; list.free() == 4_096);
    Ok(())
}

#[test]
fn a_link_is_swapped_and_mirrored(rt: HostRuntime) -> Result<(), Fail> {
    let mut list = LinkList::lay(Lengths::new(2, 3)?, vec![in rt.alloc(); FREE; 4]?);
    list.link(1, 3)?;
    let swapped = Swapped { below: list };
    assert!(rt; swapped.lengths() == Lengths::new(3, 2)?);
    assert!(rt; swapped.linked(3, 1) && !swapped.linked(1, 3));
    assert!(rt; swapped.next_link(3, 0) == Some(1) && swapped.next_link(1, 0) == None);
    let mirrored = Mirrored {
        below: swapped.below,
    };
    assert!(rt; mirrored.linked(1, 1) && !mirrored.linked(1, 3));
    assert!(rt; mirrored.next_link(1, 0) == Some(1) && mirrored.next_link(1, 2) == None);
    Ok(())
}

#[test]
fn a_swapped_linking_tests_its_own_left_word_first(rt: HostRuntime) -> Result<(), Fail> {
    let grid = Grid::lay(Lengths::new(2, 3)?, vec![in rt.alloc(); 0; BLOCK_BYTES]?);
    let mut swapped = Swapped { below: grid };
    assert_eq!(rt; swapped.link(4, 4), Err(Refusal::LeftOutside));
    assert_eq!(rt; swapped.link(3, 3), Err(Refusal::RightOutside));
    assert_eq!(rt; swapped.link(3, 2), Ok(()));
    assert_eq!(rt; swapped.free(), 5);
    let mut mirrored = Mirrored { below: swapped };
    assert_eq!(rt; mirrored.link(3, 1), Err(Refusal::AlreadyLinked));
    assert_eq!(rt; mirrored.unlink(3, 1), Ok(()));
    assert_eq!(rt; mirrored.free(), 6);
    Ok(())
}

#[test]
fn four_layers_over_two_sheets(rt: HostRuntime) -> Result<(), Fail> {
    let mut grid = Grid::lay(Lengths::new(4, 6)?, vec![in rt.alloc(); 0; BLOCK_BYTES]?);
    let mut list = LinkList::lay(Lengths::new(5, 3)?, vec![in rt.alloc(); FREE; 8]?);
    grid.link(2, 4)?;
    grid.link(3, 2)?;
    list.link(3, 2)?;
    list.link(5, 1)?;
    let union = Union {
        first: &grid,
        second: &list,
    };
    let window = Window {
        below: union,
        left: Stretch::new(2, 3)?,
        right: Stretch::new(2, 512)?,
    };
    let pile = Swapped {
        below: Mirrored { below: window },
    };
    // the window has (1, 3) and (2, 1), mirrored (1, 510) and (2, 512)
    assert!(rt; pile.lengths() == Lengths::new(512, 3)?);
    assert!(rt; pile.linked(510, 1) && pile.linked(512, 2) && !pile.linked(512, 1));
    assert!(rt; pile.next_link(512, 0) == Some(2) && pile.next_link(512, 3) == None);
    assert!(rt; pile.next_link(0, 0) == None && pile.next_link(65_535, 65_535) == None);
    let common = Intersection {
        first: &grid,
        second: &list,
    };
    assert!(rt; common.lengths() == Lengths::new(4, 3)?);
    assert!(rt; common.linked(3, 2) && !common.linked(2, 4) && !common.linked(5, 1));
    assert!(rt; common.next_link(3, 0) == Some(2));
    Ok(())
}

#[test]
fn a_history_runs_to_its_end(rt: HostRuntime) -> Result<(), Fail> {
    let mut list = LinkList::lay(Lengths::new(2, 2)?, vec![in rt.alloc(); FREE; 1]?);
    let history = [
        Operation::Edit(Edit::Link(1, 1)),
        Operation::Edit(Edit::Link(1, 1)),
        Operation::Edit(Edit::Link(2, 2)),
        Operation::LookUp(LookUp::Linked(1, 1)),
        Operation::Edit(Edit::Unlink(1, 1)),
        Operation::Edit(Edit::Link(2, 2)),
        Operation::LookUp(LookUp::NextLink(2, 0)),
        Operation::LookUp(LookUp::Free),
    ];
    let mut answers = [Answer::Nowhere; 9];
    assert_eq!(rt; run(&mut list, &history, &mut answers), Ok(()));
    assert_eq!(rt; answers[0], Answer::Done);
    assert_eq!(rt; answers[1], Answer::Refused(Refusal::AlreadyLinked));
    assert_eq!(rt; answers[2], Answer::Refused(Refusal::NothingFree));
    assert_eq!(rt; answers[3], Answer::Linked(true));
    assert_eq!(rt; answers[4], Answer::Done);
    assert_eq!(rt; answers[5], Answer::Done);
    assert_eq!(rt; answers[6], Answer::NextLink(Some(2)));
    assert_eq!(rt; answers[7], Answer::Free(0));
    assert_eq!(rt; answers[8], Answer::Nowhere);
    let mut few = [Answer::Done; 7];
    assert_eq!(rt;
        run(&mut list, &history, &mut few),
        Err(Refusal::BlockTooShort)
    );
    assert_eq!(rt; few[0], Answer::Done);
    assert!(rt; list.linked(2, 2));
    Ok(())
}

#[test]
fn a_history_reaches_every_place_of_a_pile(rt: HostRuntime) -> Result<(), Fail> {
    let lengths = Lengths::new(2, 3)?;
    let grid = Grid::lay(lengths, vec![in rt.alloc(); 0; BLOCK_BYTES]?);
    let list = LinkList::lay(Lengths::new(3, 2)?, vec![in rt.alloc(); FREE; 2]?);
    let mut third = Grid::lay(lengths, vec![in rt.alloc(); 0; BLOCK_BYTES]?);
    third.link(1, 3)?;
    let all = Stretch::new(1, 3)?;
    let mirrored = [Turn::First, Turn::First];
    let swapped = [Turn::Second, Turn::First];
    let fixed = [Turn::Second, Turn::Second];
    let history = [
        Step {
            route: &mirrored,
            operation: Operation::Edit(Edit::Link(2, 1)),
        },
        Step {
            route: &swapped,
            operation: Operation::Edit(Edit::Link(1, 3)),
        },
        Step {
            route: &swapped,
            operation: Operation::Edit(Edit::Link(3, 4)),
        },
        Step {
            route: &fixed,
            operation: Operation::Edit(Edit::Wipe),
        },
        Step {
            route: &[],
            operation: Operation::LookUp(LookUp::NextLink(1, 2)),
        },
        Step {
            route: &[],
            operation: Operation::LookUp(LookUp::Linked(2, 1)),
        },
    ];
    let mut answers = [Answer::Nowhere; 6];
    let ((grid, list, third), ran) = run_on_every_layer(
        (grid, list, third),
        all,
        all,
        &history,
        &mut answers,
    );
    assert_eq!(rt; ran, Ok(()));
    assert_eq!(rt; answers[0], Answer::Done);
    assert_eq!(rt; answers[1], Answer::Done);
    assert_eq!(rt; answers[2], Answer::Refused(Refusal::LeftOutside));
    assert_eq!(rt; answers[3], Answer::Nowhere);
    assert_eq!(rt; answers[4], Answer::NextLink(Some(3)));
    assert_eq!(rt; answers[5], Answer::Linked(true));
    assert!(rt; grid.linked(2, 3) && list.linked(3, 1) && third.linked(1, 3));
    let base = Bottom {
        sheet: grid,
        kind: Open,
    };
    assert_eq!(rt;
        ask_with_mirror(&base, LookUp::NextLink(2, 0)),
        Answer::NextLink(Some(1))
    );
    Ok(())
}

#[test]
fn stretches_are_checked(rt: HostRuntime) {
    assert!(rt; Stretch::new(512, 512).is_ok());
    assert!(rt; Stretch::new(0, 1) == Err(Refusal::LengthOutOfRange));
    assert!(rt; Stretch::new(513, 1) == Err(Refusal::LengthOutOfRange));
    assert!(rt; Stretch::new(1, 0) == Err(Refusal::LengthOutOfRange));
    assert!(rt; Stretch::new(1, 513) == Err(Refusal::LengthOutOfRange));
}
