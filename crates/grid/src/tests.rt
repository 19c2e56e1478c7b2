//! Examples.

use crate::grid::{BLOCK_BYTES, Grid};
use sheet::lengths::Lengths;
use sheet::refusal::Refusal;
use sheet::sheet::{Editable, Sheet};
use std::test::Fail;

#[test]
fn a_block_is_tested_by_its_length(rt: HostRuntime) {
    assert!(rt; Grid::test(&[0; BLOCK_BYTES]) == Ok(()));
    assert!(rt; Grid::test(&[0; 32_767]) == Err(Refusal::BlockTooShort));
}

#[test]
fn a_short_block_takes_no_link(rt: HostRuntime) -> Result<(), Fail> {
    let block = vec![in rt.alloc(); 0u8; 32_767]?;
    let mut grid = Grid::lay(Lengths::new(2, 3)?, block);
    assert!(rt; grid.free() == 0);
    assert!(rt; grid.link(1, 1) == Err(Refusal::NothingFree));
    Ok(())
}

#[test]
fn the_last_link_of_the_largest_grid(rt: HostRuntime) -> Result<(), Fail> {
    let block = vec![in rt.alloc(); 255u8; 32_769]?;
    let mut grid = Grid::lay(Lengths::new(512, 512)?, block);
    assert!(rt; grid.link(512, 512) == Ok(()));
    assert!(rt; grid.free() == 262_143);
    let block = grid.into_block();
    assert!(rt; block.len() == 32_769);
    assert!(rt; block[32_766] == 0 && block[32_767] == 128 && block[32_768] == 255);
    Ok(())
}

#[test]
fn links_come_and_go(rt: HostRuntime) -> Result<(), Fail> {
    let block = vec![in rt.alloc(); 0u8; 32_768]?;
    let mut grid = Grid::lay(Lengths::new(3, 40)?, block);
    assert!(rt; grid.link(2, 33) == Ok(()));
    assert!(rt; grid.link(2, 33) == Err(Refusal::AlreadyLinked));
    assert!(rt;
        grid.next_link(2, 0) == Some(33)
            && grid.next_link(2, 34) == None
            && grid.next_link(2, 65_535) == None
    );
    assert!(rt; grid.unlink(2, 33) == Ok(()));
    assert!(rt; grid.unlink(2, 33) == Err(Refusal::NotLinked));
    Ok(())
}
