use engine::copying::{CopyFault, copy_links};
use engine::listing::{Unlisted, list};
use grid::grid::{BLOCK_BYTES, Grid};
use loader::load::load;
use sheet::lengths::Lengths;
use sheet::refusal::Refusal;
use sheet::sheet::{Editable, Sheet};
use std::alloc::Global;
use std::process::Abort;
use std::test::Fail;
use text::fault::{Fault, RecordFault};
use writer::lines::write_end;

// A text, and what the lister prints of it: each fault number and each layer that a text can meet.
const LISTINGS: [(&str, &str); 29] = [
    ("S\t1\t1\nL\t1\t1\nE\n", "S\t1\t1\nL\t1\t1\nE\n"),
    (
        "S\t3\t3\nL\t3\t1\nL\t1\t3\nL\t1\t2\nE\nE\n",
        "S\t3\t3\nL\t1\t2\nL\t1\t3\nL\t3\t1\nE\n",
    ),
    (
        "S\t512\t512\nL\t512\t512\nE\n",
        "S\t512\t512\nL\t512\t512\nE\n",
    ),
    ("S\t2\t2\nL\t3\t1\n", "F\tsheet\t1\t2\t2\n"),
    ("S\t2\t2\nL\t0\t9\nE\n", "F\tsheet\t1\t2\t2\n"),
    ("S\t2\t2\nL\t1\t3\nE\n", "F\tsheet\t2\t2\t3\n"),
    ("S\t2\t2\nL\t1\t1\nL\t1\t1\nE\n", "F\tsheet\t3\t3\t0\n"),
    ("S\t2\t2\nE\n", "F\tsheet\t6\t2\t0\n"),
    ("S\t0\t513\nE\n", "F\tsheet\t7\t1\t2\n"),
    ("S\t512\t513\nE\n", "F\tsheet\t7\t1\t3\n"),
    ("S\t2 \t2\nE\n", "F\tline\t13\t1\t0\n"),
    ("S\t2\t2\nL\t1\t1\r\nE\n", "F\tline\t13\t2\t0\n"),
    ("", "F\tline\t14\t1\t0\n"),
    ("S\t2\t2", "F\tline\t14\t1\t0\n"),
    ("S\t2\t2\nL\t1\t1\n", "F\tline\t14\t3\t0\n"),
    ("S\t2\t2\nL\t1\t1\nE", "F\tline\t14\t3\t0\n"),
    ("S\t2\nE\n", "F\tfield\t15\t1\t0\n"),
    ("S\t2\t2\nL\t1\t1\t1\nE\n", "F\tfield\t15\t2\t0\n"),
    ("S\t2\t2\nL\t1\t1\nE\t\n", "F\tfield\t15\t3\t0\n"),
    ("S\t02\t2\nE\n", "F\tfield\t16\t1\t2\n"),
    ("S\t2\t\nE\n", "F\tfield\t16\t1\t3\n"),
    ("S\t2\t2\nL\tx\t0002\nE\n", "F\tfield\t16\t2\t2\n"),
    ("S\t2\t2\nL\t1\t1000\nE\n", "F\tfield\t16\t2\t3\n"),
    ("L\t1\t1\nE\n", "F\trecord\t17\t1\t1\n"),
    ("S\t2\t2\nS\t2\t2\nE\n", "F\trecord\t17\t2\t1\n"),
    ("S\t2\t2\n\nE\n", "F\trecord\t17\t2\t1\n"),
    ("S\t2\t2\nLL\t1\t1\nE\n", "F\trecord\t17\t2\t1\n"),
    ("S\t2\t2\nN\t1\nE\n", "F\trecord\t17\t2\t1\n"),
    ("S\t2\t2\n\t1\t1\nE\n", "F\trecord\t17\t2\t1\n"),
];

fn check_listing(rt: &impl Abort, heap: Global, text: &str, listing: &str) -> Result<(), Fail> {
    let mut got = Vec::new(heap);
    list(text.as_bytes(), vec![in heap; 1; BLOCK_BYTES]?, &mut got)?;
    assert!(rt; got.as_slice() == listing.as_bytes(), "{}", text);
    Ok(())
}

#[test]
fn texts_are_listed(rt: HostRuntime) -> Result<(), Fail> {
    for (text, listing) in LISTINGS {
        check_listing(&rt, rt.alloc(), text, listing)?;
    }
    Ok(())
}

#[test]
fn a_listing_follows_what_is_there(rt: HostRuntime) -> Result<(), Fail> {
    let mut out = Vec::new(rt.alloc());
    let short = vec![in rt.alloc(); 0; BLOCK_BYTES - 1]?;
    assert_eq!(rt;
        list(b"", short, &mut out),
        Err(Unlisted::Block(Refusal::BlockTooShort))
    );
    assert!(rt; out.is_empty());
    list(b"", vec![in rt.alloc(); 0; BLOCK_BYTES]?, &mut out)?;
    list(b"S\t1\t1\n", vec![in rt.alloc(); 0; BLOCK_BYTES]?, &mut out)?;
    assert!(rt; out.as_slice() == b"F\tline\t14\t1\t0\nF\tline\t14\t2\t0\n".as_slice());
    Ok(())
}

#[test]
fn a_short_block_has_nothing_free(rt: HostRuntime) -> Result<(), Fail> {
    let block = vec![in rt.alloc(); 7; BLOCK_BYTES - 1]?;
    assert_eq!(rt; Grid::test(&block), Err(Refusal::BlockTooShort));
    let mut grid = Grid::lay(Lengths::new(2, 2)?, block);
    let fault = Fault {
        line: 2,
        cause: RecordFault::Sheet(Refusal::NothingFree, 0),
    };
    assert_eq!(rt; load(&mut grid, b"L\t1\t1\nE\n"), Err(fault));
    assert_eq!(rt; grid.unlink(1, 1), Err(Refusal::NotLinked));
    let block = grid.into_block();
    assert!(rt; block.len() == BLOCK_BYTES - 1);
    assert!(rt; block[0] == 7 && block[BLOCK_BYTES - 2] == 7);
    Ok(())
}

#[test]
fn a_line_fits_or_nothing_is_written(rt: HostRuntime) {
    let mut out = [b'.'; 4];
    assert_eq!(rt; write_end(&mut out, 3), Err(Refusal::BlockTooShort));
    assert_eq!(rt;
        write_end(&mut out, usize::MAX),
        Err(Refusal::BlockTooShort)
    );
    assert!(rt; out == *b"....");
    assert_eq!(rt; write_end(&mut out, 1), Ok(3));
    assert!(rt; out == *b".E\n.");
}

#[test]
fn links_are_carried_over(rt: HostRuntime) -> Result<(), Fail> {
    let lengths = Lengths::new(3, 2)?;
    let mut from = Grid::lay(lengths, vec![in rt.alloc(); 0; BLOCK_BYTES]?);
    let mut onto = Grid::lay(lengths, vec![in rt.alloc(); 0; BLOCK_BYTES]?);
    from.link(3, 1)?;
    from.link(1, 2)?;
    let mut short = [0u8; 19];
    assert_eq!(rt;
        copy_links(&from, &mut onto, &mut short),
        Err(CopyFault::Buffer(Refusal::BlockTooShort))
    );
    assert_eq!(rt; onto.free(), 6);
    let mut buffer = [0u8; 20];
    assert_eq!(rt; copy_links(&from, &mut onto, &mut buffer), Ok(2));
    assert!(rt; onto.linked(3, 1) && onto.linked(1, 2) && !onto.linked(1, 1));
    assert_eq!(rt; onto.free(), 4);
    let again = Fault {
        line: 2,
        cause: RecordFault::Sheet(Refusal::AlreadyLinked, 0),
    };
    assert_eq!(rt;
        copy_links(&from, &mut onto, &mut buffer),
        Err(CopyFault::Text(again))
    );
    Ok(())
}
