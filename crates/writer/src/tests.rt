//! Lines in the middle of a buffer, and a refusal.

use crate::lines::{fault_len, write_end, write_fault, write_link};
use sheet::refusal::Refusal;
use std::test::Fail;
use text::fault::{Fault, RecordFault};

#[test]
fn a_fault_between_other_bytes(rt: HostRuntime) -> Result<(), Fail> {
    let mut out = [b'.'; 20];
    let fault = Fault {
        line: 70,
        cause: RecordFault::Sheet(Refusal::RightOutside, 3),
    };
    let end = write_fault(&mut out, 2, fault)?;
    assert_eq!(rt; end, 17);
    assert_eq!(rt; fault_len(fault), 15);
    assert!(rt; out == *b"..F\tsheet\t2\t70\t3\n...");
    Ok(())
}

#[test]
fn a_refusal_leaves_the_buffer(rt: HostRuntime) {
    let mut out = [b'.'; 9];
    assert!(rt; write_link(&mut out, 3, 12, 3) == Err(Refusal::BlockTooShort));
    assert!(rt; write_end(&mut out, usize::MAX) == Err(Refusal::BlockTooShort));
    assert!(rt; out == [b'.'; 9]);
}
