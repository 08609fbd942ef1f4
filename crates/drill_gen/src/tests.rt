//! The first suppliers, with memory to spare.

use crate::{Drill, drill};
use base_kit::Duplicate;
use std::test::Fail;

const FIRST_TABLE: &[u8] = b"id,sup,price,qty\n1,s1,38,3\n2,s1,25,5\n3,s1,12,7\n4,s1,49,9\n\
    5,s1,36,2\n6,s1,23,4\n7,s1,10,6\n8,s1,47,8\n";

#[test]
fn one_supplier_and_two(rt: HostRuntime) -> Result<(), Fail> {
    let one: Drill = drill(rt.alloc(), 1)?;
    assert!(rt; one.table.as_slice() == FIRST_TABLE);
    assert!(rt;
        one.query
            .as_slice()
            .starts_with(b"TABLE item (id INT, sup TEXT,")
    );
    let two = drill(rt.alloc(), 2)?.copy(rt.alloc())?;
    assert!(rt; two.table.as_slice().starts_with(FIRST_TABLE));
    assert!(rt; two.table.as_slice().ends_with(b"\n16,s2,43,6\n"));
    assert!(rt; two.query.as_slice() == one.query.as_slice());
    Ok(())
}
