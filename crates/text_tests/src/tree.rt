//! A tree that is printed.

use std::test::Fail;
use tiql_read::read_query;
use tiql_tree::print_tree;

#[test]
fn it_groups_a_sum_in_a_product(rt: HostRuntime) -> Result<(), Fail> {
    let tree = read_query(rt.alloc(), b"MAXIMIZE SUM((((a) - 1) * -(2))) FROM h;")?;
    let text = print_tree(rt.alloc(), &tree)?;
    let expected = "MAXIMIZE SUM ( ( a - 1 ) * - 2 ) FROM h ;\n";
    assert!(rt; text.as_slice() == expected.as_bytes());
    Ok(())
}
