//! Trees of splits: what they count, and the boxes of their nodes.

use base_kit::{Duplicate, List};
use branch_tree::{Branches, Leaf, Node, Reason};
use ip_rows::Bounds;
use std::test::Fail;

#[test]
fn counts_nodes_and_gives_boxes(rt: HostRuntime) -> Result<(), Fail> {
    let alloc = rt.alloc();
    let split = Node::Split {
        column: 0,
        at: 1,
        reason: Reason::Plain,
    };
    let nodes = Vec::from_array(
        alloc,
        [
            split,
            Node::Closed(Leaf::Fixed),
            Node::Closed(Leaf::Pending),
        ],
    )?;
    let tree = Branches::from_nodes(List::from_vec(nodes)).ok_or("a tree")?;
    assert_eq!(rt; tree.nodes().len(), 3);
    assert_eq!(rt; tree.worked(), 2);
    assert_eq!(rt; tree.pending(), 1);
    assert_eq!(rt; tree.copy(alloc)?.worked(), 2);
    let root = List::from_slice(alloc, &[Bounds { lo: -1, hi: 4 }, Bounds { lo: 0, hi: 7 }])?;
    let sides = tree.sides(alloc, &root, 2)?;
    assert_eq!(rt;
        sides.as_slice(),
        [Bounds { lo: 2, hi: 4 }, Bounds { lo: 0, hi: 7 }].as_slice()
    );
    Ok(())
}

#[test]
fn keeps_no_second_tree(rt: HostRuntime) -> Result<(), Fail> {
    let nodes = Vec::from_array(
        rt.alloc(),
        [Node::Closed(Leaf::Fixed), Node::Closed(Leaf::Fixed)],
    )?;
    assert!(rt; Branches::from_nodes(List::from_vec(nodes)).is_none());
    Ok(())
}
