//! The smallest sound query, and two that are refused; the rows of every rule run on the whole program.

use base_kit::{List, Name, Place};
use std::alloc::Global;
use std::process::Abort;
use std::test::Fail;
use tiql_check::{SoundFault, check};
use tiql_query::Aim;
use tiql_tree::{Decl, Spot, Tree, TreeExpr, TreeForm, TreeGoal, TreeHypo};

fn spot(alloc: Global, name: &str, column: u32) -> Result<Spot, Fail> {
    Ok(Spot {
        name: Name::new(alloc, name)?,
        place: Place { line: 1, column },
    })
}

// FIND;
#[test]
fn a_query_without_tables_is_sound(rt: HostRuntime) -> Result<(), Fail> {
    let alloc = rt.alloc();
    let tree = Tree {
        decls: List::new(alloc),
        goal: TreeGoal::Find,
    };
    let query = check(alloc, &tree)?;
    assert_eq!(rt; query.tables.len(), 0);
    assert!(rt; matches!(&query.aim, Aim::Find));
    Ok(())
}

// MAXIMIZE SUM(1) FROM h;
#[test]
fn a_sum_over_no_relation_is_refused(rt: HostRuntime) -> Result<(), Fail> {
    let alloc = rt.alloc();
    let part = TreeExpr {
        place: Place {
            line: 1,
            column: 14,
        },
        form: TreeForm::Number(1),
    };
    let goal = TreeGoal::Sum {
        maximize: true,
        part,
        relation: spot(alloc, "h", 22)?,
    };
    let decls = List::new(alloc);
    match check(alloc, &Tree { decls, goal }) {
        Ok(_) => assert!(rt; false),
        Err(told) => assert_eq!(rt;
            told,
            SoundFault::UnknownName(Place {
                line: 1,
                column: 22
            })
        ),
    }
    Ok(())
}

// HYPO h FROM t; FIND;
#[test]
fn a_hypothetical_table_over_none_is_refused(rt: HostRuntime) -> Result<(), Fail> {
    let alloc = rt.alloc();
    let mut decls = List::new(alloc);
    decls.push(Decl::Hypo(TreeHypo {
        name: spot(alloc, "h", 6)?,
        table: spot(alloc, "t", 13)?,
        set: List::new(alloc),
        filter: None,
        dropped: None,
    }))?;
    let goal = TreeGoal::Find;
    match check(alloc, &Tree { decls, goal }) {
        Ok(_) => assert!(rt; false),
        Err(told) => assert_eq!(rt;
            told,
            SoundFault::UnknownName(Place {
                line: 1,
                column: 13
            })
        ),
    }
    Ok(())
}
