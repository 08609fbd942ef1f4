//! A query with each kind of declaration, and where texts stop that are no query.

use base_kit::Place;
use std::alloc::Global;
use std::process::Abort;
use std::test::Fail;
use tiql_read::{ReadFault, read_query};
use tiql_tree::{Decl, TreeForm, TreeGoal, TreeHypo, TreeView};

const QUERY: &[u8] =
    b"\xef\xbb\xbfTABLE t (a INT);\nHYPO h FROM t SET a IN (1 + 2) .. 9 WHERE NOT a = 1 AND a < 5 DROP;\nVIEW v AS SELECT h.a, COUNT(*) AS n FROM h GROUP BY h.a;\nMINIMIZE SUM(n * -2) FROM v;";

fn at(line: u32, column: u32) -> Place {
    Place { line, column }
}

fn assert_hypo(rt: &impl Abort, hypo: &TreeHypo) {
    assert_eq!(rt; hypo.name.name.as_str(), "h");
    assert_eq!(rt; hypo.table.place, at(2, 13));
    assert!(rt; hypo.dropped == Some(at(2, 63)));
    let [bound] = hypo.set.as_slice() else {
        panic!(rt; "one bound");
    };
    assert_eq!(rt; bound.lo.place, at(2, 24));
    assert!(rt; matches!(&bound.lo.form, TreeForm::Sum(_)));
    assert_eq!(rt; bound.hi.place, at(2, 35));
}

fn assert_view(rt: &impl Abort, view: &TreeView) {
    let [select] = view.arms.as_slice() else {
        panic!(rt; "one select");
    };
    let [column, count] = select.items.as_slice() else {
        panic!(rt; "two items");
    };
    assert_eq!(rt; column.name.name.as_str(), "a");
    assert_eq!(rt; column.name.place, at(3, 20));
    assert_eq!(rt; count.place, at(3, 23));
    let [source] = select.sources.as_slice() else {
        panic!(rt; "one source");
    };
    assert_eq!(rt; source.alias.name.as_str(), "h");
    assert_eq!(rt; select.group.len(), 1);
}

#[test]
fn reads_a_query(rt: HostRuntime) -> Result<(), Fail> {
    let tree = read_query(rt.alloc(), QUERY)?;
    let [Decl::Table(table), Decl::Hypo(hypo), Decl::View(view)] = tree.decls.as_slice() else {
        panic!(&rt; "three declarations");
    };
    assert_eq!(rt; table.name.place, at(1, 7));
    assert_eq!(rt; table.columns.len(), 1);
    assert_hypo(&rt, hypo);
    assert_view(&rt, view);
    let TreeGoal::Sum { maximize, part, .. } = &tree.goal else {
        panic!(&rt; "a sum");
    };
    assert!(rt; !*maximize);
    assert!(rt; matches!(&part.form, TreeForm::Product(_)));
    Ok(())
}

fn assert_stops(rt: &impl Abort, alloc: Global, text: &[u8], place: Place) {
    assert!(rt; text.len() < 1000);
    let Err(ReadFault::Syntax(stop)) = read_query(alloc, text) else {
        panic!(rt; "no query");
    };
    assert_eq!(rt; stop, place);
}

#[test]
fn tells_where_a_text_stops(rt: HostRuntime) {
    assert_stops(&rt, rt.alloc(), b"", at(1, 1));
    assert_stops(&rt, rt.alloc(), b"TABLE t (a INT); FIND; FIND;", at(1, 24));
    assert_stops(&rt, rt.alloc(), b"FIND; 'x", at(1, 7));
    assert_stops(
        &rt,
        rt.alloc(),
        b"VIEW v AS SELECT (a) FROM t; FIND;",
        at(1, 22),
    );
    assert_stops(
        &rt,
        rt.alloc(),
        b"MINIMIZE SUM(a -- b\n+ #) FROM t;",
        at(2, 3),
    );
}
