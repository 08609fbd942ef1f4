//! The query of a text.

ghost use Rattle.std.specs.Prelude.{◌-◌, ◌^◌, ◌<◌, length, IfOk};
ghost use Rattle.tiql_tree.specs.Spelled.{Spelled};
ghost use Rattle.job_intake.specs.Asking.{AskComes, IsAsked, QueryComes, TreeComes};
ghost use Rattle.tiql_query.specs.WellFormed.{IsWellFormed};
ghost use Rattle.job_intake.specs.Steps.{Follows};

use crate::refusal::{Refusal, Stop};
use std::alloc::Global;
use tiql_check::{SoundFault, check};
use tiql_query::Query;
use tiql_read::{ReadFault, read_query};
use tiql_tree::Tree;

/// The query of a text of fewer than 2^32 - 1 bytes.
pub fn ask(alloc: Global, bytes: &[u8]) -> Result<Query, Stop>
    requires { length bytes.now < 2 ^ 32 - 1 }
    ensures comes { Follows (AskComes bytes.now) result }
    ensures asked { IfOk result IsAsked }
{
    let tree = read_tree(alloc, bytes)?;
    check_tree(alloc, bytes, &tree)
}

/// The tree of a text.
fn read_tree(alloc: Global, bytes: &[u8]) -> Result<Tree, Stop>
    requires { length bytes.now < 2 ^ 32 - 1 }
    ensures { Follows (TreeComes bytes.now) result }
{
    match read_query(alloc, bytes) {
        Ok(tree) => Ok(tree),
        Err(ReadFault::Syntax(place)) => Err(Stop::Refused(Refusal::Syntax(place))),
        Err(ReadFault::Memory) => Err(Stop::Memory),
    }
}

/// The query of the tree of a text.
fn check_tree(alloc: Global, bytes: &[u8], tree: &Tree) -> Result<Query, Stop>
    requires { Spelled bytes.now tree.now }
    ensures comes { Follows (QueryComes tree.now) result }
    ensures fit { IfOk result IsWellFormed }
{
    match check(alloc, tree) {
        Ok(query) => Ok(query),
        Err(SoundFault::Memory) => Err(Stop::Memory),
        Err(fault) => Err(Stop::Refused(Refusal::Unsound(fault))),
    }
}
