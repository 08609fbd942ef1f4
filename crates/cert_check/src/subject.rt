//! What an answer is about: a query over its tables, and the worlds and points that an answer names.

ghost use Rattle.std.specs.Prelude.{◌≡◌, IfOk, length};
ghost use Rattle.branch_tree.specs.Listing.{lows};
ghost use Rattle.world_points.specs.Points as points;
ghost use Rattle.world_points.specs.Subject.{IsSubject};
ghost use Rattle.cert_check.specs.Checks as told;
ghost use Rattle.cert_check.specs.Reasons as spec;

use crate::fault::CheckFault;
use answer_text::{WorldFault, WorldText, world_of};
use base_kit::{List, Memory};
use branch_tree::lowest_point;
use ip_rows::Bounds;
use std::alloc::Global;
use tiql_query::{Query, WorldColumn};
use world_def::{Tables, World, is_possible};
use world_points::judge_point;

/// A query over its tables, with the columns that tell its worlds apart.
#[derive(Clone, Copy, Debug)]
pub struct Subject<'a> {
    pub query: &'a Query,
    pub tables: &'a Tables,
    pub columns: &'a List<WorldColumn>,
}

impl Subject<'_> {
    /// The possible world that sections give, or none (docs/ANSWERS.md).
    pub fn given(&self, alloc: Global, worlds: &List<WorldText>) -> Result<Option<World>, Memory>
        requires { IsSubject self.now.query.now self.now.tables.now self.now.columns.now }
        ensures { IfOk result (spec.Give self.now.query.now self.now.tables.now worlds.now) }
    {
        let world = match world_of(alloc, self.query, self.tables, worlds) {
            Ok(world) => world,
            Err(WorldFault::NoTable { .. }) => return Ok(None),
            Err(WorldFault::Memory) => return Err(Memory),
        };
        if is_possible(self.query, self.tables, self.columns, &world).is_some() {
            return Ok(None);
        }
        Ok(Some(world))
    }

    /// The cost of the least point of a box, where it is the point of a possible world that meets.
    pub fn judge(&self, alloc: Global, sides: &[Bounds]) -> Result<Option<i128>, CheckFault>
        requires subject { IsSubject self.now.query.now self.now.tables.now self.now.columns.now }
        requires long { length sides.now ≡ length self.now.columns.now }
        ensures { told.Judges (points.judged_at self.now.query.now self.now.tables.now self.now.columns.now (lows sides.now)) result }
    {
        let point = lowest_point(alloc, sides)?;
        Ok(judge_point(
            alloc,
            self.query,
            self.tables,
            self.columns,
            point.as_slice(),
        )?)
    }
}
