//! How the world of an answer stands: it is possible, or a name tells where it is not.

ghost use Rattle.std.specs.Prelude.{◌≡◌, Ok, IfOk, option_map, slice_get};
ghost use Rattle.tiql_query.specs.Rows.{AreTables};
ghost use Rattle.world_def.specs.Columns.{IsSmall, columns_of};
ghost use Rattle.world_eval.specs.Standings as spec;

use answer_text::{WorldFault, WorldText, world_of};
use base_kit::{List, Memory};
use std::alloc::Global;
use tiql_query::{Query, WorldColumn};
use world_def::{Tables, World, is_possible};

/// How the world of an answer stands.
#[derive(Debug, Drop)]
pub enum Standing {
    /// The sections of the answer are no world, or one that is not possible: the first name that is not right.
    NotPossible { name: List<u8> },
    /// The sections are this possible world.
    Possible { world: World },
}

/// How the world stands whose sections an answer has.
pub(crate) fn standing_of(
    alloc: Global,
    query: &Query,
    tables: &Tables,
    columns: &List<WorldColumn>,
    sections: &List<WorldText>,
) -> Result<Standing, Memory>
    requires tables { AreTables query.now tables.now }
    requires small { IsSmall query.now tables.now }
    requires columns { columns_of query.now tables.now ≡ Ok columns.now }
    ensures { IfOk result (spec.IsStanding query.now tables.now sections.now) }
{
    let world = match world_of(alloc, query, tables, sections) {
        Ok(world) => world,
        Err(WorldFault::NoTable { hypo }) => return not_possible(alloc, query, sections, hypo),
        Err(WorldFault::Memory) => return Err(Memory),
    };
    match is_possible(query, tables, columns, &world) {
        None => Ok(Standing::Possible { world }),
        Some(hypo) => not_possible(alloc, query, sections, hypo),
    }
}

/// The standing with the name of the hypothetical table with this number, from 0, or of the section too many behind these.
fn not_possible(
    alloc: Global,
    query: &Query,
    sections: &List<WorldText>,
    number: u32,
) -> Result<Standing, Memory>
    ensures { IfOk result (λ standing. standing ≡ Standing.NotPossible (spec.name_at query.now sections.now number)) }
{
    let name = List::from_slice(alloc, name_at(query, sections, number))?;
    Ok(Standing::NotPossible { name })
}

#[tactic(auto, unfolding(crate::specs::Standings::name_at))]
fn name_at<'a>(query: &'a Query, sections: &'a List<WorldText>, number: u32) -> &'a [u8]
    ensures { result.now ≡ spec.name_at query.now sections.now number }
{
    let Some(hypo) = query.hypos.get(number as usize) else {
        return section_name(sections, number);
    };
    hypo.name.as_str().as_bytes()
}

fn section_name(sections: &List<WorldText>, number: u32) -> &[u8]
    ensures { result.now ≡ spec.section_name (slice_get sections.now number) }
{
    match sections.get(number as usize) {
        Some(section) => section.name.as_str().as_bytes(),
        None => &[],
    }
}
