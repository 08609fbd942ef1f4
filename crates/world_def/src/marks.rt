//! The views on which a view rests, itself among them.

ghost use Rattle.std.specs.Prelude.{◌≡◌, ◌+◌, ◌<◌, [], ◌∷◌, length, IfOk};
ghost use Rattle.world_def.specs.Views as asked;
ghost use Rattle.world_def.specs.Making as spec;

use base_kit::Memory;
use std::alloc::Global;
use tiql_query::{QView, Source};

/// For each view up to this one, whether this one rests on it or is it.
pub fn wanted_of(alloc: Global, views: &[QView], number: u32) -> Result<Vec<bool>, Memory>
    requires { number < length views.now }
    ensures long { IfOk result (λ marks. length marks.items ≡ number + 1) }
    ensures marks { IfOk result (λ marks. spec.AreMarks (asked.wanted views.now number) marks.items) }
{
    let mut marks = none_marked(alloc, number as usize + 1)?;
    mark(marks.as_mut_slice(), number);
    mark_wanted(views, number, marks.as_mut_slice());
    Ok(marks)
}

/// So many marks, none of them set.
fn none_marked(alloc: Global, count: usize) -> Result<Vec<bool>, Memory>
    ensures long { IfOk result (λ marks. length marks.items ≡ count) }
    ensures marks { IfOk result (λ marks. spec.AreMarks [] marks.items) }
{
    let mut marks = Vec::new(alloc);
    marks.resize(count, false)?;
    Ok(marks)
}

/// From a view down, marks what each marked one reads. Since a view reads earlier ones alone, each is looked at when its mark is final.
fn mark_wanted(views: &[QView], number: u32, marks: &mut [bool])
    requires there { number < length views.now }
    requires long { length marks.old ≡ number + 1 }
    requires marks { spec.AreMarks (number ∷ []) marks.old }
    ensures long { length marks.new ≡ number + 1 }
    ensures marks { spec.AreMarks (asked.wanted views.now number) marks.new }
{
    let mut at = marks.len();
    while at > 0 {
        at -= 1;
        if marks[at] {
            mark_reads(&views[at], marks);
        }
    }
}

/// Marks the views that a view reads.
fn mark_reads(view: &QView, marks: &mut [bool])
    ensures { spec.Marks (asked.reads view.now) marks.old marks.new }
{
    for select in view.arms.as_slice() {
        mark_sources(select.sources.as_slice(), marks);
    }
}

/// Marks the views among sources.
fn mark_sources(sources: &[Source], marks: &mut [bool])
    ensures { spec.Marks (asked.views_among sources.now) marks.old marks.new }
{
    for source in sources {
        mark_source(*source, marks);
    }
}

/// Marks a source, where it is a view.
fn mark_source(source: Source, marks: &mut [bool])
    ensures { spec.Marks (asked.views_among (source ∷ [])) marks.old marks.new }
{
    match source {
        Source::Table(_) => {}
        Source::Hypo(_) => {}
        Source::View(number) => mark(marks, number),
    }
}

/// Marks a view; one behind the last mark is not marked.
fn mark(marks: &mut [bool], number: u32)
    ensures { spec.Marks (number ∷ []) marks.old marks.new }
{
    let at = number as usize;
    if at < marks.len() {
        marks[at] = true;
    }
}
