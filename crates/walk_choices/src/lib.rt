//! Which columns the list that the walk of a query makes names (docs/ENCODING.md).
#![tactic(auto)]

ghost use Rattle.walk_choices.specs.Choices.{WalksOverChoices};

/// Each presence and each cell of the list that the walk of a query makes is a world column of the query, whose sides are its range.
pub fn walks_over_choices()
    ensures { WalksOverChoices }
{}
