//! The kinds of part.

/// A factor times the value of a node.
#[derive(Clone, Copy, Debug, PartialEq, Eq)]
pub struct Term {
    /// The factor, of any sign.
    pub factor: i64,
    /// The number of the node.
    pub node: u32,
}

/// A number that counts where a truth holds.
#[derive(Clone, Copy, Debug, PartialEq, Eq)]
pub struct Pair {
    /// The number of the truth's node.
    pub truth: u32,
    /// The number of the number's node.
    pub number: u32,
}

/// A part of a formula. It names other parts, its kids, by their places in the list, and columns of
/// numbers of a world by theirs; both are counted from 0. What each kind means stands in
/// docs/FORMULAS.md.
#[derive(Clone, Copy, Debug)]
pub enum Part<'p> {
    /// The truth that never holds.
    False,
    /// The truth that always holds.
    True,
    /// Whether this column's number is 1.
    Pres(u32),
    /// The number of this column.
    Cell(u32),
    /// Whether this number is 0 or above.
    Pos(u32),
    /// Whether this truth does not hold.
    Not(u32),
    /// Whether all of these truths hold.
    And(&'p [u32]),
    /// Whether one of these truths holds.
    Or(&'p [u32]),
    /// A constant plus terms.
    Lin(i64, &'p [Term]),
    /// The number of the second node where the truth of the first holds, else 0.
    Guard(u32, u32),
    /// The size of this number.
    Abs(u32),
    /// This number, by a name of its own.
    Tot(u32),
    /// The least number whose truth holds, and 0 where none does.
    Min(&'p [Pair]),
}
