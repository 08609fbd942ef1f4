//! How a worked part of two columns, x and y, is told.

/// Factors of x and y, neither of them 0.
#[derive(Clone, Copy)]
pub struct Factors {
    pub x: i64,
    pub y: i64,
}

/// What a row asks: with these factors, at least so much.
#[derive(Clone, Copy)]
pub struct Asked {
    pub factors: Factors,
    pub least: i64,
}
