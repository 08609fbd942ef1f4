//! Ranges, and the parts of a sum.
ghost use Rattle.std.specs.Prelude.{◌≡◌, ◌<◌, ◌^◌, unsigned_abs};
ghost use Rattle.prov_fold.specs.Spans.{truth_span, widened, size_span};

/// The numbers from `lo` to `hi`, both among them.
#[derive(Clone, Copy, Debug, PartialEq, Eq)]
pub struct Span {
    /// The least number.
    pub lo: i64,
    /// The greatest number.
    pub hi: i64,
}

/// A node with the factor that it has in a sum.
#[derive(Clone, Copy, Debug, PartialEq, Eq)]
pub struct Scaled {
    /// The factor, of any sign.
    pub factor: i64,
    /// The number of the node: a number, or a truth other than a Not.
    pub number: u32,
}

impl Span {
    /// The range of every truth.
    pub(crate) fn truth() -> Span
        ensures { result ≡ truth_span }
    {
        Span { lo: 0, hi: 1 }
    }

    /// The range, and 0 where it does not hold it.
    pub(crate) fn widened(self) -> Span
        ensures { result ≡ widened self }
    {
        Span {
            lo: self.lo.min(0),
            hi: self.hi.max(0),
        }
    }

    /// The sizes of the numbers of a range that has numbers below 0 and above.
    pub(crate) fn size(self) -> Span
        requires { unsigned_abs self.lo < 2 ^ 63 }
        ensures { result ≡ size_span self }
    {
        Span {
            lo: 0,
            hi: (-self.lo).max(self.hi),
        }
    }
}
