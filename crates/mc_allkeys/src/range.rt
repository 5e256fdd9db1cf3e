ghost use Rattle.std.specs.List.{find};
ghost use Rattle.std.specs.Prelude.{◌≡◌};
ghost use Rattle.mc_allkeys.specs.Table.{covers};

/// A range of implicit weights, as a line of the file says it: the code points from the first to
/// the last one are numbered for a base (UTS #10, 9.2 and 10.1.3).
#[derive(Clone, Copy, Debug, PartialEq, Eq)]
pub struct Range {
    /// The first code point.
    pub first: u32,
    /// The last code point.
    pub last: u32,
    /// The base: the first weight of a code point that is numbered from 0.
    pub base: u16,
}

impl Range {
    /// Whether it covers a code point.
    fn covers(&self, code: u32) -> bool
        ensures { result ≡ covers code self.now }
    {
        self.first <= code && code <= self.last
    }
}

/// The first range that covers a code point.
pub(crate) fn first_covering(ranges: &[Range], code: u32) -> Option<Range>
    ensures { result ≡ find (covers code) ranges.now }
{
    for range in ranges {
        if range.covers(code) {
            return Some(*range);
        }
    }
    None
}
