ghost use Rattle.std.specs.Prelude.{◌≡◌};
ghost use Rattle.mc_table8.specs.Runs.{run_from, run_fits, lists_code};

/// What a line lists: the codes from `first` to `last`, of which code `first + i` has the weight
/// `weight + i`.
#[derive(Clone, Copy)]
pub(crate) struct Run {
    pub(crate) first: u32,
    pub(crate) last: u32,
    pub(crate) weight: u32,
}

impl Run {
    /// The codes from one to another, the first of which has this weight.
    pub(crate) fn new(first: u32, last: u32, weight: u32) -> Run
        ensures { result ≡ run_from first last weight }
    {
        Run {
            first,
            last,
            weight,
        }
    }

    /// Whether it begins at or below its end, and no code or weight is above the greatest.
    pub(crate) fn fits(&self, greatest: u32) -> bool
        ensures { result ≡ run_fits greatest self.now }
    {
        self.first <= self.last
            && self.last <= greatest
            && self.weight <= greatest
            && self.last - self.first <= greatest - self.weight
    }

    /// Whether it lists a code.
    pub(crate) fn lists(&self, code: u32) -> bool
        ensures { result ≡ lists_code self.now code }
    {
        self.first <= code && code <= self.last
    }
}
