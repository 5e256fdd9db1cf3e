ghost use Rattle.std.specs.Prelude.{◌≡◌};
ghost use Rattle.mc_table8.specs.Formats.{digits_of, greatest_of};

/// What a file of weights lists: the bytes of an 8-bit set, or the code points up to FFFF.
#[derive(Clone, Copy)]
pub(crate) enum Format {
    Bytes,
    Codes,
}

impl Format {
    /// How many digits a number has at most.
    pub(crate) fn digits(self) -> usize
        ensures { result ≡ digits_of self }
    {
        match self {
            Format::Bytes => 2,
            Format::Codes => 6,
        }
    }

    /// The greatest code and weight.
    pub(crate) fn greatest(self) -> u32
        ensures { result ≡ greatest_of self }
    {
        match self {
            Format::Bytes => 0xFF,
            Format::Codes => 0xFFFF,
        }
    }
}
