ghost use Rattle.mc_uca.specs.Kind.{family_of, levels_of, pad_of};
ghost use Rattle.std.specs.Prelude.{◌≡◌};

use mc_order::Pad;
use mc_rules::UcaFamily;

/// The kinds of Unicode collations.
#[derive(Clone, Copy, Debug, PartialEq, Eq)]
pub enum UcaKind {
    /// Version 4.0.0: one weight level, texts padded with spaces.
    Uca4,
    /// Version 5.2.0: one weight level, texts padded with spaces.
    Uca520,
    /// Version 9.0.0: one to three weight levels, no padding.
    Uca9 {
        /// How many weight levels.
        levels: u8,
    },
}

impl UcaKind {
    /// The version after which it is named.
    pub(crate) fn family(self) -> UcaFamily
        ensures { result ≡ family_of self }
    {
        match self {
            UcaKind::Uca4 => UcaFamily::Uca4,
            UcaKind::Uca520 => UcaFamily::Uca520,
            UcaKind::Uca9 { .. } => UcaFamily::Uca9,
        }
    }

    /// Whether texts are padded.
    pub(crate) fn pad(self) -> Pad
        ensures { result ≡ pad_of self }
    {
        match self {
            UcaKind::Uca4 | UcaKind::Uca520 => Pad::PadSpace,
            UcaKind::Uca9 { .. } => Pad::NoPad,
        }
    }

    /// How many weight levels it compares.
    pub(crate) fn levels(self) -> u8
        ensures { result ≡ levels_of self }
    {
        match self {
            UcaKind::Uca4 | UcaKind::Uca520 => 1,
            UcaKind::Uca9 { levels } => levels,
        }
    }
}
