ghost use Rattle.mc_uca.specs.declared.fault.UcaFault.TheVariants as fault;
ghost use Rattle.std.specs.Prelude.{◌≡◌};

use mc_base::NoMemory;
use thiserror::Error;

/// Why a table of elements makes no collation.
#[derive(Debug, Drop, Error)]
pub enum UcaFault {
    /// Texts are padded, and U+0020 hasn't one weight on the first level.
    #[error("U+0020 has not one weight on the first level")]
    SpaceWeight,
    /// Memory ran out.
    #[error("memory ran out")]
    NoMemory,
}

impl From<NoMemory> for UcaFault {
    ghost from_gives = { λ _ error. error ≡ fault.NoMemory };

    fn from(_error: NoMemory) -> UcaFault {
        UcaFault::NoMemory
    }
}
