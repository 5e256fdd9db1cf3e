ghost use Rattle.std.specs.Prelude.{◌≡◌};
ghost use Rattle.mc_allkeys.specs.declared.fault.KeysFault.TheVariants as fault;

use mc_base::NoMemory;
use thiserror::Error;

/// Why an element table is refused, in the order in which a line is tested. The first line with a
/// fault decides; its number counts from 1.
#[derive(Debug, Drop, Error)]
pub enum KeysFault {
    /// The line has no form of such a table, or its range of implicit weights ends below its start,
    /// begins below the start of its base, or ends more than 7FFF above it.
    #[error("line {0} has no form of an element table")]
    BadLine(u32),
    /// The line lists a text of more than six code points.
    #[error("line {0} lists a text of more than six code points")]
    TooLongContraction(u32),
    /// The line gives a text more than 32 elements.
    #[error("line {0} has more than 32 elements")]
    TooManyElements(u32),
    /// The line lists the text of an earlier line.
    #[error("line {0} lists the text of an earlier line")]
    Repeated(u32),
    /// The line lists the 4,097th text of two or more code points.
    #[error("line {0} has one contraction too many")]
    TooManyContractions(u32),
    /// Memory ran out.
    #[error("memory ran out")]
    NoMemory,
}

impl From<NoMemory> for KeysFault {
    ghost from_gives = { λ _ error. error ≡ fault.NoMemory };

    fn from(_error: NoMemory) -> KeysFault {
        KeysFault::NoMemory
    }
}
