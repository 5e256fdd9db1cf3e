ghost use Rattle.std.specs.Prelude.{◌≡◌};
ghost use Rattle.mc_table8.specs.declared.fault.TableFault.TheVariants as fault;

use mc_base::NoMemory;
use thiserror::Error;

/// Why a file of weights is refused. The first line with a fault decides; on one line `BadLine`
/// comes before `Repeated`.
#[derive(Debug, Drop, Error)]
pub enum TableFault {
    /// The line of this number, from 1, has no form of the format, lists a range that ends below
    /// its start, gives a weight that is too large, or gives the space two weights.
    #[error("line {0} has no form of a table of weights")]
    BadLine(u32),
    /// The line of this number, from 1, lists what an earlier line lists, or is a second default.
    #[error("line {0} repeats what an earlier line says")]
    Repeated(u32),
    /// No line gives this byte weights, nor a lower byte none; only a table of bytes can lack one.
    #[error("byte {0:02X} has no weight")]
    Missing(u32),
    /// Memory ran out.
    #[error("memory ran out")]
    NoMemory,
}

impl From<NoMemory> for TableFault {
    ghost from_gives = { λ _ error. error ≡ fault.NoMemory };

    fn from(_error: NoMemory) -> TableFault {
        TableFault::NoMemory
    }
}
