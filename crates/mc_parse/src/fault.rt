ghost use Rattle.std.specs.Prelude.{◌≡◌};
ghost use Rattle.mc_parse.specs.declared.fault.Fault.TheVariants.{NoMemory as OutOfMemory};

use mc_base::NoMemory;

/// Why tokens have no tree.
#[derive(Clone, Copy, Debug, PartialEq, Eq)]
pub enum ParseFault {
    /// The token at this byte of the script ends what can be read, or their end does.
    NoReading(u32),
    /// The token at this byte stands deeper than the nest may go.
    TooDeep(u32),
    /// Memory ran out.
    NoMemory,
}

/// Why a rule isn't read. A place is the number of tokens from there on.
#[derive(Clone, Copy, Debug, PartialEq, Eq)]
pub(crate) enum Fault {
    /// No reading goes on with the next token there.
    NoReading(usize),
    /// The next token there stands too deep.
    TooDeep(usize),
    /// Memory ran out.
    NoMemory,
}

impl From<NoMemory> for Fault {
    ghost from_gives = { λ _ e. e ≡ OutOfMemory };

    fn from(_error: NoMemory) -> Fault {
        Fault::NoMemory
    }
}
