ghost use Rattle.mc_eval.specs.declared.fault.EvalFault.TheVariants.{NoMemory as OutOfMemory};
ghost use Rattle.std.specs.Prelude.{◌≡◌};

use mc_base::NoMemory;

/// Why an expression has no value that is answered.
#[derive(Clone, Copy, Debug, PartialEq, Eq)]
pub enum EvalFault {
    /// A number is outside 64 bits.
    OutOfRange,
    /// Memory ran out.
    NoMemory,
}

impl From<NoMemory> for EvalFault {
    ghost from_gives = { λ _ error. error ≡ OutOfMemory };

    fn from(_error: NoMemory) -> EvalFault {
        EvalFault::NoMemory
    }
}
