ghost use Rattle.mc_exec.specs.Told.{fault_of};
ghost use Rattle.mc_exec.specs.declared.fault.ExecFault.TheVariants.{NoMemory as OutOfMemory};
ghost use Rattle.std.specs.Prelude.{◌≡◌};

use mc_base::NoMemory;
use mc_eval::EvalFault;

/// Why a statement has no rows that are answered.
#[derive(Clone, Copy, Debug, PartialEq, Eq)]
pub enum ExecFault {
    /// A number is outside 64 bits.
    OutOfRange,
    /// Memory ran out.
    NoMemory,
}

impl ExecFault {
    /// The fault of a statement in which an expression has this one.
    pub(crate) fn of(fault: EvalFault) -> ExecFault
        ensures { result ≡ fault_of fault }
    {
        match fault {
            EvalFault::OutOfRange => ExecFault::OutOfRange,
            EvalFault::NoMemory => ExecFault::NoMemory,
        }
    }
}

impl From<NoMemory> for ExecFault {
    ghost from_gives = { λ _ error. error ≡ OutOfMemory };

    fn from(_error: NoMemory) -> ExecFault {
        ExecFault::NoMemory
    }
}
