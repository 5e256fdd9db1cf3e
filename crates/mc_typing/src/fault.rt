ghost use Rattle.mc_typing.specs.Wanted.{fault_of};
ghost use Rattle.mc_typing.specs.declared.fault.TypeFault.TheVariants.{NoMemory as OutOfMemory};
ghost use Rattle.std.specs.Prelude.{◌≡◌};

use mc_base::{NoMemory, Refusal};

/// Why a statement isn't typed.
#[derive(Drop)]
pub enum TypeFault {
    /// It is refused.
    Refused(Refusal),
    /// Memory ran out.
    NoMemory,
}

impl From<NoMemory> for TypeFault {
    ghost from_gives = { λ _ error. error ≡ OutOfMemory };

    fn from(_error: NoMemory) -> TypeFault {
        TypeFault::NoMemory
    }
}

/// The refusal as a fault, or want of memory for it.
pub(crate) fn refused(refusal: Result<Refusal, NoMemory>) -> TypeFault
    ensures { result ≡ fault_of refusal }
{
    match refusal {
        Ok(refusal) => TypeFault::Refused(refusal),
        Err(NoMemory) => TypeFault::NoMemory,
    }
}
