ghost use Rattle.mycoll.specs.Unanswered.{reason_of};
ghost use Rattle.mycoll.specs.declared.unanswered.Unanswered.TheVariants.{NoMemory as OutOfMemory};
ghost use Rattle.std.specs.Prelude.{◌≡◌};

use mc_base::{NoMemory, Refusal};

/// Why a statement has no tree.
#[derive(Drop)]
pub enum Unanswered {
    /// The statement is refused.
    Refused(Refusal),
    /// Memory ran out.
    NoMemory,
}

impl From<NoMemory> for Unanswered {
    ghost from_gives = { λ _ error. error ≡ OutOfMemory };

    fn from(_error: NoMemory) -> Unanswered {
        Unanswered::NoMemory
    }
}

/// The refusal as a reason, or want of memory for it.
pub fn refused(refusal: Result<Refusal, NoMemory>) -> Unanswered
    ensures { result ≡ reason_of refusal }
{
    match refusal {
        Ok(refusal) => Unanswered::Refused(refusal),
        Err(NoMemory) => Unanswered::NoMemory,
    }
}
