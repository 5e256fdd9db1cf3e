ghost use Rattle.mc_eval.specs.Acceptance.{TellsAcceptance, firm};
ghost use Rattle.mc_eval.specs.Held.{TellsHeld};
ghost use Rattle.mc_eval.specs.Outcomes.{GivesKept, Outcome, Tells};
ghost use Rattle.mc_eval.specs.Truths.{
  known,
  least,
  one_of,
  opposite,
  told,
  truth,
  truth_of,
  turned,
};
ghost use Rattle.std.specs.Prelude.{◌≡◌, IfOk};

use crate::fault::EvalFault;
use crate::held::Held;
use mc_base::NoMemory;
use mc_values::Value;

/// The truth of a condition, in the chain in which AND takes the least.
#[derive(Clone, Copy, Debug, PartialEq, Eq)]
pub enum Truth {
    /// A false one.
    No,
    /// A number is outside 64 bits.
    Faulty,
    /// NULL.
    Unknown,
    /// A true one.
    Yes,
}

impl Truth {
    /// The truth of a test.
    pub(crate) fn known(test: bool) -> Truth
        ensures { result ≡ known test }
    {
        if test { Truth::Yes } else { Truth::No }
    }

    /// The truth of a value: a number other than 0 is true.
    pub(crate) fn of_value(value: &Value) -> Truth
        ensures { result ≡ truth_of value.now }
    {
        match value {
            Value::Null | Value::Str { .. } => Truth::Unknown,
            Value::Int(number) => { if *number == 0 { Truth::No } else { Truth::Yes } }
        }
    }

    /// The truth of what came of an operand.
    pub(crate) fn of_operand(operand: Result<Held<'_>, EvalFault>) -> Result<Truth, NoMemory>
        ensures { (o : Outcome) → TellsHeld o operand.entry → IfOk result (λ it. it ≡ truth o) }
    {
        match operand {
            Ok(held) => Ok(Truth::of_value(held.get())),
            Err(EvalFault::OutOfRange) => Ok(Truth::Faulty),
            Err(EvalFault::NoMemory) => Err(NoMemory),
        }
    }

    /// The lesser of two in the chain.
    pub(crate) fn least(self, other: Truth) -> Truth
        ensures { result ≡ least self other }
    {
        match (self, other) {
            (Truth::No, _) | (_, Truth::No) => Truth::No,
            (Truth::Faulty, _) | (_, Truth::Faulty) => Truth::Faulty,
            (Truth::Unknown, _) | (_, Truth::Unknown) => Truth::Unknown,
            (Truth::Yes, Truth::Yes) => Truth::Yes,
        }
    }

    /// What NOT makes of it.
    pub(crate) fn opposite(self) -> Truth
        ensures { result ≡ opposite self }
    {
        match self {
            Truth::No => Truth::Yes,
            Truth::Faulty => Truth::Faulty,
            Truth::Unknown => Truth::Unknown,
            Truth::Yes => Truth::No,
        }
    }

    /// Itself, or what NOT makes of it.
    pub(crate) fn turned(self, turn: bool) -> Truth
        ensures { result ≡ turned turn self }
    {
        if turn { self.opposite() } else { self }
    }

    /// What XOR makes of it and another one.
    pub(crate) fn one_of(self, other: Truth) -> Truth
        ensures { result ≡ one_of self other }
    {
        match (self, other) {
            (Truth::Faulty, _) | (_, Truth::Faulty) => Truth::Faulty,
            (Truth::Unknown, _) | (_, Truth::Unknown) => Truth::Unknown,
            (Truth::Yes, Truth::No) | (Truth::No, Truth::Yes) => Truth::Yes,
            (Truth::Yes, Truth::Yes) | (Truth::No, Truth::No) => Truth::No,
        }
    }

    /// What a condition makes of it: NULL accepts no row.
    pub(crate) fn firm(self) -> Truth
        ensures { result ≡ firm self }
    {
        match self {
            Truth::Unknown => Truth::No,
            Truth::No | Truth::Faulty | Truth::Yes => self,
        }
    }

    /// Whether it accepts a row.
    pub(crate) fn accepts(self) -> Result<bool, EvalFault>
        ensures { TellsAcceptance (firm self) result }
    {
        match self {
            Truth::No | Truth::Unknown => Ok(false),
            Truth::Faulty => Err(EvalFault::OutOfRange),
            Truth::Yes => Ok(true),
        }
    }

    /// Its value, or its fault.
    pub(crate) fn told(self) -> Result<Value, EvalFault>
        ensures told { (o : Outcome) → o ≡ told self → Tells o result }
        ensures kept { GivesKept result }
    {
        match self {
            Truth::No => Ok(Value::Int(0)),
            Truth::Faulty => Err(EvalFault::OutOfRange),
            Truth::Unknown => Ok(Value::Null),
            Truth::Yes => Ok(Value::Int(1)),
        }
    }
}
