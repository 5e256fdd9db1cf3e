ghost use Rattle.mc_eval.specs.Held.{held_value};
ghost use Rattle.std.specs.Prelude.{◌≡◌, IfOk};

use mc_base::NoMemory;
use mc_values::{Value, copy_value};
use std::alloc::Global;

/// The value of an operand: lent by the row or by the expression, or made.
#[derive(Drop)]
pub(crate) enum Held<'a> {
    Lent(&'a Value),
    Made(Value),
}

impl<'a> Held<'a> {
    /// The value.
    pub(crate) fn get(&self) -> &Value
        ensures { result.now ≡ held_value self.now }
    {
        match self {
            Held::Lent(value) => value,
            Held::Made(value) => value,
        }
    }

    /// The value, copied where it is lent.
    pub(crate) fn into_value(self, alloc: Global) -> Result<Value, NoMemory>
        ensures { IfOk result (λ value. value ≡ held_value self.entry) }
    {
        match self {
            Held::Lent(value) => copy_value(alloc, value),
            Held::Made(value) => Ok(value),
        }
    }
}
