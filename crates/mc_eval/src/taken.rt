ghost use Rattle.mc_eval.specs.Held.{AreKept, held_values};
ghost use Rattle.mc_eval.specs.Taken.{AreTakenKept, taken_values};
ghost use Rattle.std.specs.Prelude.{◌≡◌};

use crate::held::Held;
use mc_values::Value;

/// The operands of a call, by their number.
#[derive(Drop)]
pub(crate) enum Taken<'a, 'b> {
    Zero,
    One(&'a Value),
    Two(&'a Value, &'a Value),
    Three(&'a Value, &'a Value, &'a Value),
    More(&'a Value, &'a Value, &'a Value, &'a Value, &'a [Held<'b>]),
}

/// The operands of a call, taken apart.
pub(crate) fn take_apart<'a, 'b>(operands: &'a [Held<'b>]) -> Taken<'a, 'b>
    requires { AreKept operands.now }
    ensures values { taken_values result ≡ held_values operands.now }
    ensures kept { AreTakenKept result }
{
    match operands {
        [] => Taken::Zero,
        [x] => Taken::One(x.get()),
        [x, y] => Taken::Two(x.get(), y.get()),
        [x, y, z] => Taken::Three(x.get(), y.get(), z.get()),
        [x, y, z, w, others @ ..] => Taken::More(x.get(), y.get(), z.get(), w.get(), others),
    }
}
