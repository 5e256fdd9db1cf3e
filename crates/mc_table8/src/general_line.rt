ghost use Rattle.std.specs.Prelude.{◌≡◌};
ghost use Rattle.mc_table8.specs.WeightLines.{general_of_two, general_of_three};

use crate::field::Field;
use crate::run::Run;
use crate::weight_line::WeightLine;

/// The line of two fields in a table of code points.
pub(crate) fn general_of_two(first: Field, second: Field) -> Option<WeightLine>
    ensures { result ≡ general_of_two first second }
{
    match (first, second) {
        (Field::Number(code), Field::Number(weight)) => {
            Some(WeightLine::Listed(Run::new(code, code, weight), None))
        }
        _ => None,
    }
}

/// The line of three fields in a table of code points.
pub(crate) fn general_of_three(first: Field, second: Field, third: Field) -> Option<WeightLine>
    ensures { result ≡ general_of_three first second third }
{
    match (first, second, third) {
        (Field::Range(first, last), Field::AtSign, Field::Number(weight)) => {
            Some(WeightLine::Listed(Run::new(first, last, weight), None))
        }
        _ => None,
    }
}
