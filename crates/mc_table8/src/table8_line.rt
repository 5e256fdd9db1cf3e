ghost use Rattle.std.specs.Prelude.{◌≡◌};
ghost use Rattle.mc_table8.specs.WeightLines.{table8_of_two, table8_of_three};

use crate::field::Field;
use crate::run::Run;
use crate::weight_line::WeightLine;

/// The line of two fields in a table of bytes.
pub(crate) fn table8_of_two(first: Field, second: Field) -> Option<WeightLine>
    ensures { result ≡ table8_of_two first second }
{
    match (first, second) {
        (Field::DefaultWord, Field::Equals) => Some(WeightLine::Rest),
        (Field::Number(byte), Field::Number(weight)) => {
            Some(WeightLine::Listed(Run::new(byte, byte, weight), None))
        }
        (Field::Range(first, last), Field::Equals) => {
            Some(WeightLine::Listed(Run::new(first, last, first), None))
        }
        _ => None,
    }
}

/// The line of three fields in a table of bytes.
pub(crate) fn table8_of_three(first: Field, second: Field, third: Field) -> Option<WeightLine>
    ensures { result ≡ table8_of_three first second third }
{
    match (first, second, third) {
        (Field::Number(byte), Field::Number(weight), Field::Number(other)) => {
            Some(WeightLine::Listed(Run::new(byte, byte, weight), Some(other)))
        }
        (Field::Range(first, last), Field::AtSign, Field::Number(weight)) => {
            Some(WeightLine::Listed(Run::new(first, last, weight), None))
        }
        _ => None,
    }
}
