ghost use Rattle.std.specs.Prelude.{◌≡◌, IfSome, IsTrue};
ghost use Rattle.mc_table8.specs.WeightLines.{is_sound, form_of, form_of_two, form_of_three};
ghost use Rattle.mc_table8.specs.WeightLines.{line_of};

use crate::field::{Field, kind_of};
use crate::format::Format;
use crate::general_line::{general_of_three, general_of_two};
use crate::run::Run;
use crate::table8_line::{table8_of_three, table8_of_two};
use mc_base::next_field;

/// What a line of a file of weights says.
#[derive(Clone, Copy)]
pub(crate) enum WeightLine {
    /// A code that no line lists has itself as its weight.
    Rest,
    /// The codes of the run have its weights; a single byte may have a second one.
    Listed(Run, Option<u32>),
}

/// What a line says; None where it is a bad line.
pub(crate) fn read_line(body: &[u8], format: Format) -> Option<WeightLine>
    ensures line { result ≡ line_of format body.now }
    ensures sound { IfSome result (λ line. IsTrue (is_sound format line)) }
{
    let line = form(body, format)?;
    if is_sound(line, format) {
        Some(line)
    } else {
        None
    }
}

/// The line by its form, if it has one of the format.
fn form(body: &[u8], format: Format) -> Option<WeightLine>
    ensures { result ≡ form_of format body.now }
{
    let digits = format.digits();
    let (first, rest) = next_field(body)?;
    let (second, rest) = next_field(rest)?;
    let (first, second) = (kind_of(first, digits), kind_of(second, digits));
    let Some((third, rest)) = next_field(rest) else {
        return of_two(format, first, second);
    };
    if next_field(rest).is_some() {
        return None;
    }
    of_three(format, first, second, kind_of(third, digits))
}

/// The line of two fields.
fn of_two(format: Format, first: Field, second: Field) -> Option<WeightLine>
    ensures { result ≡ form_of_two format first second }
{
    match format {
        Format::Bytes => table8_of_two(first, second),
        Format::Codes => general_of_two(first, second),
    }
}

/// The line of three fields.
fn of_three(format: Format, first: Field, second: Field, third: Field) -> Option<WeightLine>
    ensures { result ≡ form_of_three format first second third }
{
    match format {
        Format::Bytes => table8_of_three(first, second, third),
        Format::Codes => general_of_three(first, second, third),
    }
}

/// Whether its run and its weights fit the format, and it doesn't give the space two weights.
fn is_sound(line: WeightLine, format: Format) -> bool
    ensures { result ≡ is_sound format line }
{
    let greatest = format.greatest();
    match line {
        WeightLine::Rest => true,
        WeightLine::Listed(run, None) => run.fits(greatest),
        WeightLine::Listed(run, Some(second)) => {
            run.fits(greatest) && second <= greatest && !run.lists(0x20)
        }
    }
}
