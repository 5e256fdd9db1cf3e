ghost use Rattle.std.specs.Prelude.{◌≡◌, ℕ, ◌+◌, ◌^◌, ◌<◌, Some, None, ◌∷◌, [], ◌++◌, List, length};
ghost use Rattle.std.specs.Prelude.{MatchResult};
ghost use Rattle.mc_base.specs.FirstFault.{HasNoFault};
ghost use Rattle.mc_base.specs.Lines.{lines_of};
ghost use Rattle.mc_table8.specs.Cells.{IsListing};
ghost use Rattle.mc_table8.specs.Formats.{greatest_of};
ghost use Rattle.mc_table8.specs.LineFaults.{said_by, fault_of, IsLineFault};

use crate::cells::Cells;
use crate::fault::TableFault;
use crate::format::Format;
use crate::weight_line::read_line;
use mc_base::LineReader;
use std::alloc::Global;

/// What the lines of a file list, or the first fault of a line.
pub(crate) fn read_lines(alloc: Global, text: &[u8], format: Format) -> Result<Cells, TableFault>
    requires { length text.now < 2 ^ 32 }
    ensures { MatchResult result
        (λ cells. HasNoFault (fault_of format) (lines_of text.now) ×
        IsListing (greatest_of format) cells.cells.items cells.rest
        (said_by format (lines_of text.now)))
        (λ fault. IsLineFault format (lines_of text.now) fault) }
{
    let mut cells = Cells::new(alloc, format)?;
    let mut lines = LineReader::new(text);
    while let Some(line) = lines.next_line() {
        take_line(&mut cells, line.number, line.body, format)?;
    }
    Ok(cells)
}

/// Takes what the next line says, or tells its fault.
fn take_line(cells: &mut Cells, number: u32, body: &[u8], format: Format) -> Result<(), TableFault>
    requires { length cells.old.cells.items ≡ greatest_of format + 1 }
    ensures { (before : List (ℕ × List ℕ)) →
        IsListing (greatest_of format) cells.old.cells.items cells.old.rest
        (said_by format before) →
        MatchResult result
        (λ _. (fault_of format before (number, body.now) ≡ None) ×
        IsListing (greatest_of format) cells.new.cells.items cells.new.rest
        (said_by format (before ++ (number, body.now) ∷ [])))
        (λ fault. fault_of format before (number, body.now) ≡ Some fault) }
{
    let Some(line) = read_line(body, format) else {
        return Err(TableFault::BadLine(number));
    };
    if cells.add(line, format) {
        Ok(())
    } else {
        Err(TableFault::Repeated(number))
    }
}
