ghost use Rattle.std.specs.Prelude.{◌≡◌};
ghost use Rattle.mc_base.specs.FileOutcome.{IsRefusedAs};
ghost use Rattle.mc_base.specs.declared.file.FileFault.TheVariants.{NoMemory as OutOfMemory};
ghost use Rattle.mc_allkeys.specs.declared.fault.KeysFault.TheVariants as elements;
ghost use Rattle.mc_book.specs.BookOutcome.{table_refusal};
ghost use Rattle.mc_book.specs.UcaOutcome.{keys_refusal};
ghost use Rattle.mc_table8.specs.declared.fault.TableFault.TheVariants as table;

use mc_allkeys::KeysFault;
use mc_base::{FileFault, Text, refuse_file};
use mc_table8::TableFault;
use std::alloc::Global;

/// Why there is no book: a file is refused, the first one in the order of the catalog; or the
/// device failed; or memory ran out.
pub type BookFault = FileFault;

/// The refusal of a table's file: a bad or repeated line, or a byte without weights.
pub(crate) fn table_refusal(alloc: Global, name: &Text, fault: &TableFault) -> FileFault
    ensures refused { IsRefusedAs result (table_refusal name.now fault.now) }
    ensures memory { fault.now ≡ table.NoMemory → result ≡ OutOfMemory }
{
    match fault {
        TableFault::BadLine(line) => refuse_file(alloc, name, b"BadLine", u64::from(*line)),
        TableFault::Repeated(line) => refuse_file(alloc, name, b"Repeated", u64::from(*line)),
        TableFault::Missing(byte) => refuse_file(alloc, name, b"Missing", u64::from(*byte)),
        TableFault::NoMemory => FileFault::NoMemory,
    }
}

/// The refusal of an element table's file, by its bad line.
pub(crate) fn keys_refusal(alloc: Global, name: &Text, fault: &KeysFault) -> FileFault
    ensures refused { IsRefusedAs result (keys_refusal name.now fault.now) }
    ensures memory { fault.now ≡ elements.NoMemory → result ≡ OutOfMemory }
{
    match fault {
        KeysFault::BadLine(line) => refuse_file(alloc, name, b"BadLine", u64::from(*line)),
        KeysFault::TooLongContraction(line) => {
            refuse_file(alloc, name, b"TooLongContraction", u64::from(*line))
        }
        KeysFault::TooManyElements(line) => {
            refuse_file(alloc, name, b"TooManyElements", u64::from(*line))
        }
        KeysFault::Repeated(line) => refuse_file(alloc, name, b"Repeated", u64::from(*line)),
        KeysFault::TooManyContractions(line) => {
            refuse_file(alloc, name, b"TooManyContractions", u64::from(*line))
        }
        KeysFault::NoMemory => FileFault::NoMemory,
    }
}
