ghost use Rattle.std.specs.Prelude.{◌≡◌, ◌≤◌, ◌^◌, ◌<◌, ℕ, Ok, None, length, slice_index};
ghost use Rattle.std.specs.Prelude.{MatchResult};
ghost use Rattle.mc_base.specs.Lines.{lines_of};
ghost use Rattle.mc_allkeys.specs.Faults.{fault_by, range_fits, with_line, HasLineFault};
ghost use Rattle.mc_allkeys.specs.KeysFile.{IsKeysOf, IsKeysFault, keys_outcome, HasFault};
ghost use Rattle.mc_allkeys.specs.Kinds.{IsSound};
ghost use Rattle.mc_allkeys.specs.Said.{said_of, said_by};
ghost use Rattle.mc_allkeys.specs.Said.Said.{Listed, Ranged};

use crate::element::Element;
use crate::fault::KeysFault;
use crate::keys::Keys;
use crate::line::{Kind, read_line};
use crate::range::Range;
use mc_base::{LineReader, List, NoMemory, Weights};
use std::alloc::Global;

/// The greatest number of elements of a line.
const MOST_ELEMENTS: usize = 32;

/// The greatest number of contractions of a file.
const MOST_CONTRACTIONS: u32 = 4096;

/// The element table that a file says in the form of `allkeys.txt` (UTS #10, 9.1 and 9.2): a line
/// lists a text and its elements, as `0061 ; [.1C47.0020.0002]`, or gives a range of code points
/// without entries a base, as `@implicitweights 17000..18AFF; FB00`; other lines that begin with
/// `@` say nothing. The first line with a fault decides.
pub fn read_allkeys(alloc: Global, text: &[u8]) -> Result<Keys, KeysFault>
    requires { length text.now < 2 ^ 32 }
    ensures lines { MatchResult result
        (λ keys. IsKeysOf (lines_of text.now) keys)
        (λ fault. IsKeysFault (lines_of text.now) fault) }
    ensures outcome { MatchResult result
        (λ keys. keys_outcome text.now ≡ Ok keys)
        (λ fault. HasFault (keys_outcome text.now) fault) }
{
    match read_lines(alloc, text) {
        Ok(mut keys) => match keys.index_ranges() {
            Ok(()) => Ok(keys),
            Err(NoMemory) => Err(KeysFault::NoMemory),
        },
        Err(fault) => Err(fault),
    }
}

/// The table that the lines say.
fn read_lines(alloc: Global, text: &[u8]) -> Result<Keys, KeysFault>
    requires { length text.now < 2 ^ 32 }
    ensures lines { MatchResult result
        (λ keys. IsKeysOf (lines_of text.now) keys)
        (λ fault. IsKeysFault (lines_of text.now) fault) }
    ensures outcome { MatchResult result
        (λ keys. keys_outcome text.now ≡ Ok keys)
        (λ fault. HasFault (keys_outcome text.now) fault) }
{
    let mut keys = Keys::new(alloc)?;
    let mut codes = Weights::new(alloc);
    let mut elements = List::new(alloc);
    let mut lines = LineReader::new(text);
    while let Some(line) = lines.next_line() {
        let kind = read_line(line.body, &mut codes, &mut elements)?;
        take_line(
            alloc,
            &mut keys,
            line.number,
            kind,
            codes.as_slice(),
            elements.as_slice(),
        )?;
    }
    Ok(keys)
}

/// Takes what the next line says, or tells its fault.
fn take_line(
    alloc: Global,
    keys: &mut Keys,
    number: u32,
    kind: Kind,
    codes: &[u32],
    elements: &[Element],
) -> Result<(), KeysFault>
    requires { IsSound kind codes.now }
    ensures { MatchResult result
        (λ _. (fault_by (said_by kind codes.now elements.now) keys.old number ≡ None)
        × (keys.new ≡ with_line keys.old (said_by kind codes.now elements.now)))
        (λ fault. HasLineFault (said_by kind codes.now elements.now) keys.old number fault) }
{
    match kind {
        Kind::Bad => Err(KeysFault::BadLine(number)),
        Kind::Skipped => Ok(()),
        Kind::Surrogate => Ok(()),
        Kind::Ranged(range) => take_range(keys, number, range),
        Kind::Listed => take_entry(alloc, keys, number, codes, elements),
    }
}

/// Takes a range, or tells the line's fault.
fn take_range(keys: &mut Keys, number: u32, range: Range) -> Result<(), KeysFault>
    ensures { MatchResult result
        (λ _. (fault_by (Ranged range) keys.old number ≡ None)
        × (keys.new ≡ with_line keys.old (Ranged range)))
        (λ fault. HasLineFault (Ranged range) keys.old number fault) }
{
    if !fits(keys, range) {
        return Err(KeysFault::BadLine(number));
    }
    keys.add_range(range)?;
    Ok(())
}

/// Whether a range ends at or above its start, and lies within 8000 code points from the start of
/// its base.
fn fits(keys: &Keys, range: Range) -> bool
    ensures { result ≡ range_fits keys.now.ranges range }
{
    let start = keys.start_of(range.base, range.first);
    range.first <= range.last && start <= range.first && range.last - start <= 0x7FFF
}

/// Takes an entry, or tells the line's fault.
fn take_entry(
    alloc: Global,
    keys: &mut Keys,
    number: u32,
    codes: &[u32],
    elements: &[Element],
) -> Result<(), KeysFault>
    requires some { 1 ≤ length codes.now }
    requires small { (k : ℕ) → slice_index codes.now k ≤ 0x10FFFF }
    ensures { MatchResult result
        (λ _. (fault_by (Listed codes.now elements.now) keys.old number ≡ None)
        × (keys.new ≡ with_line keys.old (Listed codes.now elements.now)))
        (λ fault. HasLineFault (Listed codes.now elements.now) keys.old number fault) }
{
    if codes.len() > 6 {
        return Err(KeysFault::TooLongContraction(number));
    }
    if elements.len() > MOST_ELEMENTS {
        return Err(KeysFault::TooManyElements(number));
    }
    if keys.lists(codes) {
        return Err(KeysFault::Repeated(number));
    }
    if codes.len() >= 2 && keys.contraction_count() >= MOST_CONTRACTIONS {
        return Err(KeysFault::TooManyContractions(number));
    }
    keys.put(alloc, codes, elements)?;
    Ok(())
}
