ghost use Rattle.std.specs.Prelude.{◌≡◌, ◌≢◌, ◌<◌, ◌≤◌, ◌^◌, false, Ok, Err, IfOk, MatchResult};
ghost use Rattle.std.specs.Prelude.{length, nat_lt};
ghost use Rattle.mc_charset.specs.Chars.{chars, IsWellFormed};
ghost use Rattle.mc_convert.specs.Conversion.{is_binary};
ghost use Rattle.mc_rows.specs.Fit.{fitted, taken_chars};
ghost use Rattle.mc_rows.specs.declared.fit.FitFault.TheVariants.{NoMemory as OutOfMemory};

use mc_base::Text;
use mc_charset::{Charset, bytes_law, char_count, chars_law};
use mc_convert::{ConvertFault, conversion_law, convert_exact};
use std::alloc::Global;

/// Why a text is no value of a column.
#[derive(Clone, Copy, Debug, PartialEq, Eq)]
pub enum FitFault {
    /// The column's set lacks a character.
    Unfit,
    /// There are more characters, or for binary bytes, than the column takes.
    TooLong,
    /// Memory ran out.
    NoMemory,
}

/// A well-formed text of fewer than 2^32 bytes, of a set other than binary, as a string of the
/// column's set: at most `most` characters, or for binary bytes. `Unfit` comes before `TooLong`.
/// Spaces count; a caller whose column drops them takes them off first.
#[tactic(auto, unfolding(crate::specs::Fit::fitted))]
pub fn fit_text(
    alloc: Global,
    from: Charset,
    to: Charset,
    most: u32,
    text: &[u8],
) -> Result<Text, FitFault>
    requires well_formed { IsWellFormed from text.now }
    requires characters { is_binary from ≡ false }
    requires below_4_gib { length text.now < 2 ^ 32 }
    ensures outcome { MatchResult result (λ kept. fitted from to most text.now ≡ Ok kept)
        (λ fault. fault ≢ OutOfMemory → fitted from to most text.now ≡ Err fault) }
    ensures well_formed { IfOk result (λ kept. IsWellFormed to kept) }
    ensures short { IfOk result (λ kept. length (chars to kept) ≤ most) }
{
    chars_law();
    conversion_law();
    bytes_law(text);
    match convert_exact(alloc, from, to, text) {
        Ok(kept) => {
            if is_longer(from, to, most, text) {
                drop(kept);
                return Err(FitFault::TooLong);
            }
            Ok(kept)
        }
        Err(ConvertFault::Lossy { .. }) => Err(FitFault::Unfit),
        Err(ConvertFault::NoMemory) => Err(FitFault::NoMemory),
    }
}

/// Whether the text has more characters, or for binary bytes, than so many. They are counted only
/// where there are more bytes.
#[tactic(auto, using(crate::proofs::Fitting::not_longer))]
fn is_longer(from: Charset, to: Charset, most: u32, text: &[u8]) -> bool
    requires well_formed { IsWellFormed from text.now }
    requires below_4_gib { length text.now < 2 ^ 32 }
    ensures { result ≡ nat_lt most (length (taken_chars from to text.now)) }
{
    if text.len() <= most as usize {
        return false;
    }
    bytes_law(text);
    match to {
        Charset::Binary => char_count(to, text) > most,
        _ => char_count(from, text) > most,
    }
}
