ghost use Rattle.mc_charset.specs.Chars.{IsWellFormed};
ghost use Rattle.mc_values.specs.Conversion.{conversion};
ghost use Rattle.mc_values.specs.Values.{greatest_string};
ghost use Rattle.std.specs.Prelude.{◌≡◌, ◌≤◌, IfOk, IfSome, length};

use crate::limit::within_limit;
use mc_base::{NoMemory, Text};
use mc_charset::Charset;
use mc_convert::{convert, reinterpret};
use std::alloc::Global;

/// The text of CONVERT and of CAST to a set: from binary to another set the bytes are taken for a
/// text of the set; any other text is converted. None, which is NULL, exactly where the bytes are
/// no such text, or where the text would be longer than the greatest length.
#[tactic(auto, unfolding(crate::specs::Conversion::conversion))]
pub fn convert_value(
    alloc: Global,
    from: Charset,
    to: Charset,
    text: &[u8],
) -> Result<Option<Text>, NoMemory>
    requires { IsWellFormed from text.now }
    ensures is { IfOk result (λ value. value ≡ conversion from to text.now) }
    ensures well_formed { IfOk result (λ value. IfSome value (IsWellFormed to)) }
    ensures short { IfOk result (λ value. IfSome value (λ kept. length kept ≤ greatest_string)) }
{
    if from == Charset::Binary && to != Charset::Binary {
        return match reinterpret(alloc, to, text)? {
            Some(taken) => Ok(within_limit(taken)),
            None => Ok(None),
        };
    }
    Ok(within_limit(convert(alloc, from, to, text)?))
}
