ghost use Rattle.mc_charset.specs.Chars.{Spells};
ghost use Rattle.std.specs.Prelude.{◌*◌, ◌≤◌, IfOk, length};
ghost use Rattle.std.specs.Str.{IsAscii};

use mc_base::{NoMemory, Text};
use mc_charset::{Charset, chars_law};
use mc_convert::convert;
use std::alloc::Global;

/// The characters of an ASCII text as a text of the set, each in at most four bytes.
pub fn ascii_text(alloc: Global, set: Charset, text: &[u8]) -> Result<Text, NoMemory>
    requires { IsAscii text.now }
    ensures spells { IfOk result (λ spelled. Spells set text.now spelled) }
    ensures short { IfOk result (λ spelled. length spelled ≤ 4 * length text.now) }
{
    chars_law();
    convert(alloc, Charset::Utf8mb4, set, text)
}
