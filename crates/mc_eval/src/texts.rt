ghost use Rattle.mc_charset.specs.Chars.{IsWellFormed};
ghost use Rattle.mc_convert.specs.Conversion.{converted_text};
ghost use Rattle.mc_eval.specs.SetTexts.{set_text};
ghost use Rattle.std.specs.Prelude.{◌≡◌, ◌<◌, ◌^◌, IfOk, IsTrue, length};

use mc_base::{NoMemory, Text};
use mc_charset::{Charset, bytes_law};
use mc_convert::{conversion_law, convert, keeps_bytes};
use mc_strfun::TextLike;
use std::alloc::Global;

/// How many bytes no text of an operand has: 4 GiB.
const TOO_LONG: usize = 0x1_0000_0000;

/// The text of an operand in the set of its operation: lent where its bytes stay, else converted.
#[derive(Drop)]
pub(crate) enum SetText<'a> {
    Lent(&'a Text),
    Made(Text),
}

impl<'a> SetText<'a> {
    /// The text.
    pub(crate) fn get(&self) -> &Text
        ensures { result.now ≡ set_text self.now }
    {
        match self {
            SetText::Lent(text) => text,
            SetText::Made(text) => text,
        }
    }

    /// The text, copied where it is lent.
    pub(crate) fn into_text(self, alloc: Global) -> Result<Text, NoMemory>
        ensures { IfOk result (λ text. text ≡ set_text self.entry) }
    {
        match self {
            SetText::Lent(text) => Text::from_slice(alloc, text.as_slice()),
            SetText::Made(text) => Ok(text),
        }
    }
}

impl<'a> TextLike for SetText<'a> {
    ghost bytes = { set_text };

    fn bytes(&self) -> &[u8] {
        self.get().as_slice()
    }
}

/// A text in another set, of which memory has no 4 GiB.
fn converted(alloc: Global, from: Charset, to: Charset, text: &Text) -> Result<Text, NoMemory>
    requires { IsWellFormed from text.now }
    ensures is { IfOk result (λ made. made ≡ converted_text from to text.now) }
    ensures well_formed { IfOk result (λ made. IsWellFormed to made) }
    ensures below_4_gib { IfOk result (λ made. length made < 2 ^ 32) }
{
    let made = convert(alloc, from, to, text.as_slice())?;
    if made.len() < TOO_LONG {
        Ok(made)
    } else {
        Err(NoMemory)
    }
}

/// Whether a text has the same bytes in another set, as each text of its set has.
pub(crate) fn stays(from: Charset, to: Charset, text: &Text) -> bool
    requires { IsWellFormed from text.now }
    ensures same { IsTrue result → converted_text from to text.now ≡ text.now }
    ensures well_formed { IsTrue result → IsWellFormed to text.now }
{
    conversion_law();
    bytes_law(text.as_slice());
    keeps_bytes(from, to)
}

/// The text of an operand in the set of its operation.
pub(crate) fn in_set<'a>(
    alloc: Global,
    to: Charset,
    from: Charset,
    text: &'a Text,
) -> Result<SetText<'a>, NoMemory>
    requires { IsWellFormed from text.now }
    ensures is { IfOk result (λ it. set_text it ≡ converted_text from to text.now) }
    ensures well_formed { IfOk result (λ it. IsWellFormed to (set_text it)) }
    ensures below_4_gib { IfOk result (λ it. length (set_text it) < 2 ^ 32) }
{
    if stays(from, to, text) && text.len() < TOO_LONG {
        return Ok(SetText::Lent(text));
    }
    Ok(SetText::Made(converted(alloc, from, to, text)?))
}
