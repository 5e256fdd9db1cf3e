ghost use Rattle.mc_charset.specs.Chars.{chars, IsWellFormed};
ghost use Rattle.mc_order.specs.Meaning.{first_chars, flat_list};
ghost use Rattle.mc_uca.specs.UcaMeaning.{uca_meaning};
ghost use Rattle.std.specs.Prelude.{◌≡◌, ◌++◌, OnOk, OnErr};

use crate::codes::front_codes;
use crate::weigher::Weigher;
use mc_base::{NoMemory, Weights};
use mc_charset::{Ascii, Binary, Charset, Encoding, Latin1, Ucs2, Utf8mb3, Utf8mb4, Utf16, Utf32};
use mc_order::put_weights;

impl Weigher {
    /// Appends the weights of a text, or of its first characters, level by level. Without memory
    /// `out` stays as it was.
    pub(crate) fn put_list(
        &self,
        text: &[u8],
        first: Option<u32>,
        out: &mut Weights,
    ) -> Result<(), NoMemory>
        requires { IsWellFormed self.now.charset text.now }
        ensures ok { let m = uca_meaning self.now.charset self.now.kind self.now.keys in
            OnOk result
            (out.new ≡ out.old ++ flat_list m (first_chars first (chars m.charset text.now))) }
        ensures err { OnErr result (out.new ≡ out.old) }
    {
        match self.charset {
            Charset::Latin1 => self.put_in::<Latin1>(text, first, out),
            Charset::Ascii => self.put_in::<Ascii>(text, first, out),
            Charset::Utf8mb3 => self.put_in::<Utf8mb3>(text, first, out),
            Charset::Utf8mb4 => self.put_in::<Utf8mb4>(text, first, out),
            Charset::Ucs2 => self.put_in::<Ucs2>(text, first, out),
            Charset::Utf16 => self.put_in::<Utf16>(text, first, out),
            Charset::Utf32 => self.put_in::<Utf32>(text, first, out),
            Charset::Binary => self.put_in::<Binary>(text, first, out),
        }
    }

    /// So in a set that is given as a type.
    fn put_in<E: Encoding>(
        &self,
        text: &[u8],
        first: Option<u32>,
        out: &mut Weights,
    ) -> Result<(), NoMemory>
        requires set { E.set ≡ self.now.charset }
        requires well_formed { IsWellFormed E.set text.now }
        ensures ok { let m = uca_meaning self.now.charset self.now.kind self.now.keys in
            OnOk result
            (out.new ≡ out.old ++ flat_list m (first_chars first (chars m.charset text.now))) }
        ensures err { OnErr result (out.new ≡ out.old) }
    {
        let front = front_of::<E>(text, first);
        put_weights(&mut self.text_weights::<E>(front), out)
    }
}

/// A text's first characters, or all where no number is given.
fn front_of<E: Encoding>(text: &[u8], first: Option<u32>) -> &[u8]
    requires { IsWellFormed E.set text.now }
    ensures { chars E.set result.now ≡ first_chars first (chars E.set text.now) }
{
    match first {
        Some(count) => front_codes::<E>(text, count),
        None => text,
    }
}
