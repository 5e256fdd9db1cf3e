ghost use Rattle.mc_charset.specs.Chars.{IsWellFormed};
ghost use Rattle.mc_charset.specs.declared.charset.Charset.TheVariants.{Binary};
ghost use Rattle.mc_convert.specs.Classes.{Has, HasIn, IsRepertoire, cap_of, rank};
ghost use Rattle.mc_convert.specs.Repertoires.{repertoire};
ghost use Rattle.mc_convert.specs.declared.repertoire.Repertoire.{Repertoire};
ghost use Rattle.std.specs.Prelude.{◌≡◌, ◌≤◌, ◌↔◌, IsTrue, max};

use crate::plain::is_plain;
use mc_charset::{
    Ascii, CharAt, Charset, Encoding, Latin1, Ucs2, Utf8mb3, Utf8mb4, Utf16, Utf32, bytes_law,
    chars_law, has_in, next_in,
};

/// A class of characters. The classes form a chain in this order.
#[derive(Clone, Copy, Debug, PartialEq, Eq)]
pub enum Repertoire {
    /// Those below U+0080.
    Ascii,
    /// The 256 characters of latin1.
    Latin1,
    /// Those up to U+FFFF.
    Bmp,
    /// All characters.
    Unicode,
    /// Bytes.
    Bytes,
}

impl Repertoire {
    /// Whether it stands before the other one in the chain, or is it.
    pub fn is_at_most(self, other: Repertoire) -> bool
        ensures { IsTrue result ↔ (rank self ≤ rank other) }
    {
        self.place() <= other.place()
    }

    /// The later one of the two in the chain.
    fn or_above(self, other: Repertoire) -> Repertoire
        ensures { rank result ≡ max (rank self) (rank other) }
    {
        if self.is_at_most(other) { other } else { self }
    }

    /// Its place in the chain, from 0.
    fn place(self) -> u8
        ensures { result ≡ rank self }
    {
        match self {
            Repertoire::Ascii => 0,
            Repertoire::Latin1 => 1,
            Repertoire::Bmp => 2,
            Repertoire::Unicode => 3,
            Repertoire::Bytes => 4,
        }
    }
}

/// The class of all characters of a set.
pub fn cap(set: Charset) -> Repertoire
    ensures { result ≡ cap_of set }
{
    match set {
        Charset::Ascii => Repertoire::Ascii,
        Charset::Latin1 => Repertoire::Latin1,
        Charset::Utf8mb3 | Charset::Ucs2 => Repertoire::Bmp,
        Charset::Utf8mb4 | Charset::Utf16 | Charset::Utf32 => Repertoire::Unicode,
        Charset::Binary => Repertoire::Bytes,
    }
}

/// The least class that has every character of a well-formed text.
/// For binary it is `Ascii` where all bytes are below 80, else `Bytes`.
pub fn repertoire_of(set: Charset, text: &[u8]) -> Repertoire
    requires { IsWellFormed set text.now }
    ensures least { IsRepertoire set text.now result }
    ensures is { result ≡ repertoire set text.now }
{
    class_in(set, text)
}

/// The repertoire of a text in a set.
fn class_in(set: Charset, text: &[u8]) -> Repertoire
    requires { IsWellFormed set text.now }
    ensures { IsRepertoire set text.now result }
{
    match set {
        Charset::Latin1 => class_of::<Latin1>(text),
        Charset::Ascii => class_of::<Ascii>(text),
        Charset::Utf8mb3 => class_of::<Utf8mb3>(text),
        Charset::Utf8mb4 => class_of::<Utf8mb4>(text),
        Charset::Ucs2 => class_of::<Ucs2>(text),
        Charset::Utf16 => class_of::<Utf16>(text),
        Charset::Utf32 => class_of::<Utf32>(text),
        Charset::Binary => class_of_bytes(text),
    }
}

/// The repertoire of binary data.
fn class_of_bytes(text: &[u8]) -> Repertoire
    ensures { IsRepertoire Binary text.now result }
{
    chars_law();
    bytes_law(text);
    if text.is_ascii() {
        Repertoire::Ascii
    } else {
        Repertoire::Bytes
    }
}

/// The repertoire of a text in one set.
fn class_of<E: Encoding>(text: &[u8]) -> Repertoire
    ensures { IsRepertoire E.set text.now result }
{
    if is_plain(E::charset(), text) {
        return Repertoire::Ascii;
    }
    class_of_each::<E>(text)
}

/// Goes over one character after the other.
fn class_of_each<E: Encoding>(text: &[u8]) -> Repertoire
    ensures { IsRepertoire E.set text.now result }
{
    let mut class = Repertoire::Ascii;
    let mut rest = text;
    loop {
        match next_in::<E>(rest) {
            CharAt::Char { code, len } => {
                class = with_char(E::charset(), class, code);
                rest = &rest[len..];
            }
            CharAt::End | CharAt::Bad => return class,
        }
    }
}

/// The least class that has all of another class and this character of a text in the set.
#[inline(always)]
fn with_char(set: Charset, class: Repertoire, code: u32) -> Repertoire
    ensures { (other : Repertoire) → (rank result ≤ rank other)
        ↔ ((rank class ≤ rank other) × HasIn set other code) }
{
    if code < 0x80 {
        return class;
    }
    match set {
        Charset::Binary => Repertoire::Bytes,
        _ => with_high_char(class, code),
    }
}

/// The least class that has all of another class and this character above U+007F.
#[inline(always)]
fn with_high_char(class: Repertoire, code: u32) -> Repertoire
    requires { 0x80 ≤ code }
    ensures { (other : Repertoire) → (rank result ≤ rank other)
        ↔ ((rank class ≤ rank other) × Has other code) }
{
    if code < 0x10000 && Repertoire::Bmp.is_at_most(class) {
        return class;
    }
    class.or_above(class_above_7f(code))
}

/// The least class that has this character above U+007F.
fn class_above_7f(code: u32) -> Repertoire
    requires { 0x80 ≤ code }
    ensures { (class : Repertoire) → Has class code ↔ (rank result ≤ rank class) }
{
    if code >= 0x10000 {
        Repertoire::Unicode
    } else if has_in::<Latin1>(code) {
        Repertoire::Latin1
    } else {
        Repertoire::Bmp
    }
}
