ghost use Rattle.mc_charset.specs.declared.charset.Charset.TheVariants as set_of;

use crate::char_at::CharAt;
use crate::charset::Charset;
use crate::encoding::Encoding;
use crate::spelling::Spelling;
use crate::{bytes, latin1, utf8, wide};

/// latin1 as a type.
pub struct Latin1;

impl Encoding for Latin1 {
    ghost set = { set_of.Latin1 };

    #[inline(always)]
    fn charset() -> Charset {
        Charset::Latin1
    }

    #[inline(always)]
    fn found(text: &[u8]) -> CharAt {
        latin1::next(text)
    }

    #[inline(always)]
    fn spelling(code: u32) -> Option<Spelling> {
        latin1::spelling(code)
    }
}

/// ascii as a type.
pub struct Ascii;

impl Encoding for Ascii {
    ghost set = { set_of.Ascii };

    #[inline(always)]
    fn charset() -> Charset {
        Charset::Ascii
    }

    #[inline(always)]
    fn found(text: &[u8]) -> CharAt {
        bytes::next_ascii(text)
    }

    #[inline(always)]
    fn spelling(code: u32) -> Option<Spelling> {
        bytes::spelling_ascii(code)
    }
}

/// utf8mb3 as a type.
pub struct Utf8mb3;

impl Encoding for Utf8mb3 {
    ghost set = { set_of.Utf8mb3 };

    #[inline(always)]
    fn charset() -> Charset {
        Charset::Utf8mb3
    }

    #[inline(always)]
    fn found(text: &[u8]) -> CharAt {
        utf8::next_short(text)
    }

    #[inline(always)]
    fn spelling(code: u32) -> Option<Spelling> {
        utf8::spelling_short(code)
    }
}

/// utf8mb4 as a type.
pub struct Utf8mb4;

impl Encoding for Utf8mb4 {
    ghost set = { set_of.Utf8mb4 };

    #[inline(always)]
    fn charset() -> Charset {
        Charset::Utf8mb4
    }

    #[inline(always)]
    fn found(text: &[u8]) -> CharAt {
        utf8::next(text)
    }

    #[inline(always)]
    fn spelling(code: u32) -> Option<Spelling> {
        utf8::spelling(code)
    }
}

/// ucs2 as a type.
pub struct Ucs2;

impl Encoding for Ucs2 {
    ghost set = { set_of.Ucs2 };

    #[inline(always)]
    fn charset() -> Charset {
        Charset::Ucs2
    }

    #[inline(always)]
    fn found(text: &[u8]) -> CharAt {
        wide::next_ucs2(text)
    }

    #[inline(always)]
    fn spelling(code: u32) -> Option<Spelling> {
        wide::spelling_ucs2(code)
    }
}

/// utf16 as a type.
pub struct Utf16;

impl Encoding for Utf16 {
    ghost set = { set_of.Utf16 };

    #[inline(always)]
    fn charset() -> Charset {
        Charset::Utf16
    }

    #[inline(always)]
    fn found(text: &[u8]) -> CharAt {
        wide::next_utf16(text)
    }

    #[inline(always)]
    fn spelling(code: u32) -> Option<Spelling> {
        wide::spelling_utf16(code)
    }
}

/// utf32 as a type.
pub struct Utf32;

impl Encoding for Utf32 {
    ghost set = { set_of.Utf32 };

    #[inline(always)]
    fn charset() -> Charset {
        Charset::Utf32
    }

    #[inline(always)]
    fn found(text: &[u8]) -> CharAt {
        wide::next_utf32(text)
    }

    #[inline(always)]
    fn spelling(code: u32) -> Option<Spelling> {
        wide::spelling_utf32(code)
    }
}

/// binary as a type.
pub struct Binary;

impl Encoding for Binary {
    ghost set = { set_of.Binary };

    #[inline(always)]
    fn charset() -> Charset {
        Charset::Binary
    }

    #[inline(always)]
    fn found(text: &[u8]) -> CharAt {
        bytes::next_binary(text)
    }

    #[inline(always)]
    fn spelling(code: u32) -> Option<Spelling> {
        bytes::spelling_binary(code)
    }
}
