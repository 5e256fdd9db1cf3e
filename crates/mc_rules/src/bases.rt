ghost use Rattle.std.specs.Prelude.{◌≡◌, ◌==◌, ◌≤◌};
ghost use Rattle.std.specs.List.{list_any};
ghost use Rattle.mc_rules.specs.Bases.{is_from, old_base, lone_ideographs, is_ideograph};
ghost use Rattle.mc_rules.specs.Bases.{is_extension, new_base};

/// Whether a code point is in a run.
pub(crate) fn is_from(first: u32, last: u32, code: u32) -> bool
    ensures { result ≡ is_from first last code }
{
    first <= code && code <= last
}

/// The base of a code point in the versions 4.0.0 and 5.2.0.
pub(crate) fn old_base(code: u32) -> u16
    ensures base { result ≡ old_base code }
    ensures small { result ≤ 0xFBC0 }
{
    if is_from(0x3400, 0x4DB5, code) {
        0xFB80
    } else if is_from(0x4E00, 0x9FA5, code) {
        0xFB40
    } else {
        0xFBC0
    }
}

/// The base of a code point in version 9.0.0.
pub(crate) fn new_base(code: u32) -> u16
    ensures base { result ≡ new_base code }
    ensures small { result ≤ 0xFBC0 }
{
    if is_ideograph(code) {
        0xFB40
    } else if is_extension(code) {
        0xFB80
    } else {
        0xFBC0
    }
}

/// Whether a code point is an ideograph of the first blocks.
fn is_ideograph(code: u32) -> bool
    ensures { result ≡ is_ideograph code }
{
    is_from(0x4E00, 0x9FD5, code) || is_lone(code)
}

/// Whether a code point is a unified ideograph among the compatibility ideographs.
fn is_lone(code: u32) -> bool
    ensures { result ≡ list_any (λ one. one == code) lone_ideographs }
{
    let lone: [u32; 12] = [
        0xFA0E, 0xFA0F, 0xFA11, 0xFA13, 0xFA14, 0xFA1F, 0xFA21, 0xFA23, 0xFA24, 0xFA27, 0xFA28,
        0xFA29,
    ];
    lone.contains(&code)
}

/// Whether a code point is an ideograph of an extension.
fn is_extension(code: u32) -> bool
    ensures { result ≡ is_extension code }
{
    is_from(0x3400, 0x4DB5, code)
        || is_from(0x20000, 0x2A6D6, code)
        || is_from(0x2A700, 0x2B734, code)
        || is_from(0x2B740, 0x2B81D, code)
        || is_from(0x2B820, 0x2CEA1, code)
}
