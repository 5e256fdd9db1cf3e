ghost use Rattle.mc_charset.specs.Chars.{chars};
ghost use Rattle.mc_uca.specs.Direct.{direct_on};
ghost use Rattle.mc_uca.specs.Weighing.{uca_list};
ghost use Rattle.std.specs.Prelude.{◌≡◌, ◌∷◌, ◌<◌, ℕ, length, IfSome};

use crate::direct::{DirectWeight, direct_at};
use crate::weigher::Weigher;
use mc_charset::{CharAt, Encoding, next_in};

/// The weight that a text begins with on a level.
#[derive(Clone, Copy)]
pub(crate) struct FirstWeight<'a> {
    /// The weight: the only one of the text's first character.
    pub(crate) weight: u16,
    /// The text behind that character.
    pub(crate) behind: &'a [u8],
}

impl Weigher {
    /// The weight of the character that begins the text, where it has one and is a piece by itself.
    /// `direct` is what is noted for the level.
    #[inline(always)]
    pub(crate) fn first_weight<'a, E: Encoding>(
        &self,
        direct: &[DirectWeight],
        text: &'a [u8],
    ) -> Option<FirstWeight<'a>>
        requires { E.set ≡ self.now.charset }
        ensures weight { let list = uca_list self.now.charset self.now.kind self.now.keys in
            IfSome result (λ first. (level : ℕ) → direct.now ≡ direct_on self.now.direct level →
            list level (chars E.set text.now)
            ≡ first.weight ∷ list level (chars E.set first.behind.now)) }
        ensures shorter { IfSome result (λ first. length first.behind.now < length text.now) }
    {
        let CharAt::Char { code, len } = next_in::<E>(text) else {
            return None;
        };
        let noted = direct_at(direct, code);
        if noted.weight == 0 {
            return None;
        }
        let behind = &text[len..];
        if noted.is_head && !self.is_fresh::<E>(behind) {
            return None;
        }
        Some(FirstWeight {
            weight: noted.weight,
            behind,
        })
    }
}
