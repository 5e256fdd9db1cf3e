ghost use Rattle.mc_allkeys.specs.Pieces.{piece_len};
ghost use Rattle.mc_charset.specs.Chars.{chars};
ghost use Rattle.mc_uca.specs.Streams.{pending_left, IsFirstPiece};
ghost use Rattle.mc_uca.specs.Weighing.{set_contractions, uca_elements};
ghost use Rattle.std.specs.Prelude.{◌≡◌, ◌≤◌, ◌∷◌, [], drop, length, MatchOption};

use crate::codes::{WINDOW, behind_codes, first_codes};
use crate::pending::Pending;
use crate::weigher::Weigher;
use mc_allkeys::{cut_law, keys_law, longest_law, piece_law};
use mc_charset::{CharAt, Encoding, next_in};

/// The piece that begins a text (UTS #10, S2.1, contiguous matches alone): its elements, and what
/// is behind it.
#[derive(Drop)]
pub(crate) struct Piece<'a> {
    pub(crate) elements: Pending<'a>,
    pub(crate) behind: &'a [u8],
}

impl Weigher {
    /// The piece that begins a text; None where it has no characters.
    pub(crate) fn next_piece<'a, E: Encoding>(&'a self, text: &'a [u8]) -> Option<Piece<'a>>
        requires { E.set ≡ self.now.charset }
        ensures { MatchOption result (chars E.set text.now ≡ [])
            (λ piece. IsFirstPiece (uca_elements self.now.charset self.now.kind self.now.keys)
            (chars E.set text.now) (pending_left piece.elements) (chars E.set piece.behind.now)) }
    {
        let CharAt::Char { code, len } = next_in::<E>(text) else {
            return None;
        };
        match self.joined::<E>(text, code) {
            Some(piece) => Some(piece),
            None => Some(self.one::<E>(text, code, len)),
        }
    }

    /// The piece of the one character that begins a text.
    fn one<'a, E: Encoding>(&'a self, text: &'a [u8], code: u32, len: usize) -> Piece<'a>
        requires set { E.set ≡ self.now.charset }
        requires is_code { code ≤ 0x10FFFF }
        requires within { len ≤ length text.now }
        requires heads { chars E.set text.now ≡ code ∷ chars E.set (drop len text.now) }
        requires alone { piece_len (set_contractions self.now.charset self.now.keys.entries)
            (chars E.set text.now) ≡ 1 }
        ensures { IsFirstPiece (uca_elements self.now.charset self.now.kind self.now.keys)
            (chars E.set text.now) (pending_left result.elements)
            (chars E.set result.behind.now) }
    {
        cut_law();
        Piece {
            elements: self.char_elements(code),
            behind: &text[len..],
        }
    }

    /// The contraction that begins a text whose first character is this one.
    fn joined<'a, E: Encoding>(&'a self, text: &'a [u8], first: u32) -> Option<Piece<'a>>
        requires set { E.set ≡ self.now.charset }
        requires heads { chars E.set text.now ≡ first ∷ drop 1 (chars E.set text.now) }
        ensures { MatchOption result
            (piece_len (set_contractions self.now.charset self.now.keys.entries)
            (chars E.set text.now) ≡ 1)
            (λ piece. IsFirstPiece (uca_elements self.now.charset self.now.kind self.now.keys)
            (chars E.set text.now) (pending_left piece.elements) (chars E.set piece.behind.now)) }
    {
        keys_law(&self.keys);
        piece_law();
        longest_law();
        cut_law();
        let reach = self.reach.at(first);
        if reach < 2 {
            return None;
        }
        let mut window = [0; WINDOW];
        let count = first_codes::<E>(text, reach.min(WINDOW), &mut window);
        match self.keys.longest(&window[..count]) {
            Some((len, elements)) => Some(Piece {
                elements: Pending::listed(&self.keys, elements),
                behind: behind_codes::<E>(text, len),
            }),
            None => None,
        }
    }
}
