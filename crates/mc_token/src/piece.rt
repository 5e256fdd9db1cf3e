ghost use Rattle.std.specs.Prelude.{◌≡◌, ◌<◌, ◌≤◌, ◌+◌, ◌-◌, length, slice_index, drop, IfSome};
ghost use Rattle.mc_token.specs.Spellings.{least_len};
ghost use Rattle.mc_token.specs.Tokens.{piece_of, token_within};
ghost use Rattle.mc_token.specs.Pieces.{HasRoom, MeansTokens};

use crate::element::blank_len;
use crate::spelling::{Spelling, spelling_of};

/// What begins at a byte of a statement.
#[derive(Clone, Copy, Debug)]
pub enum Piece {
    /// A space or a closed comment of so many bytes.
    Blank(usize),
    /// A token.
    Begun(Spelling),
    /// Neither.
    Nothing,
}

/// What begins at a place of a statement that ends at another.
pub fn piece_at(script: &[u8], at: usize, end: usize) -> Piece
    requires before { at < end }
    requires within { end ≤ length script.now }
    ensures means { MeansTokens end at script.now result }
    ensures room { HasRoom (end - at) result }
{
    piece_of(&script[at..], end - at)
}

/// What these bytes begin with, of which so many are left of the statement.
#[tactic(auto, unfolding(crate::specs::Tokens::piece_of))]
fn piece_of(bytes: &[u8], room: usize) -> Piece
    requires { 0 < length bytes.now }
    ensures value { result ≡ piece_of room (slice_index bytes.now 0) (drop 1 bytes.now) }
    ensures room { HasRoom room result }
{
    match blank_len(bytes[0], &bytes[1..]) {
        Some(len) => if len <= room {
            Piece::Blank(len)
        } else {
            Piece::Nothing
        },
        None => token_within(room, spelling_of(bytes)),
    }
}

/// The token of this spelling, if it ends within so many bytes.
fn token_within(room: usize, spelling: Option<Spelling>) -> Piece
    requires not_empty { IfSome spelling (λ spelling. 0 < spelling.len) }
    requires long_enough { IfSome spelling (λ spelling. least_len spelling.shape ≤ spelling.len) }
    ensures value { result ≡ token_within room spelling }
    ensures room { HasRoom room result }
{
    match spelling {
        Some(spelling) if spelling.len <= room => Piece::Begun(spelling),
        _ => Piece::Nothing,
    }
}
