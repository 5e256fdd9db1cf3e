//! The weights of a text in the small kind of the tests, read from its bytes.
ghost use Rattle.mc_order.specs.Meaning.{flat_list, separator};
ghost use Rattle.mc_order.specs.Toy.{begins_dzs, capital_weights, dzs_weights, folded};
ghost use Rattle.mc_order.specs.Toy.{toy_list, toy_meaning};
ghost use Rattle.std.specs.Bool.{OnTrue};
ghost use Rattle.std.specs.Option.{option_to_list};
ghost use Rattle.std.specs.Prelude.{◌≡◌, None, ◌<◌, ◌≤◌, ◌++◌, ◌∷◌, [], length, drop};
ghost use Rattle.std.specs.Prelude.{if◌then◌else◌};

use crate::WeightStream;

/// The capital of a letter, and any other byte.
pub(crate) fn folded(code: u32) -> u32
    ensures { result ≡ folded code }
{
    if 0x61 <= code && code <= 0x7A {
        code - 0x20
    } else {
        code
    }
}

/// A piece that begins a text: its length in bytes, and its weights, none to two.
#[derive(Clone, Copy)]
struct Piece {
    len: usize,
    weight: Option<u32>,
    second: Option<u32>,
}

/// The weights of a byte.
fn byte_weights(level: u32, byte: u8) -> (Option<u32>, Option<u32>)
    ensures weights { option_to_list result.0 ++ option_to_list result.1
        ≡ capital_weights level (folded byte) }
    ensures none { result.0 ≡ None → result.1 ≡ None }
{
    match (folded(u32::from(byte)), level) {
        (0x2D, _) => (None, None),
        (0x26, 1) => (Some(0x46), Some(0x55)),
        (0x26, _) => (Some(1), Some(1)),
        (0xE1, 1) => (Some(0x42), None),
        (0xE1, _) => (Some(2), None),
        (capital, 1) => (Some(capital + 1), None),
        _ => (Some(1), None),
    }
}

/// Whether the contraction dzs begins a text.
fn begins_dzs(text: &[u8]) -> bool
    ensures begins { result ≡ begins_dzs text.now }
    ensures within { OnTrue result (3 ≤ length text.now) }
{
    match *text {
        [b'd', b'z', b's', ..] => true,
        _ => false,
    }
}

/// The weight of dzs.
fn dzs_weight(level: u32) -> u32
    ensures { dzs_weights level ≡ result ∷ [] }
{
    if level == 1 { 0x100 } else { 1 }
}

/// The piece that begins a text: dzs, else a byte.
#[tactic(auto, using(crate::proofs::ToyTexts::pieces))]
fn next_piece(level: u32, text: &[u8]) -> Piece
    requires { 0 < length text.now }
    ensures within { result.len ≤ length text.now }
    ensures some { 0 < result.len }
    ensures weights { toy_list 0 level text.now
        ≡ (option_to_list result.weight ++ option_to_list result.second)
        ++ toy_list 0 level (drop result.len text.now) }
    ensures none { result.weight ≡ None → result.second ≡ None }
{
    if begins_dzs(text) {
        return Piece {
            len: 3,
            weight: Some(dzs_weight(level)),
            second: None,
        };
    }
    let (weight, second) = byte_weights(level, text[0]);
    Piece {
        len: 1,
        weight,
        second,
    }
}

/// The weights of a level.
#[derive(Drop)]
struct LevelWeights<'a> {
    level: u32,
    text: &'a [u8],
    second: Option<u32>,
}

impl<'a> WeightStream for LevelWeights<'a> {
    ghost left = { λ weights. option_to_list weights.second
        ++ toy_list 0 weights.level weights.text.now };

    fn next_weight(&mut self) -> Option<u32> {
        if let Some(weight) = self.second {
            self.second = None;
            return Some(weight);
        }
        while !self.text.is_empty() {
            let piece = next_piece(self.level, self.text);
            self.text = &self.text[piece.len..];
            if let Some(weight) = piece.weight {
                self.second = piece.second;
                return Some(weight);
            }
        }
        None
    }
}

impl<'a> LevelWeights<'a> {
    /// The weights of this text.
    fn new(level: u32, text: &'a [u8]) -> LevelWeights<'a>
        ensures level { result.level ≡ level }
        ensures whole { result.text.now ≡ text.now }
        ensures none { result.second ≡ None }
    {
        LevelWeights {
            level,
            text,
            second: None,
        }
    }
}

/// The weights of the first level, a separator, and those of the second one.
#[derive(Drop)]
pub(crate) struct ToyWeights<'a> {
    whole: &'a [u8],
    level: LevelWeights<'a>,
    on_first: bool,
}

impl<'a> WeightStream for ToyWeights<'a> {
    ghost left = { λ weights. option_to_list weights.level.second
        ++ toy_list 0 weights.level.level weights.level.text.now
        ++ (if weights.on_first then separator ∷ toy_list 0 2 weights.whole.now else []) };

    fn next_weight(&mut self) -> Option<u32> {
        if let Some(weight) = self.level.next_weight() {
            return Some(weight);
        }
        if !self.on_first {
            return None;
        }
        self.on_first = false;
        self.level = LevelWeights::new(2, self.whole);
        Some(0)
    }
}

impl<'a> ToyWeights<'a> {
    /// The weights of this text.
    pub(crate) fn new(text: &'a [u8]) -> ToyWeights<'a>
        ensures { option_to_list result.level.second
            ++ toy_list 0 result.level.level result.level.text.now
            ++ (if result.on_first then separator ∷ toy_list 0 2 result.whole.now else [])
            ≡ flat_list toy_meaning text.now }
    {
        ToyWeights {
            whole: text,
            level: LevelWeights::new(1, text),
            on_first: true,
        }
    }
}
