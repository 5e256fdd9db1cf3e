ghost use Rattle.mc_charset.specs.Chars.{chars};
ghost use Rattle.mc_uca.specs.Direct.{direct_on};
ghost use Rattle.mc_uca.specs.Weighing.{uca_list};
ghost use Rattle.std.specs.Option.{option_map_or};
ghost use Rattle.std.specs.Prelude.{◌≡◌, ◌++◌, ◌∷◌, [], None, MatchOption};

use crate::direct::DirectWeight;
use crate::pending::Pending;
use crate::stream::LevelWeights;
use crate::weigher::Weigher;
use mc_charset::Encoding;
use mc_order::WeightStream;
use std::marker::PhantomData;

/// The weights of a text on a level: those of the piece at hand, and of the text behind it.
#[derive(Drop)]
pub(crate) struct TextWeights<'a, E: Encoding> {
    weigher: &'a Weigher,
    level: u8,
    direct: &'a [DirectWeight],
    piece: Option<LevelWeights<Pending<'a>>>,
    text: &'a [u8],
    encoding: PhantomData<E>,
    ghost same_set: { E.set ≡ weigher.now.charset },
    ghost of_level: { direct.now ≡ direct_on weigher.now.direct level },
}

impl<'a, E: Encoding> WeightStream for TextWeights<'a, E> {
    ghost left = { λ weights. option_map_or
        ⟦<LevelWeights<Pending<'a>> as WeightStream>⟧.left weights.piece [] ++ uca_list weights.weigher.now.charset
        weights.weigher.now.kind weights.weigher.now.keys weights.level
        (chars E.set weights.text.now) };

    #[inline(always)]
    fn next_weight(&mut self) -> Option<u32> {
        if self.piece.is_none() {
            if let Some(weight) = self.direct_weight() {
                return Some(weight);
            }
        }
        self.piece_weight()
    }
}

impl<'a, E: Encoding> TextWeights<'a, E> {
    /// The weights of this text on a level.
    pub(crate) fn new(weigher: &'a Weigher, text: &'a [u8], level: u8) -> TextWeights<'a, E>
        requires { E.set ≡ weigher.now.charset }
        ensures { ⟦<TextWeights<'a, E> as WeightStream>⟧.left result
            ≡ uca_list weigher.now.charset weigher.now.kind weigher.now.keys level
            (chars E.set text.now) }
    {
        TextWeights {
            weigher,
            level,
            direct: weigher.direct.on(level),
            piece: None,
            text,
            encoding: PhantomData,
        }
    }

    /// The weight of the character that begins the text, where it has one and is a piece by itself.
    #[inline(always)]
    fn direct_weight(&mut self) -> Option<u32>
        requires { self.old.piece ≡ None }
        ensures { MatchOption result (self.new ≡ self.old)
            (λ weight. ⟦<TextWeights<'a, E> as WeightStream>⟧.left self.old
            ≡ weight ∷ ⟦<TextWeights<'a, E> as WeightStream>⟧.left self.new) }
    {
        let first = self.weigher.first_weight::<E>(self.direct, self.text)?;
        self.text = first.behind;
        Some(u32::from(first.weight))
    }

    /// The next weight of the piece at hand, or of the next ones.
    #[tactic(auto, using(crate::proofs::Levels::piece_weights))]
    fn piece_weight(&mut self) -> Option<u32>
        ensures { MatchOption result
            ((⟦<TextWeights<'a, E> as WeightStream>⟧.left self.old ≡ [])
            × (⟦<TextWeights<'a, E> as WeightStream>⟧.left self.new ≡ []))
            (λ weight. ⟦<TextWeights<'a, E> as WeightStream>⟧.left self.old
            ≡ weight ∷ ⟦<TextWeights<'a, E> as WeightStream>⟧.left self.new) }
    {
        loop {
            if let Some(weight) = self.at_hand() {
                return Some(weight);
            }
            if let Some(weight) = self.direct_weight() {
                return Some(weight);
            }
            let Some(piece) = self.weigher.next_piece::<E>(self.text) else {
                return None;
            };
            self.piece = Some(LevelWeights {
                elements: piece.elements,
                level: self.level,
            });
            self.text = piece.behind;
        }
    }

    /// The next weight of the piece at hand; without one, no piece is at hand.
    fn at_hand(&mut self) -> Option<u32>
        ensures { MatchOption result
            ((self.new.piece ≡ None) × (self.new.text ≡ self.old.text)
            × (self.new.weigher ≡ self.old.weigher) × (self.new.level ≡ self.old.level)
            × (option_map_or ⟦<LevelWeights<Pending<'a>> as WeightStream>⟧.left self.old.piece []
            ≡ []))
            (λ weight. ⟦<TextWeights<'a, E> as WeightStream>⟧.left self.old
            ≡ weight ∷ ⟦<TextWeights<'a, E> as WeightStream>⟧.left self.new) }
    {
        match &mut self.piece {
            Some(weights) => {
                if let Some(weight) = weights.next_weight() {
                    return Some(weight);
                }
            }
            None => return None,
        }
        self.piece = None;
        None
    }
}
