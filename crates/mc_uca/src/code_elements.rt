ghost use Rattle.mc_uca.specs.Streams.{pending_left, IsFirstPiece};
ghost use Rattle.mc_uca.specs.Weighing.{is_of_set, uca_elements, uca_list};
ghost use Rattle.std.specs.Prelude.{◌≡◌, ◌++◌, [], true, IfOk, IfSome, MatchOption};

use crate::pending::Pending;
use crate::stream::{ElementStream, LevelWeights};
use crate::weigher::Weigher;
use mc_allkeys::{Element, cut_law, longest_law};
use mc_base::{NoMemory, Weights};
use mc_charset::chars_law;
use mc_order::put_weights;
use std::alloc::Global;

/// The piece that begins code points: its elements, and what is behind it.
#[derive(Drop)]
struct CodePiece<'a> {
    elements: Pending<'a>,
    behind: &'a [u32],
}

/// The elements of code points of the set, piece by piece.
#[derive(Drop)]
struct CodeElements<'a> {
    weigher: &'a Weigher,
    pending: Pending<'a>,
    codes: &'a [u32],
    ghost of_set: { is_of_set weigher.now.charset codes.now ≡ true },
}

impl<'a> ElementStream for CodeElements<'a> {
    ghost left = { λ elements. pending_left elements.pending
        ++ uca_elements elements.weigher.now.charset elements.weigher.now.kind
        elements.weigher.now.keys elements.codes.now };

    fn next_element(&mut self) -> Option<Element> {
        loop {
            if let Some(element) = self.pending.next_element() {
                return Some(element);
            }
            match self.weigher.first_piece(self.codes) {
                Some(piece) => {
                    self.pending = piece.elements;
                    self.codes = piece.behind;
                }
                None => return None,
            }
        }
    }
}

impl Weigher {
    /// The piece that begins code points of the set; None where there are none.
    fn first_piece<'a>(&'a self, codes: &'a [u32]) -> Option<CodePiece<'a>>
        requires { is_of_set self.now.charset codes.now ≡ true }
        ensures piece { MatchOption result (codes.now ≡ [])
            (λ piece. IsFirstPiece (uca_elements self.now.charset self.now.kind self.now.keys)
            codes.now (pending_left piece.elements) piece.behind.now) }
        ensures of_set { IfSome result
            (λ piece. is_of_set self.now.charset piece.behind.now ≡ true) }
    {
        cut_law();
        longest_law();
        chars_law();
        let [first, ..] = codes else {
            return None;
        };
        match self.keys.longest(codes) {
            Some((len, elements)) => Some(CodePiece {
                elements: Pending::listed(&self.keys, elements),
                behind: &codes[len..],
            }),
            None => Some(CodePiece {
                elements: self.char_elements(*first),
                behind: &codes[1..],
            }),
        }
    }

    /// The weights of code points of the set on the first level.
    pub(crate) fn first_list(&self, alloc: Global, codes: &[u32]) -> Result<Weights, NoMemory>
        requires { is_of_set self.now.charset codes.now ≡ true }
        ensures { IfOk result (λ list. list
            ≡ uca_list self.now.charset self.now.kind self.now.keys 1 codes.now) }
    {
        let mut weights = LevelWeights {
            elements: CodeElements {
                weigher: self,
                pending: Pending::listed(&self.keys, &[]),
                codes,
            },
            level: 1,
        };
        let mut list = Weights::new(alloc);
        put_weights(&mut weights, &mut list)?;
        Ok(list)
    }
}
