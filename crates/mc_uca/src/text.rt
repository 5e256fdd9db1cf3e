ghost use Rattle.mc_charset.specs.Chars.{chars};
ghost use Rattle.mc_uca.specs.Streams.{pending_left};
ghost use Rattle.mc_uca.specs.Weighing.{uca_elements};
ghost use Rattle.std.specs.Prelude.{◌≡◌, ◌++◌, []};

use crate::pending::Pending;
use crate::stream::ElementStream;
use crate::weigher::Weigher;
use mc_allkeys::Element;
use mc_charset::Encoding;
use std::marker::PhantomData;

/// The elements of a text, piece by piece.
#[derive(Drop)]
pub(crate) struct TextElements<'a, E: Encoding> {
    weigher: &'a Weigher,
    pending: Pending<'a>,
    text: &'a [u8],
    encoding: PhantomData<E>,
    ghost same_set: { E.set ≡ weigher.now.charset },
}

impl<'a, E: Encoding> ElementStream for TextElements<'a, E> {
    ghost left = { λ elements. pending_left elements.pending
        ++ uca_elements elements.weigher.now.charset elements.weigher.now.kind
        elements.weigher.now.keys (chars E.set elements.text.now) };

    fn next_element(&mut self) -> Option<Element> {
        loop {
            if let Some(element) = self.pending.next_element() {
                return Some(element);
            }
            match self.weigher.next_piece::<E>(self.text) {
                Some(piece) => {
                    self.pending = piece.elements;
                    self.text = piece.behind;
                }
                None => return None,
            }
        }
    }
}

impl<'a, E: Encoding> TextElements<'a, E> {
    /// The elements of this text.
    pub(crate) fn new(weigher: &'a Weigher, text: &'a [u8]) -> TextElements<'a, E>
        requires { E.set ≡ weigher.now.charset }
        ensures weigher { result.weigher.now ≡ weigher.now }
        ensures text { result.text.now ≡ text.now }
        ensures none { pending_left result.pending ≡ [] }
    {
        TextElements {
            weigher,
            pending: Pending::listed(&weigher.keys, &[]),
            text,
            encoding: PhantomData,
        }
    }
}
