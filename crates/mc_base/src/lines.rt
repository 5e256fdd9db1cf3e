ghost use Rattle.std.specs.Prelude.{◌≡◌, ◌+◌, ◌^◌, ◌<◌, [], ◌∷◌, length, MatchOption};
ghost use Rattle.std.specs.Str.Lines.{lines, strip_carriage_return};
ghost use Rattle.mc_base.specs.Lines.{body_of};

use crate::blanks::trim;
use crate::places::place_of;
use std::marker::Model;

/// A line that says something: its number in the file, from 1, and its text without the comment and
/// without blanks at both ends.
#[derive(Clone, Copy)]
pub struct Line<'a> {
    pub number: u32,
    pub body: &'a [u8],
}

/// The lines of a text that say something, in order. Contracts see the list of those that are left,
/// each with its number.
#[derive(Drop)]
pub struct LineReader<'a> {
    raw: RawLines<'a>,
}

impl<'a> Model for LineReader<'a> {
    ghost use Rattle.std.specs.Prelude.{List, ℕ, ◌+◌};
    ghost use Rattle.std.specs.Str.Lines.{lines};
    ghost use Rattle.mc_base.specs.Lines.{bodies_from};

    ghost Value = { List (ℕ × List ℕ) };

    ghost view = { λ reader. bodies_from (reader.raw.taken + 1) (lines reader.raw.rest.now) };
}

impl<'a> LineReader<'a> {
    ghost use Rattle.mc_base.specs.Lines.{lines_of};

    /// The lines of this text.
    pub fn new(text: &'a [u8]) -> LineReader<'a>
        requires { length text.now < 2 ^ 32 }
        ensures { result ≡ lines_of text.now }
    {
        LineReader {
            raw: RawLines {
                rest: text,
                taken: 0,
            },
        }
    }

    /// The next line that says something; None where no line is left.
    #[tactic(auto, using(crate::proofs::LineLemmas::bodies_said, crate::proofs::LineLemmas::bodies_skipped))]
    pub fn next_line(&mut self) -> Option<Line<'a>>
        ensures { MatchOption result ((self.old ≡ []) × (self.new ≡ []))
            (λ line. self.old ≡ (line.number, line.body.now) ∷ self.new) }
    {
        while let Some(raw) = self.raw.next_raw() {
            let body = body_of(raw);
            if !body.is_empty() {
                return Some(Line {
                    number: self.raw.taken,
                    body,
                });
            }
        }
        None
    }
}

/// The lines of a text as they stand, and how many of them were taken.
#[derive(Drop)]
struct RawLines<'a> {
    rest: &'a [u8],
    taken: u32,
    ghost fits: { taken + length rest.now < 2 ^ 32 },
}

impl<'a> RawLines<'a> {
    /// The next line without its end.
    fn next_raw(&mut self) -> Option<&'a [u8]>
        ensures line { MatchOption result
            ((lines self.old.rest.now ≡ []) × (lines self.new.rest.now ≡ []))
            (λ line. lines self.old.rest.now ≡ line.now ∷ lines self.new.rest.now) }
        ensures taken { MatchOption result (self.new.taken ≡ self.old.taken)
            (λ _. (self.new.taken ≡ self.old.taken + 1)
            × (length self.new.rest.now < length self.old.rest.now)) }
    {
        if self.rest.is_empty() {
            return None;
        }
        let (line, rest) = split_line(self.rest);
        self.rest = rest;
        self.taken += 1;
        Some(line)
    }
}

/// The first line of a text without its end, and what follows that.
fn split_line(text: &[u8]) -> (&[u8], &[u8])
    requires { 0 < length text.now }
    ensures line { lines text.now ≡ result.0.now ∷ lines result.1.now }
    ensures shorter { length result.1.now < length text.now }
{
    let end = place_of(text, b'\n');
    if end < text.len() {
        (without_carriage_return(&text[..end]), &text[end + 1..])
    } else {
        (text, &text[end..])
    }
}

/// The line without the CR at its end, if it has one.
fn without_carriage_return(line: &[u8]) -> &[u8]
    ensures { result.now ≡ strip_carriage_return line.now }
{
    match line {
        [front @ .., b'\r'] => front,
        _ => line,
    }
}

/// What a line says: what stands before its comment, without blanks at both ends.
fn body_of(line: &[u8]) -> &[u8]
    ensures { result.now ≡ body_of line.now }
{
    let end = place_of(line, b'#');
    trim(&line[..end])
}
