// The words of a line, one after the other.
ghost use Rattle.std.specs.Prelude.{◌≡◌, [], ◌∷◌, MatchOption};
ghost use Rattle.lines.specs.Lines.{blank, words_of};
ghost use Rattle.std.specs.Iterator.{YieldsFirstRef, item_count};

use std::marker::Model;

// What is left of a line, seen as its words.
#[derive(Drop)]
pub(crate) struct Scanner<'a> {
    rest: &'a [u8],
}

impl<'a> Model for Scanner<'a> {
    ghost use Rattle.std.specs.Prelude.{ℕ, List};
    ghost use Rattle.lines.specs.Lines.{words_of};

    ghost Value = { List (List ℕ) };

    ghost view = { λ s. words_of s.rest.now };
}

#[tactic(auto, unfolding(crate::specs::Lines::blank))]
fn is_blank(b: u8) -> bool
    ensures { result ≡ blank b }
{
    b == b' ' || b == b'\t'
}

// The first word of a line and what stands behind it, or none where nothing but blanks is left.
fn split_word(line: &[u8]) -> Option<(&[u8], &[u8])>
    ensures { MatchOption result (words_of line.now ≡ []) (λ parts. words_of line.now ≡ parts.0.now ∷ words_of parts.1.now) }
{
    let start = line.iter().position(|b| !is_blank(*b))?;
    let (_, text) = line.split_at(start);
    let end = text.iter().position(|b| is_blank(*b)).unwrap_or(text.len());
    Some(text.split_at(end))
}

impl<'a> Scanner<'a> {
    pub(crate) fn new(line: &'a [u8]) -> Scanner<'a>
        ensures { result ≡ words_of line.now }
    {
        Scanner { rest: line }
    }
}

impl<'a> Iterator for Scanner<'a> {
    type Item = &'a [u8];

    ghost next_gives = { YieldsFirstRef (λ s. s) };

    ghost remaining = { item_count (λ s. s) };

    fn next(&mut self) -> Option<&'a [u8]> {
        let (word, rest) = split_word(self.rest)?;
        self.rest = rest;
        Some(word)
    }
}
