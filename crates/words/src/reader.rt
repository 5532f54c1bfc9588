// The words of a line, one after another, each with its column.
ghost use Rattle.std.specs.Iterator.{at_most};
ghost use Rattle.std.specs.Prelude.{◌≡◌, length};
ghost use Rattle.words.specs.Reading.{WordsGive, unread};

use super::piece::cut;
use super::token::Token;
use std::marker::Model;

// A word and its column, counted from 1.
#[derive(Clone, Copy, Debug)]
pub struct Placed<'a> {
    pub column: usize,
    pub token: Token<'a>,
}

// What is left of the line, if it has a word left, and the column one past the line's end.
#[derive(Drop)]
pub struct Words<'a> {
    rest: Option<&'a [u8]>,
    end: usize,
}

impl<'a> Model for Words<'a> {
    ghost use Rattle.std.specs.Prelude.{◌<◌, length, option_map, IfSome};
    ghost use Rattle.words.specs.Unread.{Unread, words_in};

    ghost Value = { Unread };

    ghost view = { λ w. record { words = words_in w.end (option_map (λ text. text.now) w.rest); end = w.end } };

    ghost invariant = { λ w. IfSome w.rest (λ text. length text.now < w.end) };
}

impl<'a> Words<'a> {
    pub fn new(line: &'a [u8]) -> Self
        ensures answer { result ≡ unread line.now }
    {
        Words {
            rest: Some(line),
            end: line.len() + 1,
        }
    }

    // One past the end of the line: the column of a word that is missing.
    pub fn end(&self) -> usize
        ensures answer { result ≡ self.now.end }
    {
        self.end
    }
}

impl<'a> Iterator for Words<'a> {
    type Item = Placed<'a>;

    ghost next_gives = { WordsGive };

    ghost remaining = { λ w. at_most (length w.words) };

    #[tactic(auto, using(crate::proofs::Reading::next_word))]
    fn next(&mut self) -> Option<Placed<'a>> {
        let text = self.rest?;
        let (word, rest) = cut(text, b' ');
        self.rest = rest;
        Some(Placed {
            column: self.end - text.len(),
            token: Token::from(word),
        })
    }
}
