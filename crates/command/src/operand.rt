// Operands: the words of a line taken one by one, or the column at which the line is not understood.
ghost use Rattle.command.specs.Atoms.{atom_of, signed_of};
ghost use Rattle.command.specs.Operands.{alone, as_atom, as_number, as_verb, take, took};
ghost use Rattle.std.specs.Prelude.{◌≡◌, Option};
ghost use Rattle.words.specs.Tokens.{Sort, sort_in};

use atom::axis::AxisWord;
use verb::Verb;
use words::misread::Misread;
use words::number::read_number;
use words::reader::{Placed, Words};
use words::token::{Letter, Token};

// What a word can say: a command, a number or an atom.
pub(crate) trait FromWord: Sized {
    ghost said: { Sort → Option Self };

    fn from_word(word: Token<'_>) -> Option<Self>
        ensures answer { result ≡ said (sort_in word.entry) };
}

impl FromWord for Verb {
    ghost said = { as_verb };

    fn from_word(word: Token<'_>) -> Option<Verb> {
        match word {
            Token::Name(name) => Verb::try_from(name).ok(),
            _ => None,
        }
    }
}

impl FromWord for usize {
    ghost said = { as_number };

    fn from_word(word: Token<'_>) -> Option<usize> {
        match word {
            Token::Number(digits) => Some(read_number(digits)? as usize),
            _ => None,
        }
    }
}

impl FromWord for AxisWord {
    ghost said = { as_atom };

    fn from_word(word: Token<'_>) -> Option<AxisWord> {
        match word {
            Token::Atom(letter, text) => read_atom(letter, text),
            _ => None,
        }
    }
}

fn read_atom(letter: Letter, text: &[u8]) -> Option<AxisWord>
    ensures answer { result ≡ atom_of letter text.now }
{
    match letter {
        Letter::X => Some(AxisWord::X(read_signed(text)?)),
        Letter::Y => Some(AxisWord::Y(read_signed(text)?)),
        Letter::Z => Some(AxisWord::Z(read_signed(text)?)),
        Letter::D => Some(AxisWord::D(read_number(text)?)),
        Letter::T => Some(AxisWord::T(read_number(text)?)),
    }
}

// Eight digits fit an i32, with a minus too.
#[tactic(auto, using(std::proofs::lemmas::List::take_rest, std::proofs::lemmas::Int::ints))]
fn read_signed(text: &[u8]) -> Option<i32>
    ensures answer { result ≡ signed_of text.now }
{
    match text {
        [b'-', digits @ ..] => Some(-(read_number(digits)? as i32)),
        _ => Some(read_number(text)? as i32),
    }
}

// The next word, if it says such a value.
pub(crate) fn take<V: FromWord>(words: &mut Words<'_>) -> Result<V, Misread>
    ensures answer { took result words.new ≡ take V.said words.old }
    ensures after { words.new.end ≡ words.old.end }
{
    let missing = Misread {
        column: words.end(),
    };
    let Placed { column, token } = words.next().ok_or(missing)?;
    V::from_word(token).ok_or(Misread { column })
}

// A word that is left over is not understood.
pub(crate) fn finish(words: &mut Words<'_>) -> Result<(), Misread>
    ensures answer { result ≡ alone tt words.old }
{
    match words.next() {
        Some(Placed { column, .. }) => Err(Misread { column }),
        None => Ok(()),
    }
}
