// Tokens: a word's sort, with the part of the line that it borrows.
ghost use Rattle.std.specs.Prelude.{◌≡◌};
ghost use Rattle.std.specs.Result.{result_ok};
ghost use Rattle.words.specs.Tokens.{letter_of, sort_in, sort_of};

// The letters of axis words.
#[derive(Clone, Copy, PartialEq, Eq, Debug)]
pub enum Letter {
    X,
    Y,
    Z,
    D,
    T,
}

// A byte that is none of the letters.
#[derive(Clone, Copy, PartialEq, Eq, Debug)]
pub struct NoLetter;

impl TryFrom<u8> for Letter {
    type Error = NoLetter;

    ghost try_from_gives = { λ byte res. result_ok res ≡ letter_of byte };

    fn try_from(byte: u8) -> Result<Self, NoLetter> {
        match byte {
            b'X' => Ok(Letter::X),
            b'Y' => Ok(Letter::Y),
            b'Z' => Ok(Letter::Z),
            b'D' => Ok(Letter::D),
            b'T' => Ok(Letter::T),
            _ => Err(NoLetter),
        }
    }
}

#[derive(Clone, Copy, Debug)]
pub enum Token<'a> {
    // a word that begins with a digit
    Number(&'a [u8]),
    // the letter of an axis word, and what follows it
    Atom(Letter, &'a [u8]),
    // any other word: a command, or nothing
    Name(&'a [u8]),
}

impl<'a> From<&'a [u8]> for Token<'a> {
    ghost from_gives = { λ word token. sort_in token ≡ sort_of word.now };

    fn from(word: &'a [u8]) -> Self {
        match word {
            [b'0'..=b'9', ..] => Token::Number(word),
            [first, rest @ ..] => match Letter::try_from(*first) {
                Ok(letter) => Token::Atom(letter, rest),
                Err(NoLetter) => Token::Name(word),
            },
            [] => Token::Name(word),
        }
    }
}
