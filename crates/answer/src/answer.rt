// What the console answers to a command that is granted.
ghost use Rattle.answer.specs.Texts.{answer_text};
ghost use Rattle.std.specs.Prelude.{Some};

use atom::axis::AxisWord;
use machine::sight::Sight;
use std::fmt;

#[derive(Clone, Copy, PartialEq, Eq, Debug)]
pub enum Answer {
    Done,
    Shown(Sight<AxisWord>),
    // whether two registers have the same word
    Equal(bool),
}

impl fmt::Display for Answer {
    ghost output = { λ a. Some (answer_text a) };

    fn fmt<W: fmt::Write>(&self, f: &mut fmt::Formatter<W>) -> fmt::Result {
        match self {
            Answer::Done => write!(f, "ok"),
            Answer::Shown(Sight::Nil) => write!(f, "nil"),
            Answer::Shown(Sight::Cell) => write!(f, "cell"),
            Answer::Shown(Sight::Atom(atom)) => write!(f, "{atom}"),
            Answer::Equal(true) => write!(f, "same"),
            Answer::Equal(false) => write!(f, "other"),
        }
    }
}
