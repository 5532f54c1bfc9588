// The reply to a line: its number and what came of it.
ghost use Rattle.answer.specs.Texts.{reply_text};
ghost use Rattle.std.specs.Prelude.{Some};

use super::answer::Answer;
use super::faults::ConsoleFault;
use std::fmt;

#[derive(Clone, Copy)]
pub struct Reply {
    pub line: usize,
    pub outcome: Result<Answer, ConsoleFault>,
}

impl fmt::Display for Reply {
    ghost output = { λ r. Some (reply_text r.line r.outcome) };

    fn fmt<W: fmt::Write>(&self, f: &mut fmt::Formatter<W>) -> fmt::Result {
        let line = self.line;
        match self.outcome {
            Ok(answer) => write!(f, "{line} {answer}"),
            Err(fault) => write!(f, "{line} {fault}"),
        }
    }
}
