// From a line to the command that it says.
ghost use Rattle.command.specs.Commands.{command_of, operands, parsed};
ghost use Rattle.command.specs.Operands.{took};
ghost use Rattle.std.specs.Prelude.{◌≡◌};

use super::command::Command;
use super::operand::{finish, take};
use verb::Verb;
use words::misread::Misread;
use words::reader::Words;

const LONGEST: usize = 64;

// An Err has the column of the first word not understood, missing or left over; in a line too long to be read, one past the longest.
pub fn parse(line: &[u8]) -> Result<Command, Misread>
    ensures answer { result ≡ parsed line.now }
{
    if line.len() > LONGEST {
        return Err(Misread {
            column: LONGEST + 1,
        });
    }
    read_command(&mut Words::new(line))
}

#[tactic(auto, unfolding(crate::specs::Commands::command_of))]
fn read_command(words: &mut Words<'_>) -> Result<Command, Misread>
    ensures answer { result ≡ command_of words.old }
{
    let verb = take(words)?;
    let command = read_operands(verb, words)?;
    finish(words)?;
    Ok(command)
}

fn read_operands(verb: Verb, words: &mut Words<'_>) -> Result<Command, Misread>
    ensures answer { took result words.new ≡ operands verb words.old }
{
    Ok(match verb {
        Verb::Open => Command::Open(take(words)?, take(words)?),
        Verb::Set => Command::Set(take(words)?, take(words)?),
        Verb::Cons => Command::Cons(take(words)?, take(words)?, take(words)?),
        Verb::Car => Command::Car(take(words)?, take(words)?),
        Verb::Cdr => Command::Cdr(take(words)?, take(words)?),
        Verb::Rplaca => Command::Rplaca(take(words)?, take(words)?),
        Verb::Rplacd => Command::Rplacd(take(words)?, take(words)?),
        Verb::Load => Command::Load(take(words)?, take(words)?),
        Verb::Clear => Command::Clear(take(words)?),
        Verb::Look => Command::Look(take(words)?),
        Verb::Same => Command::Same(take(words)?, take(words)?),
    })
}
