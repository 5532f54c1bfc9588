// One command, or one line, obeyed on a list memory.
ghost use Rattle.answer.specs.declared.answer.Answer.TheVariants as answered;
ghost use Rattle.semispace.specs.Formed.{FormedThrough};
ghost use Rattle.session.specs.Obeyed.{given, obeyed, reaction};
ghost use Rattle.std.specs.Prelude.{◌≡◌};

use answer::answer::Answer;
use answer::faults::ConsoleFault;
use atom::axis::AxisWord;
use command::command::Command;
use command::parse::parse;
use machine::faults::MemoryFault;
use memory::memory::ListMemory;
use store::words::Store;

// The number that the console gives its memory.
const NUMBER: u32 = 1;

fn done(res: Result<(), MemoryFault>) -> Result<Answer, MemoryFault>
    ensures answer { result ≡ given (λ _. answered.Done) res }
{
    res.map(|()| Answer::Done)
}

pub fn obey<S: Store>(
    memory: &mut ListMemory<S, AxisWord>,
    command: Command,
) -> Result<Answer, MemoryFault>
    ensures answer { result ≡ (obeyed memory.old command).answer }
    ensures after { memory.new ≡ (obeyed memory.old command).after }
    ensures formed { FormedThrough memory.old memory.new }
{
    match command {
        Command::Open(pace, limit) => done(memory.open(pace, limit, NUMBER)),
        Command::Set(d, atom) => done(memory.set(d, atom)),
        Command::Cons(d, a, b) => done(memory.cons(d, a, b)),
        Command::Car(d, r) => done(memory.car(d, r)),
        Command::Cdr(d, r) => done(memory.cdr(d, r)),
        Command::Rplaca(r, v) => done(memory.rplaca(r, v)),
        Command::Rplacd(r, v) => done(memory.rplacd(r, v)),
        Command::Load(d, r) => done(memory.load(d, r)),
        Command::Clear(d) => done(memory.clear(d)),
        Command::Look(r) => memory.look(r).map(Answer::Shown),
        Command::Same(a, b) => memory.same(a, b).map(Answer::Equal),
    }
}

// A line that is not understood is refused before the memory hears of it.
pub fn respond<S: Store>(
    memory: &mut ListMemory<S, AxisWord>,
    line: &[u8],
) -> Result<Answer, ConsoleFault>
    ensures answer { result ≡ (reaction memory.old line.now).answer }
    ensures after { memory.new ≡ (reaction memory.old line.now).after }
    ensures formed { FormedThrough memory.old memory.new }
{
    memory.formed();
    Ok(obey(memory, parse(line)?)?)
}
