// What is surely held is given back. No closure for the work between: it would owe a clause that it keeps the holds.
ghost use Rattle.machine.specs.Holds.{back_call};
ghost use Rattle.memory.specs.Tokens.{Held, pass_of};
ghost use Rattle.semispace.specs.Formed.{FormedThrough};
ghost use Rattle.std.specs.Prelude.{◌≡◌, ◌<◌};

use atom::kind::Atom;
use memory::memory::ListMemory;
use memory::token::Token;
use store::words::Store;

// Puts the word of a held token into d: a back that is not refused.
pub fn restore<S: Store, A: Atom>(memory: &mut ListMemory<S, A>, d: usize, token: Token)
    requires { (d < 16) × (Held memory.old token) }
    ensures after { memory.new ≡ (back_call memory.old d (pass_of token)).after }
    ensures formed { FormedThrough memory.old memory.new }
{
    match memory.back(d, token) {
        Ok(()) => (),
        Err(_) => unreachable(),
    }
}
