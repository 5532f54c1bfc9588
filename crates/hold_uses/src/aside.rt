// A token that goes up to the caller.
ghost use Rattle.hold_uses.specs.Aside.{UnspentUp, aside_call, passed_up};
ghost use Rattle.semispace.specs.Formed.{FormedThrough};
ghost use Rattle.std.specs.Prelude.{◌≡◌};

use atom::kind::Atom;
use machine::faults::MemoryFault;
use machine::sight::Sight;
use memory::memory::ListMemory;
use memory::token::Token;
use store::words::Store;

// Sets a list aside at p, for the caller to have back. What is no cell needs no place.
pub fn set_aside<S: Store, A: Atom>(
    memory: &mut ListMemory<S, A>,
    r: usize,
    p: usize,
) -> Result<Option<Token>, MemoryFault>
    ensures answer { passed_up result ≡ (aside_call A.meant memory.old r p).answer }
    ensures unspent { UnspentUp result }
    ensures after { memory.new ≡ (aside_call A.meant memory.old r p).after }
    ensures formed { FormedThrough memory.old memory.new }
{
    match memory.look(r)? {
        Sight::Cell => {
            let token = memory.hold(r, p)?;
            Ok(Some(token))
        }
        Sight::Nil | Sight::Atom(_) => Ok(None),
    }
}
