// A place that is given back, taken anew and given back again.
ghost use Rattle.hold_uses.specs.Anew.{twice, given};
ghost use Rattle.semispace.specs.Formed.{FormedThrough};
ghost use Rattle.std.specs.Prelude.{◌≡◌, Some, None};

use atom::kind::Atom;
use machine::faults::MemoryFault;
use memory::memory::ListMemory;
use memory::token::{Kept, Token};
use store::words::Store;

// A refusal, with the token if one is still out.
#[derive(Drop)]
pub struct Stopped {
    pub fault: MemoryFault,
    pub token: Option<Token>,
}

// By hand: clauses name the stop that comes of it, and a derived conversion tells them nothing.
impl From<MemoryFault> for Stopped {
    ghost from_gives = { λ f s. s ≡ record { fault = f; token = None } };

    fn from(fault: MemoryFault) -> Stopped {
        Stopped { fault, token: None }
    }
}

impl From<Kept> for Stopped {
    ghost from_gives = { λ k s. s ≡ record { fault = k.fault; token = Some k.token } };

    fn from(kept: Kept) -> Stopped {
        let Kept { fault, token } = kept;
        Stopped {
            fault,
            token: Some(token),
        }
    }
}

// Puts the word of r into d and into e, each time by way of place p.
#[tactic(auto, unfolding(crate::specs::Anew::taking, crate::specs::Anew::giving))]
pub fn hold_twice<S: Store, A: Atom>(
    memory: &mut ListMemory<S, A>,
    r: usize,
    p: usize,
    d: usize,
    e: usize,
) -> Result<(), Stopped>
    ensures answer { given result ≡ (twice memory.old r p d e).answer }
    ensures after { memory.new ≡ (twice memory.old r p d e).after }
    ensures formed { FormedThrough memory.old memory.new }
{
    let first = memory.hold(r, p)?;
    memory.back(d, first)?;
    let second = memory.hold(r, p)?;
    Ok(memory.back(e, second)?)
}
