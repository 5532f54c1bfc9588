// The calls that only read or write registers.
ghost use Rattle.machine.specs.Calls.{set_call, load_call, clear_call, look_call, same_call};
ghost use Rattle.machine.specs.Words.{sight_of};
ghost use Rattle.machine.specs.Work.{NoWork};
ghost use Rattle.semispace.specs.Formed.{Formed, FormedThrough};
ghost use Rattle.std.specs.Prelude.{◌≡◌};

use super::ListMemory;
use atom::kind::Atom;
use machine::faults::MemoryFault;
use machine::sight::Sight;
use semispace::cells::{NIL, is_reference};
use store::words::Store;

// What a word shows.
fn sight<A: Atom>(word: u32) -> Sight<A>
    ensures { result ≡ sight_of A.meant word }
{
    if word == NIL {
        return Sight::Nil;
    }
    if is_reference(word) {
        return Sight::Cell;
    }
    A::read(word).map_or(Sight::Nil, Sight::Atom)
}

impl<S: Store, A: Atom> ListMemory<S, A> {
    pub fn set(&mut self, d: usize, atom: A) -> Result<(), MemoryFault>
        ensures answer { result ≡ (set_call self.old d (A.coded atom)).answer }
        ensures after { self.new ≡ (set_call self.old d (A.coded atom)).after }
        ensures bounded { NoWork self.old self.new }
        ensures formed { FormedThrough self.old self.new }
    {
        self.space.admit(&[d])?;
        self.space.set_register(d, atom.code()?);
        Ok(())
    }

    pub fn load(&mut self, d: usize, r: usize) -> Result<(), MemoryFault>
        ensures answer { result ≡ (load_call self.old d r).answer }
        ensures after { self.new ≡ (load_call self.old d r).after }
        ensures bounded { NoWork self.old self.new }
        ensures formed { FormedThrough self.old self.new }
    {
        self.space.admit(&[d, r])?;
        self.space.set_register(d, self.space.register(r));
        Ok(())
    }

    pub fn clear(&mut self, d: usize) -> Result<(), MemoryFault>
        ensures answer { result ≡ (clear_call self.old d).answer }
        ensures after { self.new ≡ (clear_call self.old d).after }
        ensures bounded { NoWork self.old self.new }
        ensures formed { FormedThrough self.old self.new }
    {
        self.space.admit(&[d])?;
        self.space.set_register(d, NIL);
        Ok(())
    }

    pub fn look(&self, r: usize) -> Result<Sight<A>, MemoryFault>
        ensures answer { result ≡ (look_call A.meant self.now r).answer }
        ensures formed { Formed self.now }
    {
        self.space.admit(&[r])?;
        Ok(sight(self.space.register(r)))
    }

    pub fn same(&self, a: usize, b: usize) -> Result<bool, MemoryFault>
        ensures answer { result ≡ (same_call self.now a b).answer }
        ensures formed { Formed self.now }
    {
        self.space.admit(&[a, b])?;
        Ok(self.space.register(a) == self.space.register(b))
    }
}
