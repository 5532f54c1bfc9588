// A list memory over any store, for any atom kind.
ghost use Rattle.ledger.specs.Law.{LedgerLaw};
ghost use Rattle.ledger.specs.Runs.{Order};
ghost use Rattle.machine.specs.Calls.{open_call};
ghost use Rattle.machine.specs.Machine.{shut_machine};
ghost use Rattle.machine.specs.Work.{NoWork};
ghost use Rattle.semispace.specs.Formed.{Formed, FormedThrough};
ghost use Rattle.std.specs.Prelude.{◌≡◌, List, Ok};

use atom::kind::Atom;
use machine::faults::MemoryFault;
use semispace::space::Semispace;
use std::marker::{Model, PhantomData};
use store::words::Store;

pub mod cells;
pub mod feed;
pub mod holds;
pub mod registers;

// In contracts, a machine: what is kept, with what the store means.
// Each call that changes it, but feed, says how much it collected (`bounded`): a fact of the states before and after, which no type can carry.
#[derive(Drop)]
pub struct ListMemory<S: Store, A: Atom> {
    space: Semispace<S>,
    atoms: PhantomData<A>,
}

impl<S: Store, A: Atom> Model for ListMemory<S, A> {
    ghost use Rattle.machine.specs.Machine.{Machine};

    ghost Value = { Machine };

    ghost view = { λ m. m.space };
}

impl<S: Store, A: Atom> ListMemory<S, A> {
    // A memory over a store, shut.
    pub fn new(store: S) -> Self
        ensures { result ≡ shut_machine (S.words store) }
    {
        ListMemory {
            space: Semispace::new(store),
            atoms: PhantomData,
        }
    }

    // What is true of every memory, whatever was called on it. It does nothing, and tells whoever has one.
    pub fn formed(&self)
        ensures { Formed self.now }
    {
        self.space.formed();
    }

    // The store, as the memory leaves it.
    pub fn finish(self) -> S
        ensures { S.words result ≡ self.heap.words }
    {
        let ListMemory { space, atoms: _ } = self;
        space.into_store()
    }

    // Three numbers and no struct of them: any may be given, and each is refused by a rule of its own.
    // Once it is granted, the memory answers as the ledger does, whatever is called from then on.
    pub fn open(&mut self, pace: usize, limit: usize, number: u32) -> Result<(), MemoryFault>
        ensures answer { result ≡ (open_call self.old pace limit number).answer }
        ensures after { self.new ≡ (open_call self.old pace limit number).after }
        ensures bounded { NoWork self.old self.new }
        ensures formed { FormedThrough self.old self.new }
        ensures law { result ≡ Ok tt → (orders : List (Order A)) → LedgerLaw A.coded A.meant self.new orders }
    {
        self.space.open(pace, limit, number)
    }
}
