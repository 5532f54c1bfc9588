// The collector's share of a cons, and the cell that a cons gets.
ghost use Rattle.std.specs.Prelude.{◌≡◌, ◌+◌};
ghost use Rattle.machine.specs.Machine.{allocate, collected, new_cell, room, with_heap};
ghost use Rattle.machine.specs.Words.{refer};
ghost use Rattle.machine.specs.Work.{ConsWork};
ghost use Rattle.semispace.specs.Formed.{FormedThrough};

use super::Semispace;
use crate::cells::{put_cell, reference};
use machine::faults::MemoryFault;
use store::words::Store;

impl<S: Store> Semispace<S> {
    // A flip if one is due, then a scan of at most `pace` cells.
    pub fn collect(&mut self)
        ensures after { self.new ≡ collected self.old }
        ensures bounded { ConsWork self.old self.new }
        ensures formed { FormedThrough self.old self.new }
    {
        self.formed();
        let pace = self.state.terms.pace;
        self.flip_if_due();
        self.scan(pace);
        self.formed();
    }

    // Whether a cons may have a cell, or which refusal it gets.
    pub fn room(&self) -> Result<(), MemoryFault>
        ensures { result ≡ room self.now.heap.marks }
    {
        self.state.marks.room()
    }

    // A cell from the top with the two words, and the reference to it.
    pub fn allocate(&mut self, pair: (u32, u32)) -> u32
        ensures answer { result ≡ refer (new_cell self.old) }
        ensures after { self.new ≡ allocate self.old pair }
        ensures formed { FormedThrough self.old self.new }
    {
        self.formed();
        self.state.marks = self.state.marks.allocated_one();
        let cell = self.here() + self.state.marks.top;
        put_cell(&mut self.store, cell, pair);
        self.formed();
        reference(cell)
    }
}
