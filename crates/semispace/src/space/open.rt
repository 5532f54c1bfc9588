// Opening over the two halves of a store.
ghost use Rattle.std.specs.Prelude.{◌≡◌};
ghost use Rattle.machine.specs.Calls.{open_call};
ghost use Rattle.machine.specs.Work.{NoWork};
ghost use Rattle.semispace.specs.Formed.{FormedThrough};

use super::Semispace;
use machine::faults::MemoryFault;
use store::words::Store;

impl<S: Store> Semispace<S> {
    // The state is lent the store only to look at. Three numbers and no struct of them, as the memory's open takes them.
    pub fn open(&mut self, pace: usize, limit: usize, number: u32) -> Result<(), MemoryFault>
        ensures answer { result ≡ (open_call self.old pace limit number).answer }
        ensures after { self.new ≡ (open_call self.old pace limit number).after }
        ensures bounded { NoWork self.old self.new }
        ensures formed { FormedThrough self.old self.new }
    {
        self.formed();
        let answer = self.state.open(&self.store, pace, limit, number);
        self.formed();
        answer
    }
}
