// Lists in a memory: made, changed, set aside and fed.
ghost use Rattle.controller.specs.Fed.{told_of};
ghost use Rattle.controller.specs.Keeping.{Keeps};
ghost use Rattle.controller.specs.Rooms.{noted};
ghost use Rattle.machine.specs.Calls.{open_call, cons_call, clear_call};
ghost use Rattle.machine.specs.Feed.{feed_call};
ghost use Rattle.machine.specs.Machine.{shut_machine};
ghost use Rattle.std.specs.Prelude.{◌≡◌, ◌<◌, IfOk, replicate};

use crate::ending::Ending;
use crate::room::Room;
use atom::kind::Atom;
use fed::{Fed, LONGEST};
use hold_uses::held::restore;
use machine::faults::MemoryFault;
use memory::memory::ListMemory;
use store::words::Store;

pub mod fed;

// the registers and hold places that these functions use for themselves
const SCRATCH: usize = 15;

const CURSOR: usize = 14;

const ASIDE: usize = 0;

const FEEDING: usize = 1;

// how often a cons is tried while the scan goes on
const TRIES: u8 = 16;

// A list memory, and how its conses were answered.
pub struct Lists<S: Store, A: Atom> {
    memory: ListMemory<S, A>,
    room: Room,
}

impl<S: Store, A: Atom> Lists<S, A> {
    // Over a store, with the memory shut.
    pub(crate) fn new(store: S) -> Self
        ensures memory { result.memory ≡ shut_machine (S.words store) }
        ensures room { result.room ≡ record { granted = 0; refused = 0 } }
    {
        Lists {
            memory: ListMemory::new(store),
            room: Room::new(),
        }
    }

    pub(crate) fn open(&mut self, pace: usize, limit: usize, number: u32) -> Result<(), MemoryFault>
        ensures answer { result ≡ (open_call self.old.memory pace limit number).answer }
        ensures after { self.new.memory ≡ (open_call self.old.memory pace limit number).after }
        ensures room { self.new.room ≡ self.old.room }
    {
        self.memory.open(pace, limit, number)
    }

    // The store, as the memory leaves it.
    pub(crate) fn finish(self) -> S
        ensures { S.words result ≡ self.memory.heap.words }
    {
        let Lists { memory, room: _ } = self;
        memory.finish()
    }

    pub(crate) fn room(&self) -> Room
        ensures { result ≡ self.now.room }
    {
        self.room
    }

    // Puts the scratch word before the list.
    fn push_scratch(&mut self, list: usize) -> Result<(), MemoryFault>
        ensures answer { result ≡ (cons_call self.old.memory list 15 list).answer }
        ensures after { self.new.memory ≡ (cons_call self.old.memory list 15 list).after }
        ensures room { self.new.room ≡ noted self.old.room result }
        ensures keeps { Keeps self.old.memory self.new.memory }
    {
        let answer = self.memory.cons(list, SCRATCH, list);
        self.room.note(answer);
        answer
    }

    // Puts an atom before the list. A cons that is refused while the scan goes on is tried again, since each try scans on.
    fn push(&mut self, list: usize, atom: A) -> Result<(), MemoryFault>
        ensures keeps { Keeps self.old.memory self.new.memory }
    {
        self.memory.set(SCRATCH, atom)?;
        for _ in 0..TRIES {
            let answer = self.push_scratch(list);
            if answer != Err(MemoryFault::Scanning) {
                return answer;
            }
        }
        Err(MemoryFault::Scanning)
    }

    // Puts the list of the atoms into a register, the last atom first. What was there is dropped.
    pub(crate) fn build(&mut self, list: usize, atoms: &[A]) -> Result<(), MemoryFault>
        ensures keeps { Keeps self.old.memory self.new.memory }
    {
        self.memory.clear(list)?;
        for atom in atoms.iter().rev() {
            self.push(list, *atom)?;
        }
        Ok(())
    }

    // Puts an atom in place of the one that n others stand before.
    pub(crate) fn replace(&mut self, list: usize, n: usize, atom: A) -> Result<(), MemoryFault>
        ensures room { self.new.room ≡ self.old.room }
    {
        let memory = &mut self.memory;
        memory.load(CURSOR, list)?;
        for _ in 0..n {
            memory.cdr(CURSOR, CURSOR)?;
        }
        memory.set(SCRATCH, atom)?;
        memory.rplaca(CURSOR, SCRATCH)?;
        memory.clear(CURSOR)
    }

    // Holds the list while the next one is built in its register, and gives it back to d, however the building went.
    pub(crate) fn build_next(
        &mut self,
        list: usize,
        atoms: &[A],
        d: usize,
    ) -> Result<(), MemoryFault>
        requires { d < 16 }
    {
        let token = self.memory.hold(list, ASIDE)?;
        let built = self.build(list, atoms);
        restore(&mut self.memory, d, token);
        built
    }

    // Feeds the list into a buffer of blanks.
    pub(crate) fn feed(&mut self, list: usize, blank: A) -> Result<Fed<A>, MemoryFault>
        ensures told { told_of result ≡ (feed_call A.meant self.old.memory list 1 (replicate 12 blank)).answer }
        ensures buffer { IfOk result (λ fed. fed.buffer ≡ (feed_call A.meant self.old.memory list 1 (replicate 12 blank)).buffer) }
        ensures after { self.new.memory ≡ (feed_call A.meant self.old.memory list 1 (replicate 12 blank)).after }
        ensures room { self.new.room ≡ self.old.room }
    {
        let mut buffer = [blank; LONGEST];
        let (count, ended) = self.memory.feed(list, FEEDING, &mut buffer)?;
        Ok(Fed {
            buffer,
            count,
            ending: Ending::from(ended),
        })
    }

    // Drops the list.
    pub(crate) fn clear(&mut self, list: usize) -> Result<(), MemoryFault>
        ensures answer { result ≡ (clear_call self.old.memory list).answer }
        ensures after { self.new.memory ≡ (clear_call self.old.memory list).after }
        ensures room { self.new.room ≡ self.old.room }
    {
        self.memory.clear(list)
    }
}
