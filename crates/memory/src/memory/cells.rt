// The calls that make, read and change cells.
ghost use Rattle.machine.specs.Calls.{cons_call, fetch_call, replace_call};
ghost use Rattle.machine.specs.Words.{is_reference};
ghost use Rattle.machine.specs.Work.{ConsWork, FetchWork, NoWork};
ghost use Rattle.machine.specs.declared.faults.MemoryFault.TheVariants.{NotCell};
ghost use Rattle.machine.specs.declared.side.Side.TheVariants.{Head, Tail};
ghost use Rattle.semispace.specs.Formed.{FormedThrough};
ghost use Rattle.std.specs.Prelude.{◌≡◌, if◌then◌else◌, Ok, Err};

use super::ListMemory;
use atom::kind::Atom;
use machine::faults::MemoryFault;
use machine::side::Side;
use semispace::cells::{is_reference, place_of};
use store::words::Store;

// Refuses unless the word refers to a cell, and names the place that it stands for.
pub(super) fn need_cell(place: usize, word: u32) -> Result<(), MemoryFault>
    ensures { result ≡ (if is_reference word then Ok tt else Err (NotCell place)) }
{
    if is_reference(word) {
        Ok(())
    } else {
        Err(MemoryFault::NotCell(place))
    }
}

impl<S: Store, A: Atom> ListMemory<S, A> {
    // A new cell with the words of a and b. They are read after the collector's share, which may move them.
    pub fn cons(&mut self, d: usize, a: usize, b: usize) -> Result<(), MemoryFault>
        ensures answer { result ≡ (cons_call self.old d a b).answer }
        ensures after { self.new ≡ (cons_call self.old d a b).after }
        ensures bounded { ConsWork self.old self.new }
        ensures formed { FormedThrough self.old self.new }
    {
        self.space.admit(&[d, a, b])?;
        self.space.collect();
        self.space.room()?;
        let pair = (self.space.register(a), self.space.register(b));
        let reference = self.space.allocate(pair);
        self.space.set_register(d, reference);
        Ok(())
    }

    // Moves a word of r's cell, writes it back, and puts it into d.
    fn fetch(&mut self, side: Side, d: usize, r: usize) -> Result<(), MemoryFault>
        ensures answer { result ≡ (fetch_call side self.old d r).answer }
        ensures after { self.new ≡ (fetch_call side self.old d r).after }
        ensures bounded { FetchWork self.old self.new }
        ensures formed { FormedThrough self.old self.new }
    {
        self.space.admit(&[d, r])?;
        let word = self.space.register(r);
        need_cell(r, word)?;
        let moved = self.space.move_at(place_of(side, word));
        self.space.set_register(d, moved);
        Ok(())
    }

    // By name as macros have them: car and cdr are one fetch, rplaca and rplacd one replace.
    pub fn car(&mut self, d: usize, r: usize) -> Result<(), MemoryFault>
        ensures answer { result ≡ (fetch_call Head self.old d r).answer }
        ensures after { self.new ≡ (fetch_call Head self.old d r).after }
        ensures bounded { FetchWork self.old self.new }
        ensures formed { FormedThrough self.old self.new }
    {
        self.fetch(Side::Head, d, r)
    }

    pub fn cdr(&mut self, d: usize, r: usize) -> Result<(), MemoryFault>
        ensures answer { result ≡ (fetch_call Tail self.old d r).answer }
        ensures after { self.new ≡ (fetch_call Tail self.old d r).after }
        ensures bounded { FetchWork self.old self.new }
        ensures formed { FormedThrough self.old self.new }
    {
        self.fetch(Side::Tail, d, r)
    }

    // Puts the word of v into r's cell.
    fn replace(&mut self, side: Side, r: usize, v: usize) -> Result<(), MemoryFault>
        ensures answer { result ≡ (replace_call side self.old r v).answer }
        ensures after { self.new ≡ (replace_call side self.old r v).after }
        ensures bounded { NoWork self.old self.new }
        ensures formed { FormedThrough self.old self.new }
    {
        self.space.admit(&[r, v])?;
        let word = self.space.register(r);
        need_cell(r, word)?;
        self.space
            .put_word(place_of(side, word), self.space.register(v));
        Ok(())
    }

    pub fn rplaca(&mut self, r: usize, v: usize) -> Result<(), MemoryFault>
        ensures answer { result ≡ (replace_call Head self.old r v).answer }
        ensures after { self.new ≡ (replace_call Head self.old r v).after }
        ensures bounded { NoWork self.old self.new }
        ensures formed { FormedThrough self.old self.new }
    {
        self.replace(Side::Head, r, v)
    }

    pub fn rplacd(&mut self, r: usize, v: usize) -> Result<(), MemoryFault>
        ensures answer { result ≡ (replace_call Tail self.old r v).answer }
        ensures after { self.new ≡ (replace_call Tail self.old r v).after }
        ensures bounded { NoWork self.old self.new }
        ensures formed { FormedThrough self.old self.new }
    {
        self.replace(Side::Tail, r, v)
    }
}
