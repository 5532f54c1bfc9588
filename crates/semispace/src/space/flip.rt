// The flip: the halves trade places, and every root is moved.
ghost use Rattle.std.specs.Prelude.{◌≡◌, ◌+◌, ◌-◌, ◌<◌, ◌≤◌};
ghost use Rattle.machine.specs.Heap.{Heap, Step, along, move, move_hold};
ghost use Rattle.machine.specs.Machine.{flip, flip_due, flip_if_due, flip_line, move_holds, move_registers, with_heap};

use super::Semispace;
use crate::terms::conses_to_scan;
use store::words::Store;

// What a walk begins from, as it lies in its array: a register's word, or a hold place.
pub(crate) trait Root: Copy {
    // what a flip makes of it
    ghost moved: { Heap → Self → Step Self };

    fn move_in<S: Store>(self, space: &mut Semispace<S>) -> Self
        ensures answer { result ≡ (moved space.old.heap self).value }
        ensures after { space.new ≡ with_heap space.old (moved space.old.heap self).after };
}

impl Root for u32 {
    ghost moved = { move };

    fn move_in<S: Store>(self, space: &mut Semispace<S>) -> u32 {
        space.move_word(self)
    }
}

// A taken hold's word is moved, a free hold stays free.
impl Root for Option<u32> {
    ghost moved = { move_hold };

    fn move_in<S: Store>(self, space: &mut Semispace<S>) -> Option<u32> {
        match self {
            Some(word) => Some(space.move_word(word)),
            None => None,
        }
    }
}

impl<S: Store> Semispace<S> {
    // Each in turn, and put back in its place.
    fn move_each<R: Root>(&mut self, roots: &mut [R])
        ensures answer { roots.new ≡ (along R.moved self.old.heap roots.old).value }
        ensures after { self.new ≡ with_heap self.old (along R.moved self.old.heap roots.old).after }
    {
        for root in roots.iter_mut() {
            *root = root.move_in(self);
        }
    }

    // Each array is copied out and put back, since moving its elements takes the whole memory.
    fn move_registers(&mut self)
        ensures { self.new ≡ move_registers self.old }
    {
        let mut registers = self.state.roots.registers;
        self.move_each(&mut registers);
        self.state.roots.registers = registers;
    }

    fn move_holds(&mut self)
        ensures { self.new ≡ move_holds self.old }
    {
        let mut holds = self.state.roots.holds;
        self.move_each(&mut holds);
        self.state.roots.holds = holds;
    }

    fn flip(&mut self)
        ensures { self.new ≡ flip self.old }
    {
        self.trade();
        self.move_registers();
        self.move_holds();
    }

    // How many used cells make a flip due.
    fn flip_line(&self) -> usize
        ensures { result ≡ flip_line self.now }
    {
        let terms = self.state.terms;
        let reserve = conses_to_scan(terms.limit, terms.pace);
        self.state.marks.size.saturating_sub(reserve)
    }

    fn flip_due(&self) -> bool
        ensures { result ≡ flip_due self.now }
    {
        self.scan_over() && self.state.marks.used() >= self.flip_line()
    }

    pub(super) fn flip_if_due(&mut self)
        ensures { self.new ≡ flip_if_due self.old }
    {
        if self.flip_due() {
            self.flip();
        }
    }
}
