// What is read off the marks, and the marks that follow each step.
ghost use Rattle.std.specs.Prelude.{◌≡◌, ◌+◌, ◌<◌, ◌≤◌, nat_lt};
ghost use Rattle.machine.specs.Heap.{empty_marks, used, scan_over, raise_scanned, raise_copied, lower_top};
ghost use Rattle.machine.specs.Machine.{room};

use super::Marks;
use machine::faults::MemoryFault;

impl Marks {
    // The marks of a half with nothing in it.
    pub(crate) fn empty(size: usize, prior: usize) -> Marks
        requires { size ≤ 4096 }
        ensures { result ≡ empty_marks size prior }
    {
        Marks {
            scanned: 0,
            copied: 0,
            top: size,
            prior,
            size,
        }
    }

    pub(crate) fn used(self) -> usize
        ensures { result ≡ used self }
    {
        self.copied + (self.size - self.top)
    }

    pub(crate) fn scan_over(self) -> bool
        ensures { result ≡ scan_over self }
    {
        self.scanned == self.copied
    }

    // Whether a copy finds a free cell.
    pub(crate) fn has_room(self) -> bool
        ensures { result ≡ nat_lt self.copied self.top }
    {
        self.copied < self.top
    }

    // Whether a cons may have a cell, or which refusal it gets.
    pub fn room(self) -> Result<(), MemoryFault>
        ensures { result ≡ room self }
    {
        if self.scan_over() {
            if self.has_room() {
                Ok(())
            } else {
                Err(MemoryFault::Full)
            }
        } else if self.prior < self.top {
            Ok(())
        } else {
            Err(MemoryFault::Scanning)
        }
    }

    // Three steps and no common one: each moves another mark by one, as far as another bound.
    // One cell more was scanned.
    pub(crate) fn scanned_one(self) -> Marks
        ensures { result ≡ raise_scanned self }
    {
        if self.scan_over() {
            return self;
        }
        Marks {
            scanned: self.scanned + 1,
            ..self
        }
    }

    // One cell more was copied.
    pub(crate) fn copied_one(self) -> Marks
        ensures { result ≡ raise_copied self }
    {
        if !self.has_room() {
            return self;
        }
        Marks {
            copied: self.copied + 1,
            ..self
        }
    }

    // One cell more was allocated.
    pub(crate) fn allocated_one(self) -> Marks
        ensures { result ≡ lower_top self }
    {
        if !self.has_room() {
            return self;
        }
        Marks {
            top: self.top - 1,
            ..self
        }
    }
}
