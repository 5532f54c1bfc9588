// The refusals of a list memory.
ghost use Rattle.machine.specs.Refusals.{memory_report, of_memory};
ghost use Rattle.machine.specs.declared.faults.MemoryFault.TheVariants as fault;
ghost use Rattle.std.specs.Prelude.{◌≡◌};

use atom::faults::KindFault;
use fault::{Layer, Refusal, Report};

#[derive(Clone, Copy, PartialEq, Eq, Debug)]
pub enum MemoryFault {
    Shut,
    AlreadyOpen,
    // a half has fewer than 3 cells, or more than 4,096
    HalfSize,
    // the pace is not from 1 to 64
    Pace,
    // the limit is 0, or leaves too little room to collect in
    Limit,
    NoRegister(usize),
    // a register that has to refer to a cell does not; in a feed, names how many atoms were written
    NotCell(usize),
    // the atom kind's own refusal
    Kind(KindFault),
    // no room until the scan is over
    Scanning,
    // no room although the scan is over
    Full,
    NoHold(usize),
    HoldTaken(usize),
    // the token is another memory's, or its place is free
    NotHeld(usize),
    // an element of a list to be fed is no atom; names how many were written
    NotAtom(usize),
}

// By hand, as every conversion of a fault that clauses name: a derived one tells them nothing.
impl From<KindFault> for MemoryFault {
    ghost from_gives = { λ k f. f ≡ fault.Kind k };

    fn from(k: KindFault) -> MemoryFault {
        MemoryFault::Kind(k)
    }
}

fn of_memory(number: u32, place: usize) -> Report
    ensures { result ≡ of_memory number place }
{
    Report {
        number,
        layer: Layer::Memory,
        place,
    }
}

impl Refusal for MemoryFault {
    ghost told = { memory_report };

    fn report(self) -> Report {
        match self {
            MemoryFault::Shut => of_memory(1, 0),
            MemoryFault::AlreadyOpen => of_memory(2, 0),
            MemoryFault::HalfSize => of_memory(3, 0),
            MemoryFault::Pace => of_memory(4, 0),
            MemoryFault::Limit => of_memory(5, 0),
            MemoryFault::NoRegister(r) => of_memory(6, r),
            MemoryFault::NotCell(r) => of_memory(7, r),
            MemoryFault::Kind(k) => {
                let inner = k.report();
                of_memory(inner.number, inner.place)
            }
            MemoryFault::Scanning => of_memory(9, 0),
            MemoryFault::Full => of_memory(10, 0),
            MemoryFault::NoHold(p) => of_memory(11, p),
            MemoryFault::HoldTaken(p) => of_memory(12, p),
            MemoryFault::NotHeld(p) => of_memory(13, p),
            MemoryFault::NotAtom(n) => of_memory(15, n),
        }
    }
}
