// The console's refusals.
ghost use Rattle.answer.specs.Refused.{console_report, fault_text};
ghost use Rattle.answer.specs.declared.faults.ConsoleFault.TheVariants as fault;
ghost use Rattle.std.specs.Prelude.{◌≡◌, Some};

use fault::{Layer, Refusal, Report};
use machine::faults::MemoryFault;
use std::fmt;
use words::misread::Misread;

#[derive(Clone, Copy, PartialEq, Eq, Debug)]
pub enum ConsoleFault {
    // the column of the first word not understood, missing or left over, or where a line grows too long
    Column(usize),
    // the memory's own refusal
    Memory(MemoryFault),
}

// By hand: clauses name the fault that comes of it, and a derived conversion tells them nothing.
impl From<MemoryFault> for ConsoleFault {
    ghost from_gives = { λ m f. f ≡ fault.Memory m };

    fn from(whole: MemoryFault) -> ConsoleFault {
        ConsoleFault::Memory(whole)
    }
}

impl From<Misread> for ConsoleFault {
    ghost from_gives = { λ m f. f ≡ fault.Column m.column };

    fn from(misread: Misread) -> ConsoleFault {
        ConsoleFault::Column(misread.column)
    }
}

impl Refusal for ConsoleFault {
    ghost told = { console_report };

    fn report(self) -> Report {
        match self {
            ConsoleFault::Column(column) => Report {
                number: 16,
                layer: Layer::Console,
                place: column,
            },
            ConsoleFault::Memory(m) => {
                let inner = m.report();
                Report {
                    number: inner.number,
                    layer: Layer::Console,
                    place: inner.place,
                }
            }
        }
    }
}

// Only a line that is not understood names its place.
impl fmt::Display for ConsoleFault {
    ghost output = { λ f. Some (fault_text f) };

    fn fmt<W: fmt::Write>(&self, f: &mut fmt::Formatter<W>) -> fmt::Result {
        let number = self.report().number;
        match self {
            ConsoleFault::Column(column) => write!(f, "refused {number} {column}"),
            ConsoleFault::Memory(_) => write!(f, "refused {number}"),
        }
    }
}
