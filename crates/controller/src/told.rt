// What was done, in plain words.
ghost use Rattle.controller.specs.Told.{outcome_text};
ghost use Rattle.std.specs.Iterator.{IsFinite};
ghost use Rattle.std.specs.Prelude.{Some};

use crate::lists::fed::Fed;
use atom::axis::AxisWord;
use atom::count::Count;
use machine::faults::MemoryFault;
use std::{fmt, io};

// What came of building a list.
#[derive(Clone, Copy)]
pub struct Outcome(pub Result<(), MemoryFault>);

impl fmt::Display for Outcome {
    ghost output = { λ outcome. Some (outcome_text outcome.0) };

    fn fmt<W: fmt::Write>(&self, f: &mut fmt::Formatter<W>) -> fmt::Result {
        f.write_str(match self.0 {
            Ok(()) => "built",
            Err(MemoryFault::Full) => "refused, the memory is full",
            Err(MemoryFault::Scanning) => "refused, the memory is still scanning",
            Err(_) => "refused",
        })
    }
}

// A name, and what follows it, one by one.
fn tell_each<T: fmt::Display + Drop, I: Iterator<Item = T> + Drop>(
    rt: &HostRuntime,
    name: &str,
    shown: I,
) -> io::Result<()>
    requires can { I.can_next shown }
    requires ends { IsFinite (I.remaining shown) }
{
    print!(rt; "  {name}:")?;
    for item in shown {
        print!(rt; " {item}")?;
    }
    Ok(())
}

pub(crate) fn tell_moves(rt: &HostRuntime, name: &str, fed: &Fed<AxisWord>) -> io::Result<()> {
    tell_each(rt, name, fed.atoms().iter())?;
    println!(rt; " ({} words, {})", fed.atoms().len(), fed.ending())
}

pub(crate) fn tell_tally(rt: &HostRuntime, fed: &Fed<Count>) -> io::Result<()> {
    tell_each(rt, "passes, words and depth so far", fed.atoms().iter())?;
    println!(rt; " ({})", fed.ending())
}
