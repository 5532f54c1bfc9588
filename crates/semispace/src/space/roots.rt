// The registers and the hold places, read and written by number. One that is not there reads as nil or free, and is not written.
ghost use Rattle.machine.specs.Calls.{admitted, known};
ghost use Rattle.machine.specs.Holds.{hold_at, with_hold};
ghost use Rattle.machine.specs.Machine.{register, with_register};
ghost use Rattle.semispace.specs.Formed.{Formed, FormedThrough};
ghost use Rattle.std.specs.Prelude.{◌≡◌, length};

use super::Semispace;
use crate::cells::NIL;
use machine::faults::MemoryFault;
use store::words::Store;

const REGISTERS: usize = 16;

const HOLDS: usize = 8;

// The first register above 15 is refused.
fn check_registers(registers: &[usize]) -> Result<(), MemoryFault>
    ensures { result ≡ known registers.now }
{
    match registers.iter().find(|r| **r >= REGISTERS) {
        Some(r) => Err(MemoryFault::NoRegister(*r)),
        None => Ok(()),
    }
}

impl<S: Store> Semispace<S> {
    // Whether the memory is open and has all these registers.
    pub fn admit(&self, registers: &[usize]) -> Result<(), MemoryFault>
        ensures answer { result ≡ admitted self.now registers.now }
        ensures formed { Formed self.now }
    {
        self.formed();
        if !self.state.opened {
            return Err(MemoryFault::Shut);
        }
        check_registers(registers)
    }

    pub fn register(&self, r: usize) -> u32
        ensures { result ≡ register self.now r }
    {
        self.state.roots.registers.get(r).copied().unwrap_or(NIL)
    }

    pub fn set_register(&mut self, d: usize, word: u32)
        ensures after { self.new ≡ with_register self.old d word }
        ensures formed { FormedThrough self.old self.new }
    {
        self.formed();
        if d < REGISTERS {
            self.state.roots.registers[d] = word;
        }
        self.formed();
    }

    pub fn hold_at(&self, p: usize) -> Option<u32>
        ensures { result ≡ hold_at self.now p }
    {
        *self.state.roots.holds.get(p)?
    }

    pub fn set_hold(&mut self, p: usize, hold: Option<u32>)
        ensures after { self.new ≡ with_hold self.old p hold }
        ensures eight { length self.new.roots.holds ≡ 8 }
        ensures formed { FormedThrough self.old self.new }
    {
        self.formed();
        if p < HOLDS {
            self.state.roots.holds[p] = hold;
        }
        self.formed();
    }

    // The number that the memory was opened with.
    pub fn number(&self) -> u32
        ensures { result ≡ self.now.terms.number }
    {
        self.state.terms.number
    }
}
