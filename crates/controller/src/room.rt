// How the conses of a memory were answered.
ghost use Rattle.controller.specs.Rooms.{noted};
ghost use Rattle.controller.specs.Told.{room_text};
ghost use Rattle.std.specs.Prelude.{◌≡◌, Some};

use machine::faults::MemoryFault;
use std::fmt;

// How many conses were granted, and how many refused for room.
#[derive(Clone, Copy)]
pub struct Room {
    pub granted: u32,
    pub refused: u32,
}

impl Room {
    pub(crate) fn new() -> Room
        ensures { result ≡ record { granted = 0; refused = 0 } }
    {
        Room {
            granted: 0,
            refused: 0,
        }
    }

    // Counts the answer of a cons.
    pub(crate) fn note(&mut self, answer: Result<(), MemoryFault>)
        ensures { self.new ≡ noted self.old answer }
    {
        match answer {
            Ok(()) => self.granted = self.granted.saturating_add(1),
            Err(MemoryFault::Scanning | MemoryFault::Full) => {
                self.refused = self.refused.saturating_add(1);
            }
            Err(_) => (),
        }
    }
}

impl fmt::Display for Room {
    ghost output = { λ room. Some (room_text room) };

    fn fmt<W: fmt::Write>(&self, f: &mut fmt::Formatter<W>) -> fmt::Result {
        let Room { granted, refused } = *self;
        write!(f, "{granted} conses granted, {refused} refused for room")
    }
}
