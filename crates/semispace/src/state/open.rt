// How a state begins: shut, and then opened over the halves of a store.
ghost use Rattle.std.specs.Prelude.{◌≡◌, ℕ, ◌+◌, ◌*◌, ◌≤◌, [], OnOk};
ghost use Rattle.machine.specs.Calls.{half_of, may_open, open_call, well_paced};
ghost use Rattle.machine.specs.Machine.{ceiling, fresh_machine, shut_machine};
ghost use Rattle.machine.specs.Work.{NoWork};
ghost use Rattle.semispace.specs.Formed.{FormedThrough};
ghost use Rattle.semispace.specs.View.{machine_of};

use super::State;
use crate::half::Half;
use crate::marks::Marks;
use crate::roots::Roots;
use crate::terms::{Terms, conses_to_scan};
use machine::faults::MemoryFault;
use store::words::Store;

// The limit is above 0 and leaves room for what is allocated while the cells in reach are copied.
fn check_limit(size: usize, pace: usize, limit: usize) -> Result<(), MemoryFault>
    requires { (size ≤ 4096) × ((1 ≤ pace) × (pace ≤ 64)) }
    ensures answer { result ≡ well_paced size pace limit }
    ensures few { OnOk result (limit ≤ 4096) }
{
    // a limit above the size is told first, so that the sum stays small
    if limit == 0 || limit > size || limit + 2 * conses_to_scan(limit, pace) > size {
        return Err(MemoryFault::Limit);
    }
    Ok(())
}

impl State {
    // The state of a memory that is made and not yet opened.
    pub fn shut() -> State
        ensures { machine_of [] result ≡ shut_machine [] }
    {
        State {
            half: Half::Lower,
            marks: Marks::empty(0, 0),
            roots: Roots::empty(),
            terms: Terms {
                pace: 1,
                limit: 0,
                number: 0,
            },
            opened: false,
        }
    }

    // Opens over the two halves of a store, which is not written.
    pub fn open<S: Store>(
        &mut self,
        store: &S,
        pace: usize,
        limit: usize,
        number: u32,
    ) -> Result<(), MemoryFault>
        ensures answer { result ≡ (open_call (machine_of (S.words store.now) self.old) pace limit number).answer }
        ensures after { machine_of (S.words store.now) self.new ≡ (open_call (machine_of (S.words store.now) self.old) pace limit number).after }
        ensures bounded { NoWork (machine_of (S.words store.now) self.old) (machine_of (S.words store.now) self.new) }
        ensures formed { FormedThrough (machine_of (S.words store.now) self.old) (machine_of (S.words store.now) self.new) }
    {
        self.formed();
        if self.opened {
            return Err(MemoryFault::AlreadyOpen);
        }
        let size = store.size() / 4;
        if size < 3 || size > 4096 {
            return Err(MemoryFault::HalfSize);
        }
        if pace == 0 || pace > 64 {
            return Err(MemoryFault::Pace);
        }
        check_limit(size, pace, limit)?;
        *self = State {
            half: Half::Lower,
            marks: Marks::empty(size, 0),
            roots: Roots::empty(),
            terms: Terms {
                pace,
                limit,
                number,
            },
            opened: true,
        };
        self.formed();
        Ok(())
    }
}
