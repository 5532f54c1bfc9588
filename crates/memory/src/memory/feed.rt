// Feed: the atoms of a list, written to the first places of a lent buffer.
ghost use Rattle.std.specs.Prelude.{◌≡◌, ◌<◌, length};
ghost use Rattle.machine.specs.Feed.{feed_call, walk};
ghost use Rattle.machine.specs.Holds.{back_call};
ghost use Rattle.memory.specs.Steps.{next_call, past, SameHolds};
ghost use Rattle.memory.specs.Tokens.{Held, pass_of};
ghost use Rattle.semispace.specs.Formed.{FormedThrough};

use super::ListMemory;
use super::cells::need_cell;
use crate::token::Token;
use atom::kind::Atom;
use machine::faults::MemoryFault;
use machine::side::Side;
use semispace::cells::{NIL, place_of};
use store::words::Store;

impl<S: Store, A: Atom> ListMemory<S, A> {
    // The next atom of the list in r, or none at its end. A refusal names how many went before.
    fn next(&mut self, r: usize, n: usize) -> Result<Option<A>, MemoryFault>
        ensures answer { result ≡ (next_call A.meant self.old r n).answer }
        ensures after { self.new ≡ (next_call A.meant self.old r n).after }
    {
        let word = self.space.register(r);
        if word == NIL {
            return Ok(None);
        }
        need_cell(n, word)?;
        let head = self.space.move_at(place_of(Side::Head, word));
        match A::read(head) {
            Some(atom) => {
                let tail = self.space.move_at(place_of(Side::Tail, word));
                self.space.set_register(r, tail);
                Ok(Some(atom))
            }
            None => Err(MemoryFault::NotAtom(n)),
        }
    }

    // Fills the buffer until the list in r ends or the buffer is full: a pair of count and end flag, the fixed form of a feed's answer.
    fn walk(&mut self, r: usize, buffer: &mut [A]) -> Result<(usize, bool), MemoryFault>
        ensures answer { result ≡ (walk A.meant r (length buffer.old) 0 self.old buffer.old).answer }
        ensures after { self.new ≡ (walk A.meant r (length buffer.old) 0 self.old buffer.old).after }
        ensures buffer { buffer.new ≡ (walk A.meant r (length buffer.old) 0 self.old buffer.old).buffer }
        ensures holds { SameHolds self.old self.new }
    {
        for (n, place) in buffer.iter_mut().enumerate() {
            match self.next(r, n)? {
                Some(atom) => *place = atom,
                None => return Ok((n, true)),
            }
        }
        Ok((buffer.len(), self.space.register(r) == NIL))
    }

    // Gives back to r what was held: a back that is not refused. Callers have the like in a crate above, since no public call here asks anything of them.
    fn restore(&mut self, r: usize, token: Token)
        requires { (r < 16) × (Held self.old token) }
        ensures after { self.new ≡ (back_call self.old r (pass_of token)).after }
        ensures formed { FormedThrough self.old self.new }
    {
        match self.back(r, token) {
            Ok(()) => (),
            Err(_) => unreachable(),
        }
    }

    // The list's register is held while it walks, and given back however the walk went.
    pub fn feed(
        &mut self,
        r: usize,
        p: usize,
        buffer: &mut [A],
    ) -> Result<(usize, bool), MemoryFault>
        ensures answer { result ≡ (feed_call A.meant self.old r p buffer.old).answer }
        ensures after { self.new ≡ (feed_call A.meant self.old r p buffer.old).after }
        ensures buffer { buffer.new ≡ (feed_call A.meant self.old r p buffer.old).buffer }
        ensures formed { FormedThrough self.old self.new }
    {
        let token = self.hold(r, p)?;
        let answer = self.walk(r, buffer);
        self.restore(r, token);
        answer
    }
}
