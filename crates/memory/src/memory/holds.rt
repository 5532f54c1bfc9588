// Hold and back: a word set aside at a hold place, against a token.
ghost use Rattle.machine.specs.Holds.{hold_call, back_call, may_hold, held_for};
ghost use Rattle.machine.specs.Work.{NoWork};
ghost use Rattle.memory.specs.Tokens.{Held, Unspent, pass_of, passed, kept};
ghost use Rattle.semispace.specs.Formed.{FormedThrough};
ghost use Rattle.std.specs.Prelude.{◌≡◌, IfOk};

use super::ListMemory;
use crate::token::{Kept, Token};
use atom::kind::Atom;
use machine::faults::MemoryFault;
use store::words::Store;

impl<S: Store, A: Atom> ListMemory<S, A> {
    // Whether a place is there and free.
    fn check_hold(&self, p: usize) -> Result<(), MemoryFault>
        ensures { result ≡ may_hold self.now p }
    {
        if p >= 8 {
            return Err(MemoryFault::NoHold(p));
        }
        match self.space.hold_at(p) {
            Some(_) => Err(MemoryFault::HoldTaken(p)),
            None => Ok(()),
        }
    }

    pub fn hold(&mut self, r: usize, p: usize) -> Result<Token, MemoryFault>
        ensures answer { passed result ≡ (hold_call self.old r p).answer }
        ensures unspent { Unspent result }
        ensures held { IfOk result (λ token. Held self.new token) }
        ensures after { self.new ≡ (hold_call self.old r p).after }
        ensures bounded { NoWork self.old self.new }
        ensures formed { FormedThrough self.old self.new }
    {
        self.space.admit(&[r])?;
        self.check_hold(p)?;
        self.space.set_hold(p, Some(self.space.register(r)));
        Ok(Token::new(self.space.number(), p))
    }

    // The word that a token's place is taken with, unless the token is another memory's.
    fn held(&self, token: &Token) -> Option<u32>
        ensures { result ≡ held_for self.now (pass_of token.now) }
    {
        if token.number() != self.space.number() {
            return None;
        }
        self.space.hold_at(token.place())
    }

    pub fn back(&mut self, d: usize, token: Token) -> Result<(), Kept>
        ensures answer { result ≡ kept token (back_call self.old d (pass_of token)).answer }
        ensures after { self.new ≡ (back_call self.old d (pass_of token)).after }
        ensures bounded { NoWork self.old self.new }
        ensures formed { FormedThrough self.old self.new }
    {
        // no closure: it would take the token along where the call goes on
        if let Err(fault) = self.space.admit(&[d]) {
            return Err(Kept { fault, token });
        }
        match self.held(&token) {
            Some(word) => {
                self.space.set_hold(token.place(), None);
                self.space.set_register(d, word);
                token.spend();
                Ok(())
            }
            None => Err(Kept {
                fault: MemoryFault::NotHeld(token.place()),
                token,
            }),
        }
    }
}
