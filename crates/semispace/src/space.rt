// A store with its two halves, and what is kept beside it: in contracts, one machine.
ghost use Rattle.machine.specs.Machine.{shut_machine};
ghost use Rattle.semispace.specs.Formed.{Formed};
ghost use Rattle.semispace.specs.View.{machine_of};
ghost use Rattle.std.specs.Prelude.{◌≡◌};

use super::state::State;
use std::marker::Model;
use store::words::Store;

pub mod collect;
pub mod flip;
pub mod moves;
pub mod open;
pub mod roots;

#[derive(Drop)]
pub struct Semispace<S: Store> {
    store: S,
    state: State,
}

impl<S: Store> Model for Semispace<S> {
    ghost use Rattle.machine.specs.Machine.{Machine};
    ghost use Rattle.semispace.specs.View.{machine_of};

    ghost Value = { Machine };

    ghost view = { λ s. machine_of (S.words s.store) s.state };
}

impl<S: Store> Semispace<S> {
    // A memory that is made and not yet opened.
    pub fn new(store: S) -> Self
        ensures { result ≡ shut_machine (S.words store) }
    {
        Semispace::over(store, State::shut())
    }

    // A state put over a store.
    pub fn over(store: S, state: State) -> Self
        ensures { result ≡ machine_of (S.words store) state }
    {
        Semispace { store, state }
    }

    // What is kept beside the store, as it stands.
    pub fn state(&self) -> State
        ensures { machine_of self.now.heap.words result ≡ self.now }
    {
        self.state
    }

    // What is true of every semispace, whatever was called on it.
    pub fn formed(&self)
        ensures { Formed self.now }
    {
        self.state.formed();
    }

    // The store, as it stands.
    pub fn into_store(self) -> S
        ensures { S.words result ≡ self.heap.words }
    {
        let Semispace { store, state: _ } = self;
        store
    }
}
