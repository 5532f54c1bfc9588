// Runs of hold and back. A token is never let go, so each helper that has one takes it to a back that is surely granted.
ghost use Rattle.std.specs.Prelude.{◌≡◌, ◌<◌, true, is_some};
ghost use Rattle.machine.specs.Holds.{hold_at};

#[cfg(test)]
mod tests {
    use atom::count::Count;
    use atom::kind::Atom;
    use hold_uses::held::restore;
    use machine::faults::MemoryFault;
    use machine::sight::Sight;
    use memory::memory::ListMemory;
    use memory::token::Kept;
    use std::test::Fail;
    use store::bytes::ByteStore;
    use store::words::Store;

    // Holds r at p, clears r and gives the word back to d, however the clearing went.
    fn set_aside<S: Store, A: Atom>(
        memory: &mut ListMemory<S, A>,
        r: usize,
        p: usize,
        d: usize,
    ) -> Result<(), MemoryFault>
        requires { d < 16 }
    {
        let token = memory.hold(r, p)?;
        let cleared = memory.clear(r);
        restore(memory, d, token);
        cleared
    }

    // What a hold of a taken place is refused with.
    fn hold_taken<S: Store, A: Atom>(
        memory: &mut ListMemory<S, A>,
        r: usize,
        p: usize,
    ) -> MemoryFault
        requires { is_some (hold_at memory.old p) ≡ true }
        ensures { memory.new ≡ memory.old }
    {
        match memory.hold(r, p) {
            Ok(_) => unreachable(),
            Err(fault) => fault,
        }
    }

    // Holds r at p, and there again.
    fn hold_again<S: Store, A: Atom>(
        memory: &mut ListMemory<S, A>,
        r: usize,
        p: usize,
    ) -> Result<MemoryFault, MemoryFault> {
        let token = memory.hold(r, p)?;
        let fault = hold_taken(memory, r, p);
        restore(memory, r, token);
        Ok(fault)
    }

    // Offers the token of r's hold at p to another memory first.
    fn hold_and_offer<S: Store, A: Atom>(
        memory: &mut ListMemory<S, A>,
        other: &mut ListMemory<S, A>,
        r: usize,
        p: usize,
    ) -> Result<(), MemoryFault> {
        let token = memory.hold(r, p)?;
        match other.back(r, token) {
            Ok(()) => Ok(()),
            Err(Kept { fault, token }) => {
                restore(memory, r, token);
                Err(fault)
            }
        }
    }

    #[test]
    fn held_words_come_back(rt: HostRuntime) -> Result<(), Fail> {
        let mut bytes = [0; 64];
        let mut memory: ListMemory<ByteStore, Count> = ListMemory::new(ByteStore::new(&mut bytes));
        assert_eq!(rt; set_aside(&mut memory, 16, 9, 1), Err(MemoryFault::Shut));
        memory.open(1, 1, 7)?;
        memory.set(0, Count { value: 5 })?;
        set_aside(&mut memory, 0, 7, 1)?;
        assert_eq!(rt; memory.look(0)?, Sight::Nil);
        assert_eq!(rt; memory.look(1)?, Sight::Atom(Count { value: 5 }));
        assert_eq!(rt; hold_again(&mut memory, 0, 7)?, MemoryFault::HoldTaken(7));
        set_aside(&mut memory, 0, 7, 1)?;
        assert_eq!(rt; memory.look(1)?, Sight::Nil);
        assert_eq!(rt;
            set_aside(&mut memory, 16, 8, 1),
            Err(MemoryFault::NoRegister(16))
        );
        assert_eq!(rt;
            set_aside(&mut memory, 0, 8, 1),
            Err(MemoryFault::NoHold(8))
        );
        Ok(())
    }

    #[test]
    fn tokens_know_their_memory(rt: HostRuntime) -> Result<(), Fail> {
        let mut bytes = [0; 64];
        let mut others = [0; 64];
        let mut memory: ListMemory<ByteStore, Count> = ListMemory::new(ByteStore::new(&mut bytes));
        let mut other: ListMemory<ByteStore, Count> = ListMemory::new(ByteStore::new(&mut others));
        memory.open(1, 1, 7)?;
        assert_eq!(rt;
            hold_and_offer(&mut memory, &mut other, 0, 3),
            Err(MemoryFault::Shut)
        );
        other.open(1, 1, 8)?;
        assert_eq!(rt;
            hold_and_offer(&mut memory, &mut other, 0, 3),
            Err(MemoryFault::NotHeld(3))
        );
        assert_eq!(rt;
            hold_and_offer(&mut memory, &mut other, 0, 3),
            Err(MemoryFault::NotHeld(3))
        );
        Ok(())
    }
}
