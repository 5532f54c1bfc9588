// Runs of feed, with counts and with axis words.
#[cfg(test)]
mod tests {
    use atom::axis::AxisWord;
    use atom::count::Count;
    use atom::kind::Atom;
    use machine::faults::MemoryFault;
    use machine::sight::Sight;
    use memory::memory::ListMemory;
    use std::test::Fail;
    use store::bank::BankStore;
    use store::bytes::ByteStore;
    use store::words::Store;

    // Puts the list of the atoms into register 0, by way of register 1.
    fn put_list<S: Store, A: Atom>(
        memory: &mut ListMemory<S, A>,
        atoms: &[A],
    ) -> Result<(), MemoryFault> {
        memory.clear(0)?;
        for atom in atoms.iter().rev() {
            memory.set(1, *atom)?;
            memory.cons(0, 1, 0)?;
        }
        Ok(())
    }

    // A memory over two banks, with the list of two words in register 0.
    fn over_banks<'a>(
        even: &'a mut [u32],
        odd: &'a mut [u32],
    ) -> Result<ListMemory<BankStore<'a>, AxisWord>, MemoryFault> {
        let mut memory = ListMemory::new(BankStore::new(even, odd));
        memory.open(1, 4, 1)?;
        put_list(&mut memory, &[AxisWord::X(1500), AxisWord::T(3)])?;
        Ok(memory)
    }

    #[test]
    fn feed_of_counts(rt: HostRuntime) -> Result<(), Fail> {
        let mut bytes = [0; 256];
        let mut memory: ListMemory<ByteStore, Count> = ListMemory::new(ByteStore::new(&mut bytes));
        memory.open(1, 2, 7)?;
        put_list(&mut memory, &[Count { value: 5 }, Count { value: -6 }])?;
        let mut buffer = [Count { value: 0 }; 3];
        let whole = memory.feed(0, 3, &mut buffer);
        let again = memory.feed(0, 3, &mut buffer);
        assert_eq!(rt; (whole, again), (Ok((2, true)), Ok((2, true))));
        assert_eq!(rt;
            buffer,
            [Count { value: 5 }, Count { value: -6 }, Count { value: 0 }]
        );
        Ok(())
    }

    #[test]
    fn feed_of_axis_words(rt: HostRuntime) -> Result<(), Fail> {
        let mut even = [0; 32];
        let mut odd = [0; 32];
        let mut memory = over_banks(&mut even, &mut odd)?;
        let mut none = [];
        assert_eq!(rt; memory.feed(0, 0, &mut none), Ok((0, false)));
        assert_eq!(rt; memory.feed(1, 0, &mut none), Ok((0, false)));
        assert_eq!(rt; memory.feed(2, 0, &mut none), Ok((0, true)));
        let mut one = [AxisWord::D(9)];
        assert_eq!(rt; memory.feed(0, 0, &mut one), Ok((1, false)));
        assert_eq!(rt; one, [AxisWord::X(1500)]);
        let mut two = [AxisWord::D(9); 2];
        assert_eq!(rt; memory.feed(0, 0, &mut two), Ok((2, true)));
        assert_eq!(rt; two, [AxisWord::X(1500), AxisWord::T(3)]);
        assert_eq!(rt; memory.feed(0, 8, &mut two), Err(MemoryFault::NoHold(8)));
        assert_eq!(rt;
            memory.feed(16, 8, &mut two),
            Err(MemoryFault::NoRegister(16))
        );
        Ok(())
    }

    #[test]
    fn feed_stops_at_what_it_cannot_take(rt: HostRuntime) -> Result<(), Fail> {
        let mut even = [0; 32];
        let mut odd = [0; 32];
        let mut memory = over_banks(&mut even, &mut odd)?;
        memory.cons(2, 0, 0)?;
        memory.cons(2, 1, 2)?;
        memory.cons(3, 1, 1)?;
        let mut buffer = [AxisWord::D(9); 3];
        assert_eq!(rt;
            memory.feed(2, 0, &mut buffer),
            Err(MemoryFault::NotAtom(1))
        );
        assert_eq!(rt; buffer, [AxisWord::X(1500), AxisWord::D(9), AxisWord::D(9)]);
        assert_eq!(rt;
            memory.feed(3, 0, &mut buffer),
            Err(MemoryFault::NotCell(1))
        );
        assert_eq!(rt;
            memory.feed(1, 0, &mut buffer),
            Err(MemoryFault::NotCell(0))
        );
        assert_eq!(rt; memory.look(3)?, Sight::Cell);
        Ok(())
    }
}
