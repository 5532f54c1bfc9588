// Openings over the largest and the smallest stores, and a list that outgrows its limit.
#[cfg(test)]
mod tests {
    use atom::axis::AxisWord;
    use atom::count::Count;
    use fault::Refusal;
    use machine::faults::MemoryFault;
    use memory::memory::ListMemory;
    use std::test::Fail;
    use store::bank::BankStore;
    use store::bytes::ByteStore;
    use write_back::WriteBack;

    // The number of a refusal, or 0: the worked values are told as such numbers.
    fn number(answer: Result<(), MemoryFault>) -> u32 {
        match answer {
            Ok(()) => 0,
            Err(fault) => fault.report().number,
        }
    }

    // The outcome of opening over the first bytes.
    fn opening(bytes: &mut [u8], count: usize, pace: usize, limit: usize) -> u32 {
        let most = count.min(bytes.len());
        let mut memory: ListMemory<ByteStore, Count> = ListMemory::new(ByteStore::new(
            &mut bytes[0..most],
        ));
        let answer = memory.open(pace, limit, 1);
        number(answer)
    }

    // The greatest and the first too large store, and the smallest ones.
    #[test]
    fn sizes(rt: HostRuntime) -> Result<(), Fail> {
        let mut bytes = vec![in rt.alloc(); 0u8; 65_552]?;
        let all = bytes.as_mut_slice();
        assert_eq!(rt;
            opening(&mut *all, 65_551, 1, 1),
            0,
            "16,387 words and three bytes"
        );
        assert_eq!(rt; opening(&mut *all, 65_552, 1, 1), 3, "16,388 words");
        assert_eq!(rt; opening(&mut *all, 48, 1, 1), 0, "12 words");
        assert_eq!(rt; opening(&mut *all, 47, 1, 1), 3, "11 words and three bytes");
        assert_eq!(rt; opening(&mut *all, 64, 2, 2), 0, "16 words");
        assert_eq!(rt; opening(&mut *all, 48, 2, 2), 5, "12 words, pace 2");
        Ok(())
    }

    // A limit near 2^64 is refused and overflows nothing.
    #[test]
    fn limits(rt: HostRuntime) -> Result<(), Fail> {
        let mut bytes = vec![in rt.alloc(); 0u8; 64]?;
        let all = bytes.as_mut_slice();
        assert_eq!(rt; opening(&mut *all, 64, 1, usize::MAX), 5);
        assert_eq!(rt; opening(&mut *all, 64, usize::MAX, 1), 4);
        assert_eq!(rt; opening(&mut *all, 64, 0, 1), 4);
        assert_eq!(rt; opening(&mut *all, 64, 64, 0), 5);
        Ok(())
    }

    // A list that outgrows the limit, over a pile of two layers.
    #[test]
    fn pushes(rt: HostRuntime) {
        let mut even = [7; 8];
        let mut odd = [9; 9];
        let banks = BankStore::new(&mut even, &mut odd);
        let mut memory = ListMemory::new(WriteBack::new(WriteBack::new(banks)));
        let shut = memory.cons(1, 0, 99);
        let opened = memory.open(1, 1, 1);
        let set = memory.set(0, AxisWord::T(3));
        // ten pushes, and one once the list was let go: eleven in one array, as the worked run is told
        let mut numbers = [0; 11];
        for n in numbers.iter_mut().take(10) {
            *n = number(memory.cons(1, 0, 1));
        }
        let cleared = memory.clear(1);
        numbers[10] = number(memory.cons(1, 0, 1));
        let _ = memory.finish().settle().settle();
        assert_eq!(rt; number(shut), 1);
        assert_eq!(rt; number(opened), 0);
        assert_eq!(rt; number(set), 0);
        assert_eq!(rt; number(cleared), 0);
        assert!(rt; numbers == [0, 0, 0, 0, 9, 10, 9, 9, 9, 10, 0]);
    }
}
