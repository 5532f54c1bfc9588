// Runs of the stores, alone and in piles.
#![tactic(auto)]

#[cfg(test)]
mod tests {
    use fault::{Layer, Refusal};
    use std::test::Fail;
    use store::bank::BankStore;
    use store::bytes::ByteStore;
    use store::faults::StoreFault;
    use store::words::Store;
    use write_back::WriteBack;

    #[test]
    fn banks_take_turns(rt: HostRuntime) -> Result<(), Fail> {
        let mut even = [1, 3];
        let mut odd = [2, 4, 6];
        let mut bank = BankStore::new(&mut even, &mut odd);
        assert_eq!(rt; bank.size(), 4);
        assert_eq!(rt; bank.read(1)?, 2);
        assert_eq!(rt; bank.read(2)?, 3);
        bank.write(2, 9)?;
        bank.write(3, 8)?;
        assert_eq!(rt; even, [1, 9]);
        assert_eq!(rt; odd, [2, 8, 6]);
        Ok(())
    }

    #[test]
    fn past_the_end_is_refused(rt: HostRuntime) {
        let mut even = [1];
        let mut odd = [];
        let mut bank = BankStore::new(&mut even, &mut odd);
        assert_eq!(rt; bank.size(), 0);
        assert_eq!(rt; bank.read(0), Err(StoreFault::Outside(0)));
        assert_eq!(rt; bank.write(5, 7), Err(StoreFault::Outside(5)));
        let report = StoreFault::Outside(5).report();
        assert_eq!(rt; report.number, 14);
        assert_eq!(rt; report.layer, Layer::Store);
        assert_eq!(rt; report.place, 5);
    }

    #[test]
    fn bytes_are_most_significant_first(rt: HostRuntime) -> Result<(), Fail> {
        let mut bytes = [0x12, 0x34, 0x56, 0x78, 0, 0, 0, 1, 7, 7];
        let mut store = ByteStore::new(&mut bytes);
        assert_eq!(rt; store.size(), 2);
        assert_eq!(rt; store.read(0)?, 0x1234_5678);
        store.write(1, 0x0a0b_0c0d)?;
        assert_eq!(rt; store.write(2, 0), Err(StoreFault::Outside(2)));
        assert_eq!(rt; bytes, [0x12, 0x34, 0x56, 0x78, 10, 11, 12, 13, 7, 7]);
        Ok(())
    }

    #[test]
    fn a_layer_sends_down_late(rt: HostRuntime) -> Result<(), Fail> {
        let mut bytes = [0; 40];
        let mut layer = WriteBack::new(ByteStore::new(&mut bytes));
        let first = layer.write(1, 11);
        let other = layer.write(9, 99);
        let outside = layer.write(10, 5);
        let read = (layer.read(1), layer.read(9), layer.read(2));
        let below = layer.settle();
        assert_eq!(rt;
            (first, other, outside),
            (Ok(()), Ok(()), Err(StoreFault::Outside(10)))
        );
        assert_eq!(rt; read, (Ok(11), Ok(99), Ok(0)));
        assert_eq!(rt; below.read(1)?, 11);
        assert_eq!(rt; below.read(9)?, 99);
        Ok(())
    }

    fn write_two<S: Store>(store: &mut S) -> Result<u32, StoreFault> {
        store.write(3, 5)?;
        store.write(11, 6)?;
        store.read(3)
    }

    #[test]
    fn a_pile_of_layers_is_a_store(rt: HostRuntime) -> Result<(), Fail> {
        let mut even = [0; 8];
        let mut odd = [0; 8];
        let mut pile = WriteBack::new(WriteBack::new(BankStore::new(&mut even, &mut odd)));
        let read = write_two(&mut pile);
        let bank = pile.settle().settle();
        assert_eq!(rt; read, Ok(5));
        assert_eq!(rt; bank.read(11)?, 6);
        Ok(())
    }
}
