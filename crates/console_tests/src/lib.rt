// Whole texts given to the console's session, compared with what it must write.
#![tactic(auto)]

#[cfg(test)]
mod tests {
    use atom::axis::AxisWord;
    use memory::memory::ListMemory;
    use session::session::session;
    use std::process::Abort;
    use std::test::Fail;
    use store::bank::BankStore;

    fn answers(rt: &(impl Abort + AllocGlobal), text: &[u8], expected: &str) -> Result<(), Fail> {
        let mut even = [0; 32];
        let mut odd = [0; 32];
        let mut memory: ListMemory<BankStore, AxisWord> = ListMemory::new(BankStore::new(
            &mut even, &mut odd,
        ));
        let written = session(rt.alloc(), &mut memory, text)?;
        assert!(rt; written.as_str() == expected);
        Ok(())
    }

    #[test]
    fn listing(rt: HostRuntime) -> Result<(), Fail> {
        let text =
            b"open 1 1\nset 0 T3\ncons 1 0 1\nlook 1\ncar 2 1\nsame 0 2\ncar 2 0\nlook 2\nsame 0\n";
        let expected =
            "1 ok\n2 ok\n3 ok\n4 cell\n5 ok\n6 same\n7 refused 7\n8 T3\n9 refused 16 7\n";
        answers(&rt, text, expected)
    }

    // Ends of texts: nothing, an empty line, a last line with and without its end.
    #[test]
    fn ends(rt: HostRuntime) -> Result<(), Fail> {
        answers(&rt, b"", "")?;
        answers(&rt, b"\n", "1 refused 16 1\n")?;
        answers(&rt, b"look 0", "1 refused 1\n")?;
        answers(&rt, b"look 0\n", "1 refused 1\n")?;
        answers(&rt, b"look 0\n\n", "1 refused 1\n2 refused 16 1\n")
    }

    // Bytes that are no part of any command.
    #[test]
    fn odd_bytes(rt: HostRuntime) -> Result<(), Fail> {
        answers(
            &rt,
            b"look 0\r\n\x00\nlook \xff\nlook\t0\n",
            "1 refused 16 6\n2 refused 16 1\n3 refused 16 6\n4 refused 16 1\n",
        )
    }
}
