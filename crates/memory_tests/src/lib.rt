// Tests of the memory over the least pmap that no trace can make: the limit of calls, which is above what a file can hold. The
// other refusals are tested by traces, in crates/replay_checks.

#![tactic(auto)]

#[cfg(test)]
mod tests {
    use calls::Call;
    use minimal::table::Minimal;
    use refusal::memory::MemoryRefusal;
    use runs::run::run;
    use std::test::Fail;

    // A million calls are taken and counted, refused ones too; a further one gets 5 and is not counted.
    #[test]
    fn a_million_calls_are_taken(rt: HostRuntime) -> Result<(), Fail> {
        let heap = rt.alloc();
        let calls = vec![in heap; Call::Sync { object: 8 }; 1_000_001]?;
        let Ok(ran) = run(heap, Minimal::new(), 1, &calls) else {
            return Err(Fail::new("no memory was made"));
        };
        let range = ran
            .replies
            .iter()
            .filter(|reply| **reply == Err(MemoryRefusal::Range))
            .count();
        let limit = ran
            .replies
            .iter()
            .filter(|reply| **reply == Err(MemoryRefusal::CallLimit))
            .count();
        assert_eq!(rt; range, 1_000_000);
        assert_eq!(rt; limit, 1);
        let counts = ran.memory.counts();
        assert_eq!(rt; counts.calls, 1_000_000);
        assert_eq!(rt; counts.refused, 1_000_000);
        Ok(())
    }
}
