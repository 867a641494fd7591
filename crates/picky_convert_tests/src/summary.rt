//! The summary of sample keys, for which nothing is read.

use crate::runs::{End, ended, run_on};
use picky_wire::{MemorySource, Source};
use std::alloc::Global;
use std::mem::ManuallyDrop;
use std::test::Fail;

// How many keys, and the summary.
// bench/sample_digest 1; bench/sample_digest 7
static SUMMARIES: [(&str, &str); 2] = [
    (
        "1",
        "keys 1\ntexts 6\nsha256 9eb68104a470fdfe0ce0d828bc415868f1e8880280040dde3ea018c4220218e7\n",
    ),
    (
        "7",
        "keys 7\ntexts 34\nsha256 d09798efcf0086d505fe33ed20bf67ee7aa00b8e92eae7110e2e1d1b2a3b7483\n",
    ),
];

/// So many keys are summed up, where the first call of the source would fail.
fn sums_up(alloc: Global, keys: &str, summary: &str) -> Result<bool, Fail> {
    let mut source = ManuallyDrop::new(MemorySource::new(alloc, b"", 7, &[0])?);
    let ran = run_on(alloc, &["sample", keys], &mut *source, (999, 999))?;
    let end = End {
        code: 0,
        out: summary.as_bytes(),
        err: "",
    };
    Ok(ended(&ran, end))
}

#[test]
fn sums_up_sample_keys(rt: HostRuntime) -> Result<(), Fail> {
    for (keys, summary) in &SUMMARIES {
        assert!(rt; sums_up(rt.alloc(), keys, summary)?, "{keys} keys");
    }
    Ok(())
}
