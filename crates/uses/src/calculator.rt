//! A program in the heaps to which a recording of it leads. `examples/calculator.trace` has the calls that `bc` made of `malloc` as it
//! computed 2^30. This line writes their table:
//!
//! ```text
//! ./tlsf replay --kinds --heaps 8 < examples/calculator.trace
//! ```
//!
//! `Pools` opens a heap for each part of the table, as `tlsf size --split` divides it, and refuses no call within it, in whatever order they
//! come. It has 7,630 words, where one plain heap for all nine kinds takes 142,462.
use crate::calculator_calls::{CALLS, Call, TABLE};
use anyhow::Error;
use std::alloc::Global;
use tlsf_heap::Name;
use tlsf_pool::Pools;

/// Makes the calls. The first that is refused ends it. Tells how many blocks were given, and the words of all heaps.
pub fn compute(alloc: Global) -> Result<String, Error> {
    let mut pools = Pools::<4>::open(alloc, 0, &TABLE, 0)?;
    let mut blocks: Vec<Name> = Vec::new(alloc);
    for call in &CALLS {
        match *call {
            Call::Ask(count, len) => {
                for _ in 0..count {
                    blocks.push(pools.allocate(len)?)?;
                }
            }
            Call::Free(number) => {
                if let Some(block) = blocks.get(number) {
                    pools.release(*block)?;
                }
            }
        }
    }
    let mut words = 0u64;
    let mut heaps = 0;
    for part in 0..8 {
        if let Some(report) = pools.report(part) {
            heaps = part + 1;
            words = words
                .saturating_add(u64::from(report.live_words))
                .saturating_add(u64::from(report.free_words));
        }
    }
    let given = blocks.len();
    Ok(format!(in alloc; "{given} blocks in {heaps} heaps of {words} words")?)
}

#[test]
fn no_call_of_a_recorded_program_is_refused(rt: HostRuntime) -> Result<(), Error> {
    assert_eq!(rt;
        compute(rt.alloc())?.as_str(),
        "70 blocks in 8 heaps of 7630 words"
    );
    Ok(())
}
