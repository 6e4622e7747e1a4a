//! A heap behind a lock. Any thread that has a reference to it may call it, and may read or release what another thread allocated.
//! Whoever has the guard has the heap. `lock` waits; no call on the guard does, or takes memory.
use anyhow::Error;
use std::alloc::Global;
use std::marker::Sync;
use std::sync::Wait;
use std::thread::{Threads, join};
use tlsf_crew::LockedHeap;
use tlsf_heap::{Name, Refusal};

/// How many messages each thread passes on.
const MESSAGES: u8 = 100;

/// Allocates a block for a message, writes it, and reads it back, under one guard: no other thread comes between.
pub fn pass_on<R: Wait>(rt: &R, heap: &LockedHeap<4>, message: u8) -> Result<Name, Refusal> {
    let mut guard = heap.lock(rt);
    let name = guard.allocate(64)?;
    guard.write(name, 60, &[message])?;
    Ok(name)
}

/// Reads a message back and releases its block. Answers whether it was the message that was written.
pub fn take_back<R: Wait>(
    rt: &R,
    heap: &LockedHeap<4>,
    name: Name,
    message: u8,
) -> Result<bool, Refusal> {
    let mut guard = heap.lock(rt);
    let mut out = [0];
    guard.read(name, 60, &mut out)?;
    guard.release(name)?;
    Ok(out[0] == message)
}

/// Passes on all messages, one after another. Between a message's two calls the other thread may have the heap.
pub fn pass_all<R: Wait>(rt: &R, heap: &LockedHeap<4>) -> Result<bool, Refusal> {
    let mut all = true;
    for message in 0..MESSAGES {
        let name = pass_on(rt, heap, message)?;
        all = take_back(rt, heap, name, message)? && all;
    }
    Ok(all)
}

/// Two threads share one heap. Tells whether each message came back, and what the heap counted.
pub fn share<R: Threads + Wait + Sync>(rt: &R, alloc: Global) -> Result<String, Error> {
    let heap = LockedHeap::<4>::new(alloc, 0, 64, 0)?;
    let (first, second) = join(rt, || pass_all(rt, &heap), || pass_all(rt, &heap));
    let both = first? && second?;
    let mut guard = heap.lock(rt);
    let (grants, returns) = (guard.grants(), guard.returns());
    let live = guard.report().live_blocks;
    drop(guard);
    Ok(format!(in alloc;
        "each message came back: {both}\n{grants} grants, {returns} returns, {live} live blocks"
    )?)
}

#[test]
fn each_message_comes_back(rt: HostRuntime) -> Result<(), Error> {
    assert_eq!(rt;
        share(&rt, rt.alloc())?.as_str(),
        "each message came back: true\n200 grants, 200 returns, 0 live blocks"
    );
    Ok(())
}
