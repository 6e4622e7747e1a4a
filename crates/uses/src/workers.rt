//! Two workers in threads of their own. The first makes frames in blocks of its heap and hands their names over a
//! ring. The second shows each and then releases it: its name is posted to its owner, who drains the posts.
//!
//! What is a block in another worker's hands good for? Its bytes are its owner's to read and write. But who has the name says when
//! it is given back, and nobody gets its place before. So a name lends space. Its place may number a part of something that both
//! threads reach in other ways, as a device's memory, a file or a shared buffer.
use anyhow::{Error, bail};
use rtrb::{Consumer, Producer, RingBuffer};
use std::alloc::Global;
use std::marker::Sync;
use std::sync::Wait;
use std::thread::{Threads, join, yield_now};
use tlsf_crew::{Worker, open_yard};
use tlsf_heap::Name;

/// How many frames are made.
const FRAMES: u32 = 500;

/// Makes all frames, and ends once their blocks came back. Answers how many words of its heap are free then.
pub fn make<R: Wait>(rt: &R, mut worker: Worker<4>, mut ring: Producer<Name>) -> u32 {
    let mut made = 0;
    let mut back = 0;
    for _ in rt.forever() {
        if back >= FRAMES {
            break;
        }
        // At most four posts at once: a bound on the touches that it makes.
        back += worker.drain(4).freed;
        // An allocate is refused while too many frames are under way, and goes well once some came back.
        if made < FRAMES
            && !ring.is_full()
            && let Ok(frame) = worker.allocate(256)
        {
            let _ = ring.push(frame);
            made += 1;
        }
        yield_now();
    }
    worker.report().free_words
}

/// Shows all frames, and gives each back. Answers how many.
pub fn show<R: Wait>(rt: &R, mut worker: Worker<4>, mut ring: Consumer<Name>) -> u32 {
    let mut shown = 0;
    for _ in rt.forever() {
        if shown >= FRAMES {
            break;
        }
        if let Ok(frame) = ring.pop() {
            give_back(rt, &mut worker, frame);
            shown += 1;
        }
        yield_now();
    }
    shown
}

/// Posts a name to its owner. Where the lane is full, the name is posted again a little later.
pub fn give_back<R: Wait>(rt: &R, worker: &mut Worker<4>, name: Name) {
    for _ in rt.forever() {
        if worker.release(name).is_ok() {
            return;
        }
        yield_now();
    }
}

/// Runs both workers. Tells how many frames were shown, and how many words are free then.
pub fn run<R: Threads + Wait + Sync>(rt: &R, alloc: Global) -> Result<(u32, u32), Error> {
    let (to, from) = RingBuffer::new(alloc, 4)?;
    let mut workers = open_yard::<4>(alloc, 2, 1024, 8)?;
    let (Some(two), Some(one)) = (workers.pop(), workers.pop()) else {
        bail!("the yard has two workers");
    };
    let (free, shown) = join(rt, move || make(rt, one, to), move || show(rt, two, from));
    Ok((shown, free))
}

#[test]
fn all_frames_are_shown(rt: HostRuntime) -> Result<(), Error> {
    assert_eq!(rt; run(&rt, rt.alloc())?, (FRAMES, 1024));
    Ok(())
}
