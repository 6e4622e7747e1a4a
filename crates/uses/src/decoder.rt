//! A player of sound in three threads. The owner of an arena lends blocks, by the `Inlet` of remote.rt. A decoder fills each with samples, while
//! the owner lends others and takes played ones back. A callback plays the samples where they lie and drops the block. No lock is held, and no
//! sample is copied.
use crate::remote::Inlet;
use anyhow::Error;
use rtrb::{Consumer, Producer, RingBuffer};
use std::alloc::Global;
use std::marker::Sync;
use std::sync::Wait;
use std::thread::{Threads, join, yield_now};
use tlsf_pool_arena::{FilledRemoteBlock, RemoteArena, RemoteBlock, open_slots};

/// How many frames are played: of 256 samples each, six of them under way at once.
const FRAMES: u32 = 300;

type Room<'a> = RemoteBlock<'a, 64>;

type Frame<'a> = FilledRemoteBlock<'a, 64>;

/// Lends room for all frames, and ends once all were played and came home. Answers how many did.
pub fn lend<'a, R: Wait>(rt: &R, mut inlet: Inlet<'a>, mut to: Producer<Room<'a>>) -> u32 {
    let mut lent = 0;
    let mut home = 0u32;
    for _ in rt.forever() {
        if home >= FRAMES {
            break;
        }
        home = home.saturating_add(inlet.settle());
        if lent < FRAMES
            && !to.is_full()
            && let Ok(room) = inlet.take_in(256)
        {
            let _ = to.push(room);
            lent += 1;
        }
        yield_now();
    }
    home
}

/// Decodes frames, each into the room that was lent for it, and sends them on. Ends once no more room is lent.
pub fn decode<'a, R: Wait>(rt: &R, mut from: Consumer<Room<'a>>, mut to: Producer<Frame<'a>>) {
    for _ in rt.forever() {
        let over = from.is_abandoned();
        if let Ok(room) = from.pop() {
            let mut frame = room.fill(0);
            for (at, sample) in frame.block.as_mut_slice().iter_mut().enumerate() {
                *sample = [1, 2, 3, 4][at / 64 % 4];
            }
            let _ = to.push(frame);
        } else if over {
            break;
        }
        yield_now();
    }
}

/// Plays frames where they lie: the callback's part. Answers the sum of their samples, once no more are sent.
pub fn play<R: Wait>(rt: &R, mut from: Consumer<Frame>) -> u64 {
    let mut sum = 0u64;
    for _ in rt.forever() {
        let over = from.is_abandoned();
        if let Ok(frame) = from.pop() {
            for sample in frame.block.as_slice() {
                sum = sum.saturating_add(u64::from(*sample));
            }
        } else if over {
            break;
        }
        yield_now();
    }
    sum
}

/// Runs the three threads. Tells the sum of what was played, and how many blocks came home.
pub fn run<R: Threads + Wait + Sync>(rt: &R, alloc: Global) -> Result<(u64, u32), Error> {
    let (slots, ends) = open_slots(alloc, 6)?;
    let arena = RemoteArena::<4, 64>::open(alloc, ends, 0, 6, 256)?;
    let inlet = Inlet::new(arena, &slots);
    let (rooms, lent) = RingBuffer::new(alloc, 6)?;
    let (frames, decoded) = RingBuffer::new(alloc, 6)?;
    let decodes = move || decode(rt, lent, frames);
    let beside = move || join(rt, decodes, move || play(rt, decoded)).1;
    Ok(join(rt, beside, move || lend(rt, inlet, rooms)))
}

#[test]
fn all_frames_are_played_in_place(rt: HostRuntime) -> Result<(), Error> {
    // 300 frames of 64 * (1 + 2 + 3 + 4)
    assert_eq!(rt; run(&rt, rt.alloc())?, (192_000, FRAMES));
    Ok(())
}
