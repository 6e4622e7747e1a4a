//! A queue of messages between two threads. The first writes each message straight into a block of a bounded arena, with no lock
//! held, and sends it over a ring. The second reads the bytes where they lie, so none is copied, and drops the message. Its block
//! is home then, and serves for a later one.
ghost use Rattle.std.specs.Prelude.{◌≡◌};
ghost use Rattle.tlsf_pool_arena.specs.returns.Ends.{id_of};

use anyhow::Error;
use rtrb::{Consumer, Producer, RingBuffer};
use std::alloc::Global;
use std::marker::Sync;
use std::sync::Wait;
use std::thread::{Threads, join, yield_now};
use tlsf_pool_arena::{FilledRemoteBlock, Parcel, RemoteArena, Slots, open_slots};

/// How many messages are sent: of 256 bytes each, four of them under way at once.
const MESSAGES: u32 = 500;

type Message<'a> = FilledRemoteBlock<'a, 64>;

/// Where messages begin: the arena of their blocks, and the slots by which these come home.
#[derive(Drop)]
pub struct Outlet<'a> {
    arena: RemoteArena<4, 64>,
    slots: &'a Slots<Parcel<64>>,
    ghost own: { arena.slots ≡ id_of slots.now },
}

impl<'a> Outlet<'a> {
    /// A message, each byte of which is the last byte of its number. None while as many are under way as may be.
    pub fn write(&mut self, number: u32) -> Option<Message<'a>> {
        let mut message = self.arena.lend(self.slots, 256).ok()?.fill(0);
        for byte in message.block.as_mut_slice() {
            *byte = (number % 256) as u8;
        }
        Some(message)
    }

    /// Takes the blocks of messages that were dropped back, and answers how many.
    pub fn settle(&mut self) -> u32 {
        self.arena.drain(self.slots)
    }
}

/// Writes and sends all messages, and ends once their blocks came home. Answers how many did.
pub fn send<'a, R: Wait>(rt: &R, mut outlet: Outlet<'a>, mut queue: Producer<Message<'a>>) -> u32 {
    let mut sent = 0;
    let mut home = 0u32;
    for _ in rt.forever() {
        if home >= MESSAGES {
            break;
        }
        home = home.saturating_add(outlet.settle());
        if sent < MESSAGES
            && !queue.is_full()
            && let Some(message) = outlet.write(sent)
        {
            let _ = queue.push(message);
            sent += 1;
        }
        yield_now();
    }
    home
}

/// Reads all messages, each where it lies. Answers the sum of their bytes.
pub fn receive<R: Wait>(rt: &R, mut queue: Consumer<Message>) -> u64 {
    let mut read = 0;
    let mut sum = 0u64;
    for _ in rt.forever() {
        if read >= MESSAGES {
            break;
        }
        if let Ok(message) = queue.pop() {
            for byte in message.block.as_slice() {
                sum = sum.saturating_add(u64::from(*byte));
            }
            read += 1;
        }
        yield_now();
    }
    sum
}

/// Sends all messages from one thread to the other. Tells the sum of the bytes that were read, and how many blocks came home.
pub fn run<R: Threads + Wait + Sync>(rt: &R, alloc: Global) -> Result<(u64, u32), Error> {
    let (slots, owner) = open_slots(alloc, 4)?;
    let arena = RemoteArena::<4, 64>::open(alloc, owner, 0, 4, 256)?;
    let slots = &slots;
    let outlet = Outlet { arena, slots };
    let (to, from) = RingBuffer::new(alloc, 4)?;
    let reads = move || receive(rt, from);
    Ok(join(rt, reads, move || send(rt, outlet, to)))
}

#[test]
fn all_messages_are_read_in_place(rt: HostRuntime) -> Result<(), Error> {
    assert_eq!(rt; run(&rt, rt.alloc())?, (256 * (32_640 + 29_646), MESSAGES));
    Ok(())
}
