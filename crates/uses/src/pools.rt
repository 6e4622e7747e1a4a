//! The messages of a gateway in a heap for a table of kinds: many short ones, and a few long ones. Each kind has its own count, so
//! short messages never take the room of long ones. Only a message too many of its kind is refused.
use anyhow::Error;
use std::alloc::Global;
use tlsf_heap::Name;
use tlsf_pool::{Kind, TablePool, TablePoolCalls};

/// Four readings of up to 16 bytes at once, and one picture of up to 400.
const TABLE: [Kind; 2] = [Kind { most: 4, len: 16 }, Kind { most: 1, len: 400 }];

/// The input: a message of a number of bytes, or that the oldest was sent on.
enum Event {
    In(u32),
    Out,
}

const EVENTS: [Event; 9] = [
    Event::In(12),
    Event::In(400),
    Event::In(16),
    Event::In(320),
    Event::Out,
    Event::Out,
    Event::In(17),
    Event::In(401),
    Event::In(3),
];

/// Puts a message into a block of its own, with a mark in front.
pub fn take_in(pool: &mut TablePool<4>, len: u32) -> Result<Name, Error> {
    let block = pool.allocate(len)?;
    pool.write(block, 0, &[0x21])?;
    Ok(block)
}

/// Serves the events in turn. Tells which message is refused and why, and how many wait at the end.
pub fn serve(alloc: Global) -> Result<String, Error> {
    let mut pool = TablePool::<4>::open(alloc, 0, &TABLE, 0)?;
    let mut queue: Vec<Name> = Vec::new(alloc);
    let mut told = String::new(alloc);
    for event in &EVENTS {
        match *event {
            Event::In(len) => match take_in(&mut pool, len) {
                Ok(block) => queue.push(block)?,
                Err(why) => writeln!(told, "{len} bytes: {why}")?,
            },
            Event::Out => {
                if !queue.is_empty() {
                    pool.release(queue.remove(0))?;
                }
            }
        }
    }
    writeln!(
        told,
        "{} short and {} long wait",
        pool.held(0),
        pool.held(1)
    )?;
    Ok(told)
}

#[test]
fn each_kind_has_its_own_count(rt: HostRuntime) -> Result<(), Error> {
    assert_eq!(rt;
        serve(rt.alloc())?.as_str(),
        "320 bytes: as many blocks are held as may be\n\
         401 bytes: the request is longer than the pool serves\n\
         2 short and 1 long wait\n"
    );
    Ok(())
}
