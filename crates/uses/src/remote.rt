//! Packets in the memory of a bounded arena. The owner lends each packet room as it comes in. Other threads send the packets and
//! drop them, with no wait and no refusal. The owner's drain then has the room again. While fewer packets are under way than may
//! be, none lacks room.
ghost use Rattle.std.specs.Prelude.{◌≡◌};
ghost use Rattle.tlsf_pool_arena.specs.returns.Ends.{id_of};

use anyhow::Error;
use std::alloc::Global;
use std::thread::{Threads, join};
use tlsf_pool_arena::{Parcel, PoolRefusal, RemoteArena, RemoteBlock, Slots, open_slots};

/// How many packets are under way at once, and the bytes of the longest.
const PACKETS: u32 = 3;

const LONGEST: u32 = 1_500;

/// The packets that come in, burst by burst, by their bytes.
const BURSTS: [[u32; 4]; 3] = [
    [60, 1_500, 576, 40],
    [1_500, 1_501, 1_500, 1_500],
    [40, 52, 40, 60],
];

type Packet<'a> = RemoteBlock<'a, 64>;

/// Where packets come in: the arena and the slots by which its blocks come home.
#[derive(Drop)]
pub struct Inlet<'a> {
    packets: RemoteArena<4, 64>,
    slots: &'a Slots<Parcel<64>>,
    ghost own: { packets.slots ≡ id_of slots.now },
}

impl<'a> Inlet<'a> {
    /// An inlet to an arena, with the slots by which its blocks come home.
    pub fn new(packets: RemoteArena<4, 64>, slots: &'a Slots<Parcel<64>>) -> Inlet<'a>
        requires own { packets.slots ≡ id_of slots.now }
    {
        Inlet { packets, slots }
    }

    /// A block for a packet of `len` bytes, which any thread may drop.
    pub fn take_in(&mut self, len: u32) -> Result<Packet<'a>, PoolRefusal> {
        self.packets.lend(self.slots, len)
    }

    /// How many packets were sent since the last time: their room is free again.
    pub fn settle(&mut self) -> u32 {
        self.packets.drain(self.slots)
    }
}

/// Two threads send what came in. Each packet is dropped by the thread that sent it.
pub fn send(rt: &impl Threads, first: Vec<Packet>, second: Vec<Packet>) {
    join(rt, move || drop(first), move || drop(second));
}

/// Sends all bursts. Tells which packets are refused and why, and how many of each burst were sent.
pub fn send_all(rt: &impl Threads, alloc: Global) -> Result<String, Error> {
    let (slots, owner) = open_slots(alloc, PACKETS as usize)?;
    let packets = RemoteArena::<4, 64>::open(alloc, owner, 0, PACKETS, LONGEST)?;
    let mut inlet = Inlet::new(packets, &slots);
    let mut told = String::new(alloc);
    for burst in &BURSTS {
        let mut long: Vec<Packet> = Vec::new(alloc);
        let mut short: Vec<Packet> = Vec::new(alloc);
        for len in burst {
            match inlet.take_in(*len) {
                Ok(packet) if *len > 576 => long.push(packet)?,
                Ok(packet) => short.push(packet)?,
                Err(why) => writeln!(told, "{len} bytes: {why}")?,
            }
        }
        send(rt, long, short);
        writeln!(told, "{} packets sent", inlet.settle())?;
    }
    Ok(told)
}

#[test]
fn sent_packets_make_room(rt: HostRuntime) -> Result<(), Error> {
    assert_eq!(rt;
        send_all(&rt, rt.alloc())?.as_str(),
        "40 bytes: as many blocks are held as may be\n\
         3 packets sent\n\
         1501 bytes: the request is longer than the pool serves\n\
         3 packets sent\n\
         60 bytes: as many blocks are held as may be\n\
         3 packets sent\n"
    );
    Ok(())
}
