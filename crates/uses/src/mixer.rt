//! The collections of a mixer in memory that was counted beforehand. At most a number of blocks are held at once, of at most a
//! number of bytes each. An arena of `mixed_units` units has room for them, in whatever order they come and go. No voice, sample or
//! note lacks room.
use anyhow::{Error, bail};
use std::alloc::{AllocError, Global};
use std::collections::BTreeMap;
use tlsf_arena::DefaultArena;
use tlsf_pool_arena::mixed_units;

/// The most that a piece has: voices in boxes, samples in a line that grows by pushes, and notes in a map.
const VOICES: u32 = 4;

const SAMPLES: u32 = 1_024;

const NOTES: u32 = 50;

/// The blocks that it holds at once: a box per voice and their list, those of the map, the line, one while it grows.
pub const MOST: u32 = (VOICES + 1) + (1 + (NOTES - 1) / 7) + 1 + 1;

/// The longest of them is the line, with 4 bytes for each sample.
pub const LONGEST: u32 = 4 * SAMPLES;

/// A voice that sounds: its note, and how loud each of its partials is.
#[derive(Drop)]
pub struct Voice {
    pub note: u32,
    pub partials: [f32; 16],
}

/// Plays a piece, and answers how many units are free where all is held. At the end all of it goes back.
pub fn play(memory: &DefaultArena, piece: u32) -> Result<u32, AllocError> {
    let mut voices = Vec::with_capacity(memory, VOICES as usize)?;
    let mut notes = BTreeMap::new(memory);
    let mut line: Vec<f32, &DefaultArena> = Vec::new(memory);
    for note in 0..VOICES {
        let partials = [0.5; 16];
        voices.push(Box::new(memory, Voice { note, partials })?)?;
    }
    for note in 0..NOTES {
        notes.insert(u64::from(note), u64::from(piece))?;
    }
    for _ in 0..SAMPLES {
        line.push(0.25)?;
    }
    Ok(memory.free_units())
}

/// Plays three pieces. Tells how many units there are, how many each piece spares, and how many are free at the end.
pub fn play_three(alloc: Global) -> Result<(u32, [u32; 3], u32), Error> {
    let Some(units) = mixed_units::<4, 16>(MOST, LONGEST) else {
        bail!("no arena has so many units");
    };
    let memory = DefaultArena::open(alloc, 0, units)?;
    let spare = [play(&memory, 1)?, play(&memory, 2)?, play(&memory, 3)?];
    Ok((units, spare, memory.free_units()))
}

#[test]
fn no_piece_lacks_room(rt: HostRuntime) -> Result<(), Error> {
    assert_eq!(rt; (MOST, LONGEST), (15, 4_096));
    assert_eq!(rt; play_three(rt.alloc())?, (7_452, [7_052; 3], 7_452));
    Ok(())
}
