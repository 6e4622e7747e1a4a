//! The voices of a synthesizer in a pool. A pool is opened by the most blocks that are held at once and the longest request, and
//! never refuses one for want of room. Whatever keys are struck, only a voice too many is refused.
use anyhow::Error;
use std::alloc::Global;
use tlsf_heap::Name;
use tlsf_pool::{Pool, PoolCalls};

/// How many voices sound at once, and the bytes of each.
const VOICES: u32 = 3;

const VOICE_BYTES: u32 = 48;

/// The signal of a keyboard: a note and how hard it is struck. With no force the note is let go, as in MIDI.
const SCORE: [[u8; 2]; 7] = [
    [60, 90],
    [64, 80],
    [67, 85],
    [72, 99],
    [64, 0],
    [64, 0],
    [48, 70],
];

/// A voice that sounds: its note, and the name of its block.
#[derive(Clone, Copy)]
pub struct Voice {
    pub note: u8,
    pub block: Name,
}

/// Starts a voice in a block of its own, whose bytes are zero until it writes them.
pub fn start(pool: &mut Pool<4>, note: u8, force: u8) -> Result<Voice, Error> {
    let block = pool.allocate(VOICE_BYTES)?;
    pool.write(block, 0, &[note, force])?;
    Ok(Voice { note, block })
}

/// Lets a note go. Answers whether it sounded.
pub fn stop(pool: &mut Pool<4>, voices: &mut Vec<Voice>, note: u8) -> Result<bool, Error> {
    for at in 0..voices.len() {
        if voices[at].note == note {
            pool.release(voices.remove(at).block)?;
            return Ok(true);
        }
    }
    Ok(false)
}

/// Plays the score. Tells which key changes nothing.
fn play(pool: &mut Pool<4>, voices: &mut Vec<Voice>, told: &mut String) -> Result<(), Error> {
    for key in &SCORE {
        let [note, force] = *key;
        if force > 0 {
            match start(pool, note, force) {
                Ok(voice) => voices.push(voice)?,
                Err(why) => writeln!(told, "{note} does not sound: {why}")?,
            }
        } else if !stop(pool, voices, note)? {
            writeln!(told, "{note} sounds no more")?;
        }
    }
    Ok(())
}

/// Plays the score. Tells which key changes nothing, and what sounds at the end, as the pool's blocks have it.
pub fn play_score(alloc: Global) -> Result<String, Error> {
    let mut pool = Pool::<4>::open(alloc, 0, VOICES, VOICE_BYTES, 0)?;
    let mut voices: Vec<Voice> = Vec::new(alloc);
    let mut told = String::new(alloc);
    play(&mut pool, &mut voices, &mut told)?;
    for voice in &voices {
        let mut state = [0; 2];
        pool.read(voice.block, 0, &mut state)?;
        let [note, force] = state;
        writeln!(
            told,
            "{note} sounds, force {force}, at word {}",
            voice.block.at
        )?;
    }
    let report = pool.report();
    let (sounding, free) = (report.live_blocks, report.free_words);
    writeln!(told, "{sounding} of {VOICES} voices, {free} words free")?;
    Ok(told)
}

#[test]
fn only_a_voice_too_many_is_refused(rt: HostRuntime) -> Result<(), Error> {
    assert_eq!(rt;
        play_score(rt.alloc())?.as_str(),
        "72 does not sound: as many blocks are held as may be\n\
         64 sounds no more\n\
         60 sounds, force 90, at word 0\n\
         67 sounds, force 85, at word 18\n\
         48 sounds, force 70, at word 9\n\
         3 of 3 voices, 0 words free\n"
    );
    Ok(())
}
