//! Collections on a bounded heap. All of them take their memory from one arena, which takes none later;
//! what doesn't fit is an error, and what is dropped goes back.
#![tactic(auto)]

use anyhow::Error;
use std::alloc::AllocError;
use std::collections::BTreeMap;
use tlsf_arena::DefaultArena;

/// 8 KiB, in units of 16 bytes.
const UNITS: u32 = 512;

/// An echo of a number of samples: each one that comes out is added to the one that goes in.
#[derive(Drop)]
struct Echo<'a> {
    name: String<&'a DefaultArena>,
    line: Vec<f32, &'a DefaultArena>,
    at: usize,
}

impl<'a> Echo<'a> {
    fn new(memory: &'a DefaultArena, name: &str, samples: usize) -> Result<Echo<'a>, AllocError> {
        Ok(Echo {
            name: String::from_str(memory, name)?,
            line: Vec::from_elem(memory, 0.0, samples)?,
            at: 0,
        })
    }
}

/// Holds a box, a map, a vector and an echo at once. At the end all of them go back.
fn play(rt: &impl Print, memory: &DefaultArena) -> Result<(), Error> {
    let pitch = Box::new(memory, 440u64)?;
    let mut notes = BTreeMap::new(memory);
    notes.insert(60u8, *pitch)?;
    let mut samples: Vec<f32, &DefaultArena> = Vec::with_capacity(memory, 256)?;
    samples.push(0.5)?;
    let echo = Echo::new(memory, "hall", 256)?;
    let fits = Echo::new(memory, "valley", 4096).is_ok();
    println!(rt;
        "{}: {} samples from {}, {} units free\nroom for a valley: {fits}",
        echo.name,
        echo.line.len(),
        echo.at,
        memory.free_units()
    )?;
    Ok(())
}

fn main(rt: HostRuntime) -> Result<(), Error> {
    let memory = DefaultArena::open(rt.alloc(), 0, UNITS)?;
    play(&rt, &memory)?;
    println!(rt; "{} units free", memory.free_units())?;
    Ok(())
}
