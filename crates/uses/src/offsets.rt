//! The buffers of a scene in the memory of a graphics card, which this program never touches. It knows offsets and sizes, and the
//! card has the bytes.
use anyhow::Error;
use std::alloc::Global;
use tlsf_offsets::OffsetArena;

/// The card's memory: 4,096 pages of 64 KiB.
const PAGE: u32 = 65_536;

const PAGES: u32 = 4_096;

/// Makes the buffers of a scene, and releases one of them. Tells where they lie, and what is used then.
pub fn run(memory: &mut OffsetArena<4>, told: &mut String) -> Result<(), Error> {
    let vertices = memory.allocate(3_000_000)?;
    let texture = memory.allocate(16_777_216)?;
    let small = memory.allocate(4_096)?;

    // The scene gets more lights: the buffer grows where it lies.
    let lights = memory.resize(small.name, 500_000)?;
    for (label, span) in &[
        ("vertices", vertices),
        ("texture", texture),
        ("lights", lights),
    ] {
        writeln!(told, "{label} at {}, {} bytes", span.offset, span.size)?;
    }

    // A name that was released is stale, whatever lies there by then.
    memory.release(texture.name)?;
    if let Err(why) = memory.release(texture.name) {
        writeln!(told, "texture: {why}")?;
    }
    let usage = memory.usage();
    writeln!(
        told,
        "{} buffers, {} bytes; {} free, {} of them in one piece",
        usage.spans, usage.held, usage.free, usage.largest
    )?;
    Ok(())
}

/// Runs a scene in the card's memory.
pub fn scene(alloc: Global) -> Result<String, Error> {
    let mut memory = OffsetArena::<4>::open(alloc, 0, PAGE, PAGES)?;
    let mut told = String::new(alloc);
    run(&mut memory, &mut told)?;
    Ok(told)
}

#[test]
fn buffers_lie_apart(rt: HostRuntime) -> Result<(), Error> {
    assert_eq!(rt;
        scene(rt.alloc())?.as_str(),
        "vertices at 0, 3014656 bytes\n\
         texture at 3014656, 16777216 bytes\n\
         lights at 19791872, 524288 bytes\n\
         texture: no live block has that name\n\
         2 buffers, 3538944 bytes; 264896512 free, 248119296 of them in one piece\n"
    );
    Ok(())
}
