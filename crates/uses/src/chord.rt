//! The chords of an organ, under a contract of the organ's own. Where enough pipes are free a chord sounds whole, and memory is
//! never the reason why a note stays silent. Each note has a bounded cost.
ghost use Rattle.std.specs.Prelude.{◌≡◌, ◌+◌, ◌*◌, ◌≤◌, length, OnOk, IsErrOf};
ghost use Rattle.tlsf_pool.specs.pools.Bounds.{SameBounds};

use anyhow::Error;
use std::alloc::Global;
use tlsf_pool::{Pool, PoolCalls, PoolRefusal};

/// How many pipes sound at once.
pub const PIPES: u32 = 8;

/// The bytes that each pipe needs.
pub const PIPE_BYTES: u32 = 48;

/// Opens a pipe for each note of a chord, and stores the note there.
pub fn strike(organ: &mut Pool<4>, chord: &[u8]) -> Result<(), PoolRefusal>
    requires free { organ.old.ledger.held + length chord.now ≤ organ.old.ledger.most }
    requires long { organ.old.ledger.longest ≡ PIPE_BYTES }
    ensures whole { OnOk result (organ.new.ledger.held ≡ organ.old.ledger.held + length chord.now) }
    ensures bounds { SameBounds organ.old.ledger organ.new.ledger }
    ensures never_full { ¬ (IsErrOf result PoolRefusal.Full) }
    ensures never_too_long { ¬ (IsErrOf result PoolRefusal.TooLong) }
    ensures touches { organ.new.touches ≤ organ.old.touches + 43 * length chord.now }
{
    for note in chord {
        let pipe = organ.allocate(PIPE_BYTES)?;
        let _ = organ.write(pipe, 0, &[*note]);
    }
    Ok(())
}

/// Strikes two chords, and tells how many pipes sound then.
pub fn play(alloc: Global) -> Result<u32, Error> {
    let mut organ = Pool::<4>::open(alloc, 0, PIPES, PIPE_BYTES, 0)?;
    strike(&mut organ, &[60, 64, 67])?;
    strike(&mut organ, &[48, 55, 72, 76, 79])?;
    Ok(organ.held())
}

#[test]
fn all_pipes_sound(rt: HostRuntime) -> Result<(), Error> {
    assert_eq!(rt; play(rt.alloc())?, PIPES);
    Ok(())
}
