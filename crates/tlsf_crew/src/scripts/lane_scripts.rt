//! Facts about the calls of a script over lanes.
ghost use Rattle.std.specs.Prelude.{◌+◌};
ghost use Rattle.tlsf_crew.specs.scripts.LaneMoves.{LaneStepped, lane_promise};

use crate::scripts::room::count_from;
use crate::scripts::scripted::Scripted;
use crate::worker::lanes::Lanes;

impl<R> Scripted<R> for Lanes {
    ghost promise = { lane_promise };

    ghost steps = { λ sli n s call made t reply. LaneStepped n s call made t reply };

    /// Those that are ready in a lane, and one for each release of its poster's script.
    fn limits(&self, releases: &[u32; 8]) -> [u64; 8] {
        let mut limits = [0; 8];
        for i in 0..8 {
            limits[i] = count_from(self, i) as u64 + releases[i] as u64;
        }
        limits
    }

    fn laws() {}
}
