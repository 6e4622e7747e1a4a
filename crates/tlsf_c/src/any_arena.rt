//! The content of an arena's handle.
ghost use Rattle.std.specs.Prelude.{◌≡◌, Some};
ghost use Rattle.tlsf_c.specs.Arenas.{is_arena_idle, arena_with_idle, is_offsets, is_pools};

use crate::any_offsets::AnyOffsets;
use crate::any_pools::AnyPools;

/// An arena of offsets, or pools, and whether no call is using it: the note lies beside the kind, as that of an end does.
#[derive(Drop)]
pub enum AnyArena {
    Offsets { is_idle: bool, owned: AnyOffsets },
    Pools { is_idle: bool, owned: AnyPools },
}

impl AnyArena {
    /// Whether no call is using it.
    #[inline(always)]
    pub fn is_idle(&self) -> bool
        ensures { result ≡ is_arena_idle (Some self.now) }
    {
        match self {
            AnyArena::Offsets { is_idle, .. } | AnyArena::Pools { is_idle, .. } => *is_idle,
        }
    }

    /// Notes whether no call is using it.
    pub fn set_idle(&mut self, idle: bool)
        ensures { Some self.new ≡ arena_with_idle idle (Some self.old) }
    {
        match self {
            AnyArena::Offsets { is_idle, .. } => *is_idle = idle,
            AnyArena::Pools { is_idle, .. } => *is_idle = idle,
        }
    }

    /// Whether it is an arena of offsets.
    pub fn is_offsets(&self) -> bool
        ensures { result ≡ is_offsets (Some self.now) }
    {
        matches!(self, AnyArena::Offsets { .. })
    }

    /// Whether it is pools.
    pub fn is_pools(&self) -> bool
        ensures { result ≡ is_pools (Some self.now) }
    {
        matches!(self, AnyArena::Pools { .. })
    }
}
