//! Pools whose level is told when they are opened.
ghost use Rattle.std.specs.Prelude.{◌≡◌, ◌+◌, ◌≤◌, ◌^◌, ◌↔◌, true, None, Some, length, IfOk, IfErr, IfSome, IsErrOf};
ghost use Rattle.tlsf_pool.specs.sizes.Rising.{HasNoHeaps};
ghost use Rattle.tlsf_c.specs.PoolCalls.{AreNewPools, AllocatesInPools, ReleasesInPools, WritesInPools, ReadsInPools, ReportsInPools, ChecksInPools, LooksInPools};
ghost use Rattle.tlsf_pool.specs.pools.Parts.{counts_at, part_at, table_of};
ghost use Rattle.tlsf_pool.specs.pools.Tables as tables;
ghost use Rattle.tlsf_c.specs.Arenas.{is_arena_idle, is_pools, pools_of};
ghost use Rattle.tlsf_c.specs.Levels.{IsLevel};
ghost use Rattle.tlsf_c.specs.PoolLevels.{AtLevel};

use crate::any_arena::AnyArena;
use crate::at_level::at_level;
use std::alloc::Global;
use std::marker::Model;
use tlsf_heap::{Checked, Name, OpenFault, PlacedBlock, Refusal, Report};
use tlsf_pool::{Kind, PoolRefusal, Pools, RowCounts};

/// Pools of one of the two levels.
#[derive(Drop)]
pub enum PoolsOfLevel {
    Four(Pools<4>),
    Five(Pools<5>),
}

/// Pools whose level, 4 or 5, is told when they are opened. Contracts see them as their level and what they show.
#[derive(Drop)]
pub struct AnyPools {
    of_level: PoolsOfLevel,
}

impl Model for AnyPools {
    ghost use Rattle.tlsf_c.specs.PoolLevels.{LevelPools};

    ghost Value = { LevelPools };

    ghost use Rattle.tlsf_c.specs.PoolsOf.{pools_shown};

    ghost view = { λ a. pools_shown a.of_level };
}

impl AnyPools {
    /// Opens the pools of a level, 4 or 5, for a table: their heaps have the numbers from `id` on.
    pub fn open(alloc: Global, level: u32, id: u32, kinds: &[Kind]) -> Result<AnyPools, OpenFault>
        requires level { IsLevel level }
        requires few { length kinds.now ≤ 64 }
        requires numbers { id + 8 ≤ 2 ^ 32 }
        ensures level { IfOk result (λ a. a.level ≡ level) }
        ensures new { IfOk result (λ a. AreNewPools level id kinds.now a.pools) }
        ensures bad_size { IsErrOf result OpenFault.BadSize ↔ HasNoHeaps level 8 kinds.now }
        ensures not_worn { ¬ (IsErrOf result OpenFault.Worn) }
    {
        if level == 4 {
            let pools = Pools::<4>::open(alloc, id, kinds, 0)?;
            Ok(AnyPools {
                of_level: PoolsOfLevel::Four(pools),
            })
        } else {
            let pools = Pools::<5>::open(alloc, id, kinds, 0)?;
            Ok(AnyPools {
                of_level: PoolsOfLevel::Five(pools),
            })
        }
    }

    /// `Pools::allocate`.
    pub fn allocate(&mut self, len: u32) -> Result<Name, PoolRefusal>
        ensures level { self.new.level ≡ self.old.level }
        ensures allocates { AllocatesInPools self.old.level self.old.pools self.new.pools len result }
    {
        at_level!(PoolsOfLevel, &mut self.of_level, pools => pools.allocate(len))
    }

    /// `Pools::release`.
    pub fn release(&mut self, name: Name) -> Result<(), Refusal>
        ensures releases { AtLevel self.old self.new (ReleasesInPools self.old.pools self.new.pools name result) }
    {
        at_level!(PoolsOfLevel, &mut self.of_level, pools => pools.release(name))
    }

    /// `Pools::write`.
    pub fn write(&mut self, name: Name, at: u32, bytes: &[u8]) -> Result<(), Refusal>
        ensures writes { AtLevel self.old self.new (WritesInPools self.old.pools self.new.pools name at bytes.now result) }
    {
        at_level!(PoolsOfLevel, &mut self.of_level, pools => pools.write(name, at, bytes))
    }

    /// `Pools::read`.
    pub fn read(&mut self, name: Name, at: u32, out: &mut [u8]) -> Result<(), Refusal>
        ensures reads { AtLevel self.old self.new (ReadsInPools self.old.pools self.new.pools name at out.old out.new result) }
    {
        at_level!(PoolsOfLevel, &mut self.of_level, pools => pools.read(name, at, out))
    }

    /// `Pools::report`.
    pub fn report(&mut self, part: usize) -> Option<Report>
        ensures reports { AtLevel self.old self.new (ReportsInPools self.old.level self.old.pools self.new.pools part result) }
    {
        at_level!(PoolsOfLevel, &mut self.of_level, pools => pools.report(part))
    }

    /// `Pools::number`.
    pub fn number(&self, part: usize) -> Option<u32>
        ensures none { (result ≡ None) ↔ (length self.now.pools.parts ≤ part) }
        ensures number { IfSome result (λ number. number ≡ (part_at self.now.pools part).heap.id) }
    {
        at_level!(PoolsOfLevel, &self.of_level, pools => pools.number(part))
    }

    /// `Pools::base`.
    pub fn base(&mut self, part: usize) -> Option<*mut u64>
        ensures none { (result ≡ None) ↔ (length self.old.pools.parts ≤ part) }
        ensures address { IfSome result (λ base. base ≡ (part_at self.old.pools part).extents.words.address) }
        ensures same { self.new ≡ self.old }
    {
        at_level!(PoolsOfLevel, &mut self.of_level, pools => pools.base(part))
    }

    /// `Pools::row_len`.
    pub fn row_len(&self, len: u32) -> Option<u32>
        ensures { result ≡ tables.row_len (table_of self.now.pools) len }
    {
        at_level!(PoolsOfLevel, &self.of_level, pools => pools.row_len(len))
    }

    /// `Pools::counts`.
    pub fn counts(&self, row: usize) -> Option<RowCounts>
        ensures { result ≡ counts_at self.now.pools row }
    {
        at_level!(PoolsOfLevel, &self.of_level, pools => pools.counts(row))
    }

    /// `Pools::check_blocks`.
    pub fn check_blocks(&mut self, part: usize, from: u32, most: u32) -> Option<Checked>
        ensures checks { AtLevel self.old self.new (ChecksInPools self.old.pools self.new.pools part from most result) }
    {
        at_level!(PoolsOfLevel, &mut self.of_level, pools => pools.check_blocks(part, from, most))
    }

    /// `Pools::block_at`.
    pub fn block_at(&mut self, part: usize, at: u32) -> Option<PlacedBlock>
        ensures looks { AtLevel self.old self.new (LooksInPools self.old.pools self.new.pools part at result) }
    {
        at_level!(PoolsOfLevel, &mut self.of_level, pools => pools.block_at(part, at))
    }
}

/// Pools in a box, which no call is using. The fields of an arena of offsets, for which there is room too, are never written: a function of
/// its own shows the compiler so.
pub fn boxed(alloc: Global, pools: AnyPools) -> Result<Box<AnyArena, Global>, OpenFault>
    ensures idle { IfOk result (λ owned. is_arena_idle (Some owned.value) ≡ true) }
    ensures kind { IfOk result (λ owned. is_pools (Some owned.value) ≡ true) }
    ensures pools { IfOk result (λ owned. pools_of (Some owned.value) ≡ pools) }
    ensures no_memory { IfErr result (λ why. why ≡ OpenFault.NoMemory) }
{
    let held = AnyArena::Pools {
        is_idle: true,
        owned: pools,
    };
    match Box::new(alloc, held) {
        Ok(owned) => Ok(owned),
        Err(_) => Err(OpenFault::NoMemory),
    }
}
