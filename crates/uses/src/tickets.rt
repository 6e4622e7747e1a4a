//! Tables that an owner lends to workers, with a ticket for each. A worker reads its table in its own thread and puts it back by
//! the ticket, which is never refused and never waits. The owner takes what came home. It is the very table that went out.
ghost use Rattle.std.specs.Prelude.{◌≡◌, ◌<◌, length};
ghost use Rattle.tlsf_pool_arena.specs.returns.Ends.{IsOwnerOf, IsTicketFor, away_by};

use anyhow::Error;
use std::alloc::Global;
use std::thread::{Threads, join};
use tlsf_pool_arena::{OwnerEnd, Slots, Ticket, open_slots};

type Table = Vec<u32>;

/// A worker's part: the sum of its table, which is home afterwards.
pub fn sum_up(slots: &Slots<Table>, table: Table, ticket: Ticket<Table>) -> u64
    requires { IsTicketFor slots.now table ticket }
{
    let mut sum = 0u64;
    for entry in &table {
        sum = sum.saturating_add(u64::from(*entry));
    }
    drop(ticket.put(slots, table));
    sum
}

/// Whether the table of a slot is home. It is the owner's again then, and dropped here.
pub fn is_home(owner: &mut OwnerEnd<Table>, slots: &Slots<Table>, at: usize) -> bool
    requires own { IsOwnerOf slots.now owner.old }
    requires slot { at < length (away_by owner.old) }
    ensures own { IsOwnerOf slots.now owner.new }
    ensures count { length (away_by owner.new) ≡ length (away_by owner.old) }
{
    owner.take(slots, at).is_some()
}

/// Two workers sum a table each. Tells the sums, whether the first table was home before they ran, and which are home at
/// the end.
pub fn sum_both(rt: &impl Threads, alloc: Global) -> Result<([u64; 2], bool, [bool; 2]), Error> {
    let (slots, mut owner) = open_slots(alloc, 2)?;
    let small = vec![in alloc; 1, 2, 3]?;
    let large = vec![in alloc; 400, 500]?;
    let (low, first) = owner.send_out(&slots, 0, small);
    let (high, second) = owner.send_out(&slots, 1, large);
    let early = is_home(&mut owner, &slots, 0);
    let shared = &slots;
    let (one, two) = join(
        rt,
        move || sum_up(shared, low, first),
        move || sum_up(shared, high, second),
    );
    let home = [
        is_home(&mut owner, &slots, 0),
        is_home(&mut owner, &slots, 1),
    ];
    Ok(([one, two], early, home))
}

#[test]
fn tables_come_home(rt: HostRuntime) -> Result<(), Error> {
    let told = sum_both(&rt, rt.alloc())?;
    assert_eq!(rt; told, ([6, 900], false, [true, true]));
    Ok(())
}
