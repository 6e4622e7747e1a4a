use crate::returns::rule::SlotSeat;

/// A receipt shows that a value was put back by its slot. It has no bytes.
#[derive(Drop)]
pub struct Receipt<T> {
    pub(super) seat: SlotSeat<T>,
}
