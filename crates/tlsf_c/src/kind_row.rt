//! A row of a table of kinds, as C gives it.
ghost use Rattle.std.specs.Prelude.{◌≡◌, ◌≤◌, length, take};
ghost use Rattle.tlsf_c.specs.PoolHandles.{kind_of, kinds_of};

use crate::lengths::saturated;
use tlsf_pool::Kind;

/// The value in a place that has no row.
pub const NO_KIND: Kind = Kind { most: 0, len: 0 };

/// A kind of request: how many blocks of it are held at once, and how many bytes it has, at most.
#[repr(C)]
#[derive(Clone, Copy)]
pub struct KindRow {
    pub most: u32,
    pub len: usize,
}

impl KindRow {
    /// The row as pools have it.
    pub fn kind(self) -> Kind
        ensures { result ≡ kind_of self }
    {
        Kind {
            most: self.most,
            len: saturated(self.len),
        }
    }
}

/// The table of at most 64 rows, as pools have it, and places after it that have no row.
pub fn put_kinds(rows: &[KindRow], kinds: &mut [Kind; 64])
    requires few { length rows.now ≤ 64 }
    requires places { length kinds.old ≡ 64 }
    ensures table { take (length rows.now) kinds.new ≡ kinds_of rows.now }
{
    for (k, row) in rows.iter().enumerate() {
        kinds[k] = row.kind();
    }
}
