ghost use Rattle.std.specs.Prelude.{◌≡◌, IfOk, OnOk};
ghost use Rattle.tlsf_picture.specs.Labelled as spelled;
ghost use Rattle.tlsf_picture.specs.Labelled.{label_of, known_in, with_label};

use std::alloc::{AllocError, Global};
use std::collections::HashMap;
use std::marker::Model;
use tlsf_heap::{Content, Name, PlacedBlock};
use tlsf_map::LabelledBlock;

/// The label of each block that a heap ever gave, by the block's serial. A contract sees the pairs of serial and label, in any
/// order.
#[derive(Drop)]
pub struct BlockLabels {
    by_serial: HashMap<u64, Option<u32>>,
}

impl Model for BlockLabels {
    ghost use Rattle.std.specs.Prelude.{ℕ, List, Option};

    ghost Value = { List (ℕ × Option ℕ) };

    ghost view = { λ labels. labels.by_serial.entries };
}

impl BlockLabels {
    /// The labels of the blocks of the heap of this number, by the name that each event made and the label of each.
    pub fn of(
        alloc: Global,
        heap: u32,
        made: &[Option<Name>],
        labels: &[Option<u32>],
    ) -> Result<BlockLabels, AllocError>
        ensures { IfOk result (λ known. known_in known ≡ label_of heap made.now labels.now) }
    {
        let mut known = BlockLabels {
            by_serial: HashMap::new(alloc),
        };
        // From the last event on, so that of two with one serial the first would count.
        let mut left = made.len();
        while left > 0 {
            left -= 1;
            known.note(heap, made[left], labels.get(left).copied().flatten())?;
        }
        Ok(known)
    }

    // Gives the block that an event made its label, where it is of this heap.
    fn note(&mut self, heap: u32, made: Option<Name>, label: Option<u32>) -> Result<(), AllocError>
        ensures { OnOk result (known_in self.new ≡ with_label heap (known_in self.old) made label) }
    {
        if let Some(name) = made
            && name.heap == heap
        {
            self.by_serial.insert(name.serial, label)?;
        }
        Ok(())
    }

    // The label of the block that has this serial.
    fn get(&self, serial: u64) -> Option<u32>
        ensures { result ≡ known_in self.now serial }
    {
        self.by_serial.get(&serial).copied().flatten()
    }

    /// A block with its label. A free one has none.
    pub fn labelled(&self, block: PlacedBlock) -> LabelledBlock
        ensures { result ≡ spelled.labelled (known_in self.now) block }
    {
        let label = match block.content {
            Content::Free { .. } => None,
            Content::Live { serial, .. } => self.get(serial),
        };
        LabelledBlock { block, label }
    }
}
