//! The parts of pictures of the heaps of workers.
ghost use Rattle.std.specs.Prelude.{◌≡◌, ◌<◌, Option, map, IfOk};
ghost use Rattle.tlsf_crew.specs.worker.Workers.{heap_of};
ghost use Rattle.tlsf_crew.specs.lanes.Yard.{IsYard};
ghost use Rattle.tlsf_heap.specs.Placed.{placed_blocks};
ghost use Rattle.tlsf_picture.specs.Drawn.{AreMaps, IsMapBy};
ghost use Rattle.tlsf_picture.specs.Labelled.{known_in, labelled};
ghost use Rattle.tlsf_picture.specs.Steps.{LeavesHeap, ShowsSame};

use crate::block_labels::BlockLabels;
use std::alloc::{AllocError, Global};
use tlsf_crew::Worker;
use tlsf_heap::Name;
use tlsf_map::{LabelledBlock, MappedHeap};

// The blocks of a worker's heap, in the order of their places, each with its label.
fn blocks_of<const SLI: u32>(
    alloc: Global,
    worker: &mut Worker<SLI>,
    labels: &BlockLabels,
) -> Result<Vec<LabelledBlock>, AllocError>
    ensures left { LeavesHeap worker.old worker.new }
    ensures blocks { IfOk result (λ blocks. blocks.items
        ≡ map (labelled (known_in labels.now)) (placed_blocks (heap_of worker.old).blocks)) }
{
    let mut blocks = Vec::new(alloc);
    let mut at = 0;
    while let Some(block) = worker.block_at(at) {
        blocks.push(labels.labelled(block))?;
        at += block.size;
    }
    Ok(blocks)
}

// The parts of a picture of a worker's heap of this number.
fn map_heap<const SLI: u32>(
    alloc: Global,
    id: u32,
    worker: &mut Worker<SLI>,
    labels: &BlockLabels,
) -> Result<MappedHeap, AllocError>
    requires { (heap_of worker.old).id ≡ id }
    ensures left { LeavesHeap worker.old worker.new }
    ensures mapped { IfOk result (IsMapBy SLI (known_in labels.now) (heap_of worker.old)) }
{
    let report = worker.report();
    let blocks = blocks_of(alloc, worker, labels)?;
    Ok(MappedHeap {
        id,
        tick: worker.tick(),
        report,
        blocks,
    })
}

/// The parts of a picture of the workers' heaps, by the name that each event made and the label of each. The yard stays as it is.
pub fn map_heaps<const SLI: u32>(
    alloc: Global,
    workers: &mut [Worker<SLI>],
    made: &[Option<Name>],
    labels: &[Option<u32>],
) -> Result<Vec<MappedHeap>, AllocError>
    requires { IsYard workers.old }
    ensures shows { ShowsSame workers.old workers.new }
    ensures maps { IfOk result (λ maps. AreMaps SLI made.now labels.now (map heap_of workers.old) maps.items) }
{
    let mut maps = Vec::new(alloc);
    for number in 0..workers.len() {
        let id = number as u32;
        let known = BlockLabels::of(alloc, id, made, labels)?;
        maps.push(map_heap(alloc, id, &mut workers[number], &known)?)?;
    }
    Ok(maps)
}
