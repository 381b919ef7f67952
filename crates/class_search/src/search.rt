//! What a search goes through.
use box_instances::Instance;
use std::alloc::Global;

// What a search goes through: an instance and its pairs of boxes by rank, with the memory that it
// allocates from.
#[derive(Clone, Copy)]
pub(crate) struct Search<'a> {
    pub alloc: Global,
    pub instance: &'a Instance,
    pub pairs: &'a [(u32, u32)],
}
