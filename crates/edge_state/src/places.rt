//! Where the row of a box stands among the rows of all dimensions, boxes and relations.
ghost use Rattle.std.specs.Prelude.{◌≡◌, ◌<◌};
ghost use Rattle.packing_terms.specs.Relations.{mirror};
ghost use Rattle.packing_terms.specs.Limits.{IsBoxCount};
ghost use Rattle.edge_state.specs.Edges.{row_index, rel_number};

use relation_table::Rel;

// The number of a relation among the rows of one box.
#[inline]
fn number_of(rel: Rel) -> u32
    ensures { result ≡ rel_number rel }
{
    match rel {
        Rel::Overlap => 0,
        Rel::Before => 1,
        Rel::After => 2,
    }
}

/// The relation of v, u where that of u, v is given.
#[inline]
pub(crate) fn mirrored(rel: Rel) -> Rel
    ensures { result ≡ mirror rel }
{
    match rel {
        Rel::Overlap => Rel::Overlap,
        Rel::Before => Rel::After,
        Rel::After => Rel::Before,
    }
}

/// Where the row of a box for a relation stands among the rows: by dimension, then box, then
/// relation.
#[inline]
pub(crate) fn index_of(boxes: u32, dim: u32, u: u32, rel: Rel) -> usize
    requires dim { dim < 4 }
    requires count { IsBoxCount boxes }
    requires u { u < boxes }
    ensures { result ≡ row_index boxes dim u rel }
{
    (dim as usize * boxes as usize + u as usize) * 3 + number_of(rel) as usize
}
