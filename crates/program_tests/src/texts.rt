//! Texts that several tests run the program on.

/// One box that fills its container.
pub(crate) const UNIT: &[u8] = b"format 1\ncontainer 1 1\nbox 1 1\n";

/// Two boxes that stand on one another.
pub(crate) const TWO_BOXES: &[u8] = b"format 1\ncontainer 10 10\nbox 6 4\nbox 6 6\n";

/// The document that answers `fit` for the two boxes.
pub(crate) const TWO_BOXES_FIT: &[u8] =
    b"answer fit\nformat 1\ncontainer 10 10\nbox 6 4\nbox 6 6\nresult yes\nplace 0 0\nplace 0 4\nend\n";

/// Eight boxes in a row, which have a leaf for each order of seven of them: 5,039 branchings.
pub(crate) const EIGHT_IN_A_ROW: &[u8] =
    b"format 1\ncontainer 23 10\nbox 3 6\nbox 3 6\nbox 3 6\nbox 3 6\nbox 3 6\nbox 3 6\nbox 3 6\nbox 3 6\n";

/// Nine such boxes, of which seven fit: the tree for eight has more than 40,000 branchings.
pub(crate) const NINE_IN_A_ROW: &[u8] =
    b"format 1\ncontainer 23 10\nbox 3 6\nbox 3 6\nbox 3 6\nbox 3 6\nbox 3 6\nbox 3 6\nbox 3 6\nbox 3 6\nbox 3 6\n";

/// A strip of three boxes, whose least height is 5.
pub(crate) const STRIP: &[u8] = b"format 1\ncontainer 10 1\nbox 6 3\nbox 6 2\nbox 4 4\n";

/// Three planks, of which two fill a container.
pub(crate) const PLANKS: &[u8] = b"format 1\ncontainer 10 10\nbox 10 5\nbox 10 5\nbox 10 5\n";

/// Two large boxes that don't fit together, and a small one that fits beside each.
pub(crate) const SACK: &[u8] =
    b"format 1\ncontainer 10 10\nbox 6 6 value 5\nbox 6 6 value 4\nbox 4 4 value 3\n";
