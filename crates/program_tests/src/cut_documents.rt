//! Documents that end too early.
use crate::asked::tells;
use crate::texts::TWO_BOXES_FIT;
use std::test::Fail;

// How many bytes the first lines have, and the line of the document that ends there.
const CUTS: [(usize, &str); 9] = [
    (0, "refused 1 short\n"),
    (11, "refused 2 short\n"),
    (20, "refused 3 short\n"),
    (36, "refused 4 short\n"),
    (44, "refused 5 short\n"),
    (52, "refused 6 short\n"),
    (63, "refused 7 short\n"),
    (73, "refused 8 short\n"),
    (83, "refused 9 short\n"),
];

#[test]
fn a_document_that_is_cut_behind_a_line_is_short(rt: HostRuntime) -> Result<(), Fail> {
    for (count, line) in CUTS {
        assert!(rt;
            tells(&rt, &["check"], &TWO_BOXES_FIT[..count], 1, line)?,
            "{line}"
        );
    }
    Ok(())
}
