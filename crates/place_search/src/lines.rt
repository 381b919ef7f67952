//! Skylines in a list of fixed capacity, written from one to the next.

use fill_search::Segment;

// Puts a segment behind the first `count`, or makes the last of them wider if it is as high.
fn append(next: &mut [Segment], count: usize, segment: Segment) -> usize {
    if count > 0 && count <= next.len() && next[count - 1].height == segment.height {
        let width = next[count - 1].width;
        next[count - 1].width = width.saturating_add(segment.width);
        return count;
    }
    if count < next.len() {
        next[count] = segment;
        return count + 1;
    }
    count
}

/// Writes the skyline in which the left part of a gap is as high as `top`, up to a width. It
/// answers how many segments there are.
pub(crate) fn raise(
    line: &[Segment],
    gap: usize,
    width: u32,
    top: u32,
    next: &mut [Segment],
) -> usize {
    let mut count = 0;
    for k in 0..line.len() {
        let segment = line[k];
        if k != gap {
            count = append(next, count, segment);
            continue;
        }
        let part = width.min(segment.width);
        let raised = Segment {
            start: segment.start,
            width: part,
            height: top,
        };
        count = append(next, count, raised);
        if part < segment.width {
            let rest = Segment {
                start: segment.start.saturating_add(part),
                width: segment.width - part,
                height: segment.height,
            };
            count = append(next, count, rest);
        }
    }
    count
}
