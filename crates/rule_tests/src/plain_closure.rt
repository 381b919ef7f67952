//! The closure by its definition: all instances of all rules on a plain table, over and over.
//! Relations are numbers here: 0 is overlap, 1 before and 2 after. There are up to 4 dimensions and
//! 20 boxes, and each container side is the same.

/// The greatest number of boxes of a plain state.
pub(crate) const MOST: usize = 20;

/// A table of what is excluded, and the sides of the boxes.
#[derive(Drop)]
pub struct PlainState {
    pub dims: u8,
    pub boxes: u8,
    container: u32,
    sides: [[u32; 4]; MOST],
    excluded: [bool; 4800],
}

// Which chains of a box are weighed.
#[derive(Clone, Copy)]
enum Chains {
    EndThere,
    StartThere,
}

fn spot(i: u8, u: u8, v: u8, r: u8) -> usize {
    ((usize::from(i) * 20 + usize::from(u)) * 20 + usize::from(v)) * 3 + usize::from(r)
}

impl PlainState {
    /// A state of `boxes` boxes with nothing excluded, with the first of these sides.
    pub fn new(dims: u8, boxes: u8, container: u32, sides: &[[u32; 4]]) -> PlainState {
        let mut first = [[1; 4]; MOST];
        for (own, given) in first.iter_mut().zip(sides) {
            *own = *given;
        }
        PlainState {
            dims,
            boxes,
            container,
            sides: first,
            excluded: [false; 4800],
        }
    }

    fn side(&self, u: u8, i: u8) -> u32 {
        match self.sides.get(usize::from(u)) {
            Some(own) => own.get(usize::from(i)).copied().unwrap_or(1),
            None => 1,
        }
    }

    /// Whether the relation is excluded.
    pub fn is_out(&self, i: u8, u: u8, v: u8, r: u8) -> bool {
        self.excluded
            .get(spot(i, u, v, r))
            .copied()
            .unwrap_or(false)
    }

    fn put_out(&mut self, i: u8, u: u8, v: u8, r: u8) -> bool {
        match self.excluded.get_mut(spot(i, u, v, r)) {
            Some(is_out) => {
                let is_new = !*is_out;
                *is_out = true;
                is_new
            }
            None => false,
        }
    }

    /// Excludes the relation and its mirror, and says whether that is new.
    pub fn exclude(&mut self, i: u8, u: u8, v: u8, r: u8) -> bool {
        let mirror = match r {
            1 => 2,
            2 => 1,
            _ => 0,
        };
        let here = self.put_out(i, u, v, r);
        let there = self.put_out(i, v, u, mirror);
        here | there
    }

    fn is_joined(&self, i: u8, u: u8, v: u8) -> bool {
        self.is_out(i, u, v, 1) && self.is_out(i, u, v, 2)
    }

    fn is_before(&self, i: u8, u: u8, v: u8) -> bool {
        self.is_out(i, u, v, 0) && self.is_out(i, u, v, 2)
    }

    fn by_pair(&mut self, i: u8, u: u8, v: u8) -> bool {
        let wide = self.side(u, i).saturating_add(self.side(v, i)) > self.container;
        wide && (self.exclude(i, u, v, 1) | self.exclude(i, u, v, 2))
    }

    fn by_apart(&mut self, i: u8, u: u8, v: u8) -> bool {
        for j in 0..self.dims {
            if j != i && !self.is_joined(j, u, v) {
                return false;
            }
        }
        self.exclude(i, u, v, 0)
    }

    fn by_triple(&mut self, i: u8, u: u8, v: u8, x: u8) -> bool {
        let sum = self
            .side(u, i)
            .saturating_add(self.side(v, i))
            .saturating_add(self.side(x, i));
        let fires = sum > self.container && self.is_out(i, u, x, 0) && self.is_out(i, v, x, 0);
        fires && (self.exclude(i, u, v, 1) | self.exclude(i, u, v, 2))
    }

    fn is_composed(&self, i: u8, u: u8, v: u8, x: u8, r: u8) -> bool {
        for q in 0..3 {
            for s in 0..3 {
                if !self.is_out(i, u, v, q) && !self.is_out(i, v, x, s) && is_allowed(q, s, r) {
                    return true;
                }
            }
        }
        false
    }

    fn by_compose(&mut self, i: u8, u: u8, v: u8, x: u8) -> bool {
        let mut changed = false;
        for r in 0..3 {
            if !self.is_composed(i, u, v, x, r) {
                let here = self.exclude(i, u, x, r);
                changed = changed | here;
            }
        }
        changed
    }

    fn by_cycle(&mut self, i: u8, a: u8, b: u8, c: u8, d: u8) -> bool {
        let cycle = self.is_joined(i, a, b)
            && self.is_joined(i, b, c)
            && self.is_joined(i, c, d)
            && self.is_joined(i, d, a);
        let fires = cycle && self.is_out(i, a, c, 0);
        fires && (self.exclude(i, b, d, 1) | self.exclude(i, b, d, 2))
    }

    fn by_order(&mut self, i: u8, a: u8, b: u8, c: u8, d: u8) -> bool {
        let fires = self.is_before(i, a, b) && self.is_before(i, c, d) && self.is_out(i, a, d, 1);
        fires && (self.exclude(i, c, b, 0) | self.exclude(i, c, b, 2))
    }

    fn by_four(&mut self, i: u8, a: u8, b: u8, c: u8) -> bool {
        let mut changed = false;
        for d in 0..self.boxes {
            if d != a && d != b && d != c {
                let cycle = self.by_cycle(i, a, b, c, d);
                let order = self.by_order(i, a, b, c, d);
                changed = changed | cycle | order;
            }
        }
        changed
    }

    fn by_three(&mut self, i: u8, a: u8, b: u8) -> bool {
        let mut changed = false;
        for c in 0..self.boxes {
            if c != a && c != b {
                let triple = self.by_triple(i, a, b, c);
                let compose = self.by_compose(i, a, b, c);
                let four = self.by_four(i, a, b, c);
                changed = changed | triple | compose | four;
            }
        }
        changed
    }

    fn by_two(&mut self, i: u8, a: u8) -> bool {
        let mut changed = false;
        for b in 0..self.boxes {
            if b != a {
                let pair = self.by_pair(i, a, b);
                let apart = self.by_apart(i, a, b);
                let three = self.by_three(i, a, b);
                changed = changed | pair | apart | three;
            }
        }
        changed
    }

    // All rules but CHAIN, each at all boxes.
    fn round(&mut self) -> bool {
        let mut changed = false;
        for i in 0..self.dims {
            for a in 0..self.boxes {
                let here = self.by_two(i, a);
                changed = changed | here;
            }
        }
        changed
    }

    // Whether a chain goes from one box to the other.
    fn leads(&self, i: u8, x: u8, v: u8, chains: Chains) -> bool {
        match chains {
            Chains::EndThere => self.is_before(i, x, v),
            Chains::StartThere => self.is_before(i, v, x),
        }
    }

    // The weight of the heaviest chain of a box, where those of the others have these.
    fn weight_of(&self, weights: &[u32], i: u8, v: u8, chains: Chains) -> u32 {
        let mut most = self.side(v, i);
        for x in 0..self.boxes {
            if x != v && self.leads(i, x, v, chains) {
                let before = weights.get(usize::from(x)).copied().unwrap_or(0);
                most = most.max(before.saturating_add(self.side(v, i)));
            }
        }
        most
    }

    // Weighs the chains of each box once more.
    fn raise(&self, weights: &mut [u32], i: u8, chains: Chains) {
        for v in 0..self.boxes {
            let weight = self.weight_of(weights, i, v, chains);
            if let Some(place) = weights.get_mut(usize::from(v)) {
                *place = weight;
            }
        }
    }

    // The weights of the heaviest chains. Where no mask is empty and COMPOSE adds nothing, surely
    // before goes in no circle, so a chain has no more boxes than there are.
    fn weigh(&self, i: u8, chains: Chains) -> [u32; MOST] {
        let mut weights = [0; MOST];
        for _ in 0..self.boxes {
            self.raise(&mut weights, i, chains);
        }
        weights
    }

    // CHAIN in one dimension, behind one box.
    fn by_head(&mut self, i: u8, u: u8, head: u32, tails: &[u32]) -> bool {
        let mut changed = false;
        for v in 0..self.boxes {
            let tail = tails.get(usize::from(v)).copied().unwrap_or(0);
            if u != v && head.saturating_add(tail) > self.container {
                let here = self.exclude(i, u, v, 1);
                changed = changed | here;
            }
        }
        changed
    }

    // CHAIN in one dimension, at all boxes.
    fn by_chain(&mut self, i: u8) -> bool {
        let heads = self.weigh(i, Chains::EndThere);
        let tails = self.weigh(i, Chains::StartThere);
        let mut changed = false;
        for u in 0..self.boxes {
            let head = heads.get(usize::from(u)).copied().unwrap_or(0);
            let here = self.by_head(i, u, head, &tails);
            changed = changed | here;
        }
        changed
    }

    fn by_chains(&mut self) -> bool {
        let mut changed = false;
        for i in 0..self.dims {
            let here = self.by_chain(i);
            changed = changed | here;
        }
        changed
    }

    // All rules but CHAIN, until they change nothing.
    fn settle(&mut self) {
        for _ in 0..4000 {
            if !self.round() {
                return;
            }
        }
    }

    /// Excludes all that follows, until nothing more does or a mask is empty. Answers whether one
    /// is.
    pub fn close(&mut self) -> bool {
        for _ in 0..4000 {
            self.settle();
            if self.has_empty() {
                return true;
            }
            if !self.by_chains() {
                return false;
            }
        }
        false
    }

    // Whether all three relations of two boxes are excluded.
    fn is_empty(&self, i: u8, u: u8, v: u8) -> bool {
        u != v && self.is_out(i, u, v, 0) && self.is_out(i, u, v, 1) && self.is_out(i, u, v, 2)
    }

    // Whether all three relations of some pair are excluded.
    fn has_empty(&self) -> bool {
        for i in 0..self.dims {
            for u in 0..self.boxes {
                for v in 0..self.boxes {
                    if self.is_empty(i, u, v) {
                        return true;
                    }
                }
            }
        }
        false
    }
}

// Whether u, x may have relation r, where u, v have q and v, x have s.
fn is_allowed(q: u8, s: u8, r: u8) -> bool {
    match (q, s) {
        (1, 1) => r == 1,
        (2, 2) => r == 2,
        (0, 1) | (1, 0) => r != 2,
        (0, 2) | (2, 0) => r != 1,
        _ => true,
    }
}
