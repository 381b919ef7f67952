//! A chain begun, by its lines so far.
ghost use Rattle.std.specs.Prelude.{◌≡◌, ◌<◌, ◌≤◌, ◌+◌, ◌∷◌, ◌++◌, [], ℕ, length, vec_capacity, Some, None, take, if◌then◌else◌, true, false};
ghost use Rattle.verdict_terms.specs.ExplainedJudging.{with_box, is_first, has_all, part_of};
ghost use Rattle.line_proofs.specs.Chains.{chain_at, chain_seen};

/// What the first line of a chain step says; the dimension counts from 0.
#[derive(Clone, Copy)]
pub struct Begun {
    pub dim: u32,
    pub first: u32,
    pub second: u32,
}

/// A chain begun, and the boxes that came of its first and of its second chain, counted from 0.
#[derive(Drop)]
pub struct Chain {
    pub begun: Option<Begun>,
    pub before: Vec<u32>,
    pub after: Vec<u32>,
}

/// Whether the next box belongs to the first chain.
pub(crate) fn is_first(chain: &Chain, begun: Begun) -> bool
    ensures { result ≡ is_first (chain_at begun chain.now.before.items chain.now.after.items) }
{
    chain.before.len() < begun.first as usize
}

/// Whether all boxes came.
pub(crate) fn has_all(chain: &Chain, begun: Begun) -> bool
    ensures { result ≡ has_all (chain_at begun chain.now.before.items chain.now.after.items) }
{
    let first = chain.before.len() == begun.first as usize;
    let second = chain.after.len() == begun.second as usize;
    first & second
}

/// One box more.
pub(crate) fn push_box(chain: &mut Chain, begun: Begun, first: bool, v: u32)
    requires first { first
        ≡ is_first (chain_at begun chain.old.before.items chain.old.after.items) }
    requires before_room { first ≡ true
        → length chain.old.before.items < vec_capacity chain.old.before }
    requires after_room { first ≡ false
        → length chain.old.after.items < vec_capacity chain.old.after }
    ensures pushed { chain_at begun chain.new.before.items chain.new.after.items
        ≡ with_box (chain_at begun chain.old.before.items chain.old.after.items) v }
    ensures begun { chain.new.begun ≡ chain.old.begun }
    ensures before_capacity { vec_capacity chain.new.before ≡ vec_capacity chain.old.before }
    ensures after_capacity { vec_capacity chain.new.after ≡ vec_capacity chain.old.after }
{
    if first {
        chain.before.push_reserved(v);
    } else {
        chain.after.push_reserved(v);
    }
}

/// Takes the last box back.
pub(crate) fn drop_box(chain: &mut Chain, first: bool, before: usize, after: usize)
    ensures before { chain.new.before.items
        ≡ (if first then take before chain.old.before.items else chain.old.before.items) }
    ensures after { chain.new.after.items
        ≡ (if first then chain.old.after.items else take after chain.old.after.items) }
    ensures begun { chain.new.begun ≡ chain.old.begun }
    ensures before_capacity { vec_capacity chain.new.before ≡ vec_capacity chain.old.before }
    ensures after_capacity { vec_capacity chain.new.after ≡ vec_capacity chain.old.after }
{
    if first {
        chain.before.truncate(before);
    } else {
        chain.after.truncate(after);
    }
}
