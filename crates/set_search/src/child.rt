//! A child of an outer tree whose set grew by one box.
ghost use Rattle.std.specs.Prelude.{◌≡◌, ◌≤◌, IfOk, OnErr, length};
ghost use Rattle.packing_terms.specs.Goals.{IsBoxSet};
ghost use Rattle.packing_terms.specs.OuterRefutation.{insert_box};
ghost use Rattle.tree_terms.specs.OuterTrees.{set_verdict, yes_numbers};
ghost use Rattle.proof_tree.specs.Shorts.{AreLonger};
ghost use Rattle.set_search.specs.Children.{IsChild, IsFoundSet};
ghost use Rattle.set_search.specs.Memories.{HasBoxes};

use crate::insert::fill_with;
use crate::key::SetKey;
use crate::search::{MAX_BUDGET, SetSearch, Source};
use box_instances::NoMemory;
use proof_tree::{CompactTokens, Outcome, Token};
use std::alloc::Global;

/// What a child of an outer tree comes to whose set grew by one box: its own count, which is 1 and
/// what the decision of the set cost, is past what is left; or the set is refuted; or it fits, and
/// `numbers` are its places.
#[derive(Drop)]
pub enum Child {
    Past,
    Refuted {
        own: u64,
    },
    Fits {
        set: Vec<u32>,
        numbers: Vec<u32>,
        own: u64,
    },
}

impl<'a> SetSearch<'a> {
    /// Decides a set with one box more, once, under what is left of a cap. `Past` comes exactly
    /// where the child's own count is greater than that. The boxes of a set stand by rising number.
    ///
    /// Where the set is refuted, that is appended to the tokens, of this bin or without a number,
    /// and what refutes it. Where it isn't, the tokens are as before. Where memory is refused, they
    /// are those of before with some more behind them at most.
    pub fn decide_with_box(
        &mut self,
        alloc: Global,
        keep: &[u32],
        v: u32,
        left: u64,
        bin: Option<u32>,
        tokens: &mut CompactTokens,
    ) -> Result<Child, NoMemory>
        requires { IsBoxSet self.old.instance (insert_box v keep.now) }
        ensures same { self.new ≡ self.old }
        ensures child { IfOk result (λ child.
            IsChild self.old.instance self.old.scales left (insert_box v keep.now) bin
            tokens.old tokens.new child) }
        ensures front { OnErr result (AreLonger tokens.old tokens.new) }
    {
        if left == 0 {
            return Ok(Child::Past);
        }
        // Most sets come again and are refuted: those need no list of their boxes.
        let key = self.key_with(keep, v);
        let source = self.locate(alloc, &key);
        if let Some(cost) = self.recall_refuted(alloc, source, &key, left - 1, bin, tokens)? {
            return Ok(Child::Refuted { own: 1 + cost });
        }
        let mut set = self.take_spare(alloc);
        fill_with(&mut set, keep, v)?;
        self.grown(alloc, source, set, &key, left, bin, tokens)
    }

    // The same of a set that is given, with its key and with something left. The memory of one that
    // is refuted is kept for the next.
    fn grown(
        &mut self,
        alloc: Global,
        source: Source,
        set: Vec<u32>,
        key: &SetKey,
        left: u64,
        bin: Option<u32>,
        tokens: &mut CompactTokens,
    ) -> Result<Child, NoMemory>
        requires some { 1 ≤ length set.items }
        requires boxes { HasBoxes key.now.boxes set.items }
        requires set { IsBoxSet self.old.instance set.items }
        requires left { 1 ≤ left }
        ensures same { self.new ≡ self.old }
        ensures child { IfOk result (λ child.
            IsChild self.old.instance self.old.scales left set.items bin
            tokens.old tokens.new child) }
        ensures front { OnErr result (AreLonger tokens.old tokens.new) }
    {
        match self.decide_by(alloc, source, set.as_slice(), key, left - 1)? {
            Outcome::Past => Ok(Child::Past),
            Outcome::No {
                tokens: inner,
                count,
            } => {
                tokens.push(Token::SetRefuted { bin })?;
                tokens.append(inner)?;
                self.put_spare(set);
                let own = 1 + count;
                Ok(Child::Refuted { own })
            }
            Outcome::Yes { numbers, count } => {
                let own = 1 + count;
                Ok(Child::Fits { set, numbers, own })
            }
        }
    }

    /// The places of a set that fits. Its class tree is known to have a count within the greatest
    /// budget.
    pub fn answer_of(&mut self, alloc: Global, keep: &[u32]) -> Result<Vec<u32>, NoMemory>
        requires { IsFoundSet self.old.instance self.old.scales keep.now }
        ensures same { self.new ≡ self.old }
        ensures answer { IfOk result (λ numbers. numbers.items
            ≡ yes_numbers (set_verdict self.old.instance self.old.scales keep.now)) }
    {
        match self.decide(alloc, keep, MAX_BUDGET)? {
            Outcome::Yes { numbers, count: _ } => Ok(numbers),
            Outcome::No {
                tokens: _tokens,
                count: _,
            } => unreachable!(),
            Outcome::Past => unreachable!(),
        }
    }
}
