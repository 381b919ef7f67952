//! The entries of a board as they are stored, each at the index of its number.
ghost use Rattle.std.specs.Prelude.{◌≡◌, ◌<◌, ℕ, MatchBool, vec_len, vec_capacity};
ghost use Rattle.work_share.specs.Board.{TaskEntry, Out as PlainOut};
ghost use Rattle.work_share.specs.Outcomes.{plain_outcome};
ghost use Rattle.work_share.specs.Slots.{entry_of, with_slot};
ghost use Rattle.work_share.specs.Fronts.{piece_of, outcome_piece};

use proof_tree::{Outcome, Token};

// An entry: its path, what stands there, and the number of the entry behind it in prefix order, if
// there is one.
#[derive(Drop)]
pub(crate) struct Slot {
    pub path: Vec<u32>,
    pub state: SlotState,
    pub behind: Option<usize>,
}

#[derive(Drop)]
pub(crate) enum SlotState {
    Waits,
    Out,
    Done(Outcome),
    Split {
        token: Token,
        own: u64,
        children: u32,
    },
}

// What an entry is for the leftmost finished run: it isn't finished; it is done with yes; it is
// finished with no, with this count; or it is past the budget.
#[derive(Clone, Copy)]
pub(crate) enum Piece {
    Open,
    Found,
    Refuted(u64),
    Spent,
}

fn piece_of_outcome(outcome: &Outcome) -> Piece
    ensures { result ≡ outcome_piece (plain_outcome outcome.now) }
{
    match outcome {
        Outcome::Yes { .. } => Piece::Found,
        Outcome::No { tokens: _, count } => Piece::Refuted(*count),
        Outcome::Past => Piece::Spent,
    }
}

impl Slot {
    // What the entry is for the leftmost finished run.
    pub fn piece(&self) -> Piece
        ensures { (number : ℕ) → result ≡ piece_of (entry_of number self.now) }
    {
        match &self.state {
            SlotState::Waits => Piece::Open,
            SlotState::Out => Piece::Open,
            SlotState::Done(outcome) => piece_of_outcome(outcome),
            SlotState::Split { own, .. } => Piece::Refuted(*own),
        }
    }

    // Whether the entry is the task of this path, and out.
    pub fn is_out_at(&self, path: &[u32]) -> bool
        ensures { (number : ℕ) → MatchBool result
            (entry_of number self.now ≡ TaskEntry number path.now PlainOut)
            (¬ (entry_of number self.now ≡ TaskEntry number path.now PlainOut)) }
    {
        match self.state {
            SlotState::Out => self.path.as_slice() == path,
            _ => false,
        }
    }
}

// Puts something else at the entry of a number.
pub(crate) fn put_state(slots: &mut Vec<Slot>, number: usize, state: SlotState)
    requires { number < vec_len slots.old }
    ensures items { slots.new.items ≡ with_slot slots.old.items number state }
    ensures len { vec_len slots.new ≡ vec_len slots.old }
    ensures capacity { vec_capacity slots.new ≡ vec_capacity slots.old }
{
    slots[number].state = state;
}
