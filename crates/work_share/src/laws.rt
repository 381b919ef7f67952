//! The laws over work boards. Each is proved of all trees, budgets and lists of events, and is read
//! in its contract.
ghost use Rattle.std.specs.Prelude.{◌≡◌, ℕ, List, map, length, Some, None, true, false};
ghost use Rattle.tree_terms.specs.Trees.{SearchTree, Verdict, PlainOutcome, Past, outcome, under_budget};
ghost use Rattle.work_share.specs.declared.Event.{Event as PlainEvent};
ghost use Rattle.work_share.specs.Board.{BoardState, board_start, entry_number, first_waiting};
ghost use Rattle.work_share.specs.Runs.{is_board_over, board_joined};
ghost use Rattle.work_share.specs.Steps.{Request, AskTask, Reply, NoneWaits, BoardStep, Call, AreSteps, event_of, events_of};
ghost use Rattle.work_share.specs.Replay.{replay, replay_from, finished_paths};
ghost use Rattle.work_share.specs.Kept.{AreDistinct, AreBelow, AreFromLeft, task_paths, OutsAreApart, HasOut, IsOutcomeOf, AreTasksRight};

/// For every tree, budget and list of calls, each a step from the start: no path of a task that is
/// out is a prefix of another one, and no path is finished twice. Where nothing waits and the board
/// isn't over, some task is out. Where the board is over and not short, its pieces join to the
/// outcome of the whole tree under the budget.
pub fn any_order_gives_one_outcome()
    ensures apart { (tree : SearchTree) (budget : ℕ) (calls : List Call) (board : BoardState)
        → AreSteps tree budget board_start calls board
        → OutsAreApart board.entries }
    ensures once { (tree : SearchTree) (budget : ℕ) (calls : List Call) (board : BoardState)
        → AreSteps tree budget board_start calls board
        → AreDistinct (finished_paths tree budget board_start (events_of calls)) }
    ensures empty { (tree : SearchTree) (budget : ℕ) (calls : List Call) (board after : BoardState)
        → AreSteps tree budget board_start calls board
        → BoardStep tree budget board AskTask NoneWaits after → HasOut board.entries }
    ensures joined { (tree : SearchTree) (budget : ℕ) (calls : List Call) (board : BoardState)
        → AreSteps tree budget board_start calls board
        → is_board_over budget board ≡ true → board.is_short ≡ false
        → board_joined budget board ≡ under_budget budget (outcome tree) }
{}

/// A step leaves what its event makes of the board, so a list of steps leaves what its events
/// replay to.
pub fn steps_are_replayed()
    ensures step { (tree : SearchTree) (budget : ℕ) (old : BoardState) (request : Request)
        (reply : Reply) (new : BoardState)
        → BoardStep tree budget old request reply new
        → new ≡ replay_from tree budget old (event_of request reply) }
    ensures steps { (tree : SearchTree) (budget : ℕ) (calls : List Call) (board : BoardState)
        → AreSteps tree budget board_start calls board
        → board ≡ replay tree budget (events_of calls) }
{}

/// What a board keeps after every history, a step at a time or not: its entries have distinct
/// numbers, below the number of entries; its tasks stand from left to right, so that no path of one
/// is a prefix of another's; each path may be reached, and each done task has its node's outcome,
/// or past where the count of that exceeds the budget; no path is finished twice; and where the
/// board is over and not short, its pieces join to the outcome of the whole tree under the budget.
pub fn histories_keep_a_board()
    ensures numbers { (tree : SearchTree) (budget : ℕ) (events : List PlainEvent)
        → AreDistinct (map entry_number (replay tree budget events).entries) }
    ensures below { (tree : SearchTree) (budget : ℕ) (events : List PlainEvent)
        → AreBelow (length (replay tree budget events).entries)
        (map entry_number (replay tree budget events).entries) }
    ensures order { (tree : SearchTree) (budget : ℕ) (events : List PlainEvent)
        → AreFromLeft (task_paths (replay tree budget events).entries) }
    ensures apart { (tree : SearchTree) (budget : ℕ) (events : List PlainEvent)
        → OutsAreApart (replay tree budget events).entries }
    ensures right { (tree : SearchTree) (budget : ℕ) (events : List PlainEvent)
        → AreTasksRight tree budget (replay tree budget events).entries }
    ensures once { (tree : SearchTree) (budget : ℕ) (events : List PlainEvent)
        → AreDistinct (finished_paths tree budget board_start events) }
    ensures joined { (tree : SearchTree) (budget : ℕ) (events : List PlainEvent)
        → is_board_over budget (replay tree budget events) ≡ true
        → (replay tree budget events).is_short ≡ false
        → board_joined budget (replay tree budget events) ≡ under_budget budget (outcome tree) }
{}

/// The outcome under the budget is one that a task may be finished with, and so is the outcome
/// under any other cap where it isn't past.
pub fn pieces_are_outcomes()
    ensures budget { (budget : ℕ) (verdict : Verdict)
        → IsOutcomeOf budget verdict (under_budget budget verdict) }
    ensures cap { (budget cap : ℕ) (verdict : Verdict) → (¬ (under_budget cap verdict ≡ Past))
        → IsOutcomeOf budget verdict (under_budget cap verdict) }
{}
