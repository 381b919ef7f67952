//! The top call.
ghost use Rattle.std.specs.Prelude.{◌≡◌, ◌≢◌, ◌≤◌, ◌+◌, ◌⊎◌, ℕ, Bool, List, String, Err, IfOk, IfErr};
ghost use Rattle.std.specs.declared.alloc.Global.{Global as PlainGlobal};
ghost use Rattle.packing_terms.specs.Packing.{PlainInstance};
ghost use Rattle.pack_streams.specs.Moves.{Appended};
ghost use Rattle.answer_terms.specs.declared.job.DocumentJob.{DocumentJob as PlainJob};
ghost use Rattle.answer_terms.specs.declared.job.DocumentJob.TheVariants.{Solving as Solves};
ghost use Rattle.text_terms.specs.declared.claim.SolvingJob.{SolvingJob as PlainSolvingJob};
ghost use Rattle.text_terms.specs.declared.claim.SolvingJob.TheVariants.{Fit as SolvesFit};
ghost use Rattle.pack_command.specs.Answered.{answer_for, class_bound, IsAnswerStatus, IsBudgetSufficient};
ghost use Rattle.pack_command.specs.Asked.{Plain, ValueBounds, HeightBounds, AsksToSolve, AsksCheck, AsksToMake, AsksAudit, IsSolving, IsChecking, IsAuditing, IsExplaining, IsFrontRun, IsProposalRun, HasAnswer, ReadsNothing, IsRefusable};
ghost use Rattle.pack_command.specs.Audits.{IsVerifiedAuditClaim};
ghost use Rattle.pack_command.specs.Bounded.{IsBoundedDecided, IsBoundsAmple, IsOwnBounded};
ghost use Rattle.pack_command.specs.BoundedHeights.{AreHeightsDecided, AreHeightsAmple};
ghost use Rattle.pack_command.specs.Readings.{Audits, Explains, IsTaskOutput};
ghost use Rattle.pack_command.specs.Checks.{IsVerdictOutput, IsVerifiedClaim};
ghost use Rattle.pack_command.specs.Counts.{CountsReads, CountsWrites, CountsStatus, IsFaultStatus};
ghost use Rattle.pack_command.specs.Decides.{IsJobDecided, AsksWhetherFits, StatusDecidesFit};
ghost use Rattle.pack_command.specs.Ends.{IsJobCompleted, IsJobAborted};
ghost use Rattle.pack_command.specs.Fronts.{front_for, IsFrontDecided, IsFrontOutputVerified};
ghost use Rattle.pack_command.specs.Generated.{IsMakeOutput};
ghost use Rattle.pack_command.specs.Own.{IsOutputVerified};
ghost use Rattle.pack_command.specs.Proposed.{IsBudgetSufficientProposed, IsProposedDecided};
ghost use Rattle.pack_command.specs.Stops.{stop_status, message_of};
ghost use Rattle.pack_command.specs.Run.{IsWritten, IsStopped, IsMessageWritten};
ghost use Rattle.pack_command.specs.declared.stop.Stop.{Stop as PlainStop};
ghost use Rattle.text_terms.specs.declared.settings.Settings.{Settings as PlainSettings};

use crate::auditing::audit;
use crate::bounding::run_bounded;
use crate::bounding_heights::run_bounded_strip;
use crate::checking::check;
use crate::explaining::explain;
use crate::front_job::run_front;
use crate::input::read_input;
use crate::make_job::run_make;
use crate::proposal_job::run_proposed;
use crate::solving::solve;
use crate::stop::Stop;
use crate::words::{Asked, read_job};
use answer_streams::{AnswerDocument, stream};
use answer_terms::DocumentJob;
use pack_streams::{Sink, Source};
use std::alloc::Global;
use std::sync::Wait;
use std::thread::Threads;
use work_share::{Gate, Settings};

/// Does the job that the words name, and answers the status that the program ends with.
///
/// Status 0 is yes, least, greatest, verified or a whole front, 1 is no, none, refused or an empty
/// front, and 3 is undecided, between or a part of a front: the answer is whole before its first
/// byte goes to `out`, the document, the one line of `check` or `audit` or the three lines of
/// `make` are written whole, and nothing to `err`. With every other status one line on `err` names
/// the cause: 2 the words, the length or the text of the input, or for `front` that it hasn't two
/// dimensions; 4 a failed read; 5 a failed write, after a part at the front of what was to be
/// written; 6 out of memory. With 2, 4 and 6 nothing was written to `out`. In what pieces bytes go
/// out is said by no clause: the tests show pieces of 4,096 bytes.
///
/// Several workers share each search tree. Nothing that is written depends on their number, or on
/// the gate, which they call around the exploring of each task. For jobs with proposals, for
/// `knapsack` with priced leaves and for `strip` with families no clause says so: it holds by
/// structure, since what a search proposes doesn't depend on the number of workers, and a tree is
/// decided with the same outcome by any number of workers.
pub fn run<R: Threads + Wait + Sync, S: Source, K: Sink, E: Sink, G: Gate + Sync>(
    rt: &R,
    alloc: Global,
    words: &[String],
    input: &mut S,
    out: &mut K,
    err: &mut E,
    gate: &G,
) -> u8
    // The answer of a solving job, of `reduced` or of `strip` with facts is true of the instance
    // that the input is the text of: `fit` and `reduced` are yes with a packing or no with a
    // refutation, exactly as a packing exists, or undecided exactly where the tree has more
    // branchings than the budget; the others are least or greatest over all packings, none exactly
    // where there is none, or between two levels exactly where the tree of a level that is decided
    // has more branchings than the budget, with both certificates. Of `reduced` and of `strip` with
    // facts the trees begin with the symmetry facts, and the refutations are under them.
    ensures decides { (job : PlainJob) (settings : PlainSettings) (instance : PlainInstance)
        → IsSolving words.now (S.left input.old) job settings instance → IsAnswerStatus result
        → IsJobDecided job instance settings (K.written out.old) (K.written out.new) result }

    // It is the answer of the definition, in which the number of workers has no part.
    ensures answers { (job : PlainJob) (settings : PlainSettings) (instance : PlainInstance)
        → IsSolving words.now (S.left input.old) job settings instance → IsAnswerStatus result
        → (result ≡ (answer_for job settings instance).status)
        × Appended (K.written out.old) (K.written out.new) (answer_for job settings instance).text }

    // None is undecided or between where the budget is enough for every tree of the job: then the
    // status of `fit` or `reduced` says exactly whether the instance fits.
    ensures enough { (job : PlainJob) (settings : PlainSettings) (instance : PlainInstance)
        → IsSolving words.now (S.left input.old) job settings instance
        → IsBudgetSufficient job instance settings.budget → result ≢ 3 }
    ensures fits { (job : PlainJob) (settings : PlainSettings) (instance : PlainInstance)
        → IsSolving words.now (S.left input.old) job settings instance → AsksWhetherFits job
        → IsAnswerStatus result → class_bound instance ≤ settings.budget + 1
        → StatusDecidesFit instance result }

    // The document is verified with a claim of the job about that instance, that of `reduced` or of
    // `strip` with facts as a reduced one, or it says undecided, for `fit` and `reduced` alone, and
    // is verified with none.
    ensures verified { (job : PlainJob) (settings : PlainSettings) (instance : PlainInstance)
        → IsSolving words.now (S.left input.old) job settings instance → IsAnswerStatus result
        → IsOutputVerified job instance (K.written out.old) (K.written out.new) result }

    // `check` writes exactly the line of the verdict on the input, with its status, and what it
    // verifies is true of the instance in the document.
    ensures check_exact { (bytes : List ℕ) → IsChecking words.now (S.left input.old) bytes
        → IsAnswerStatus result
        → IsVerdictOutput bytes (K.written out.old) (K.written out.new) result }
    ensures check_sound { AsksCheck words.now → result ≡ 0
        → IsVerifiedClaim (S.left input.old) (S.left input.new) (K.written out.old)
        (K.written out.new) }

    // `audit` writes exactly the line of the verdict on the input as a document of its kind,
    // reduced, bounded, explained or of a front, with its status, and what it verifies is true: the
    // claim of a reduced or bounded document of the instance in it, that the instance of an
    // explained one has no packing, and that the points of a front are all least sizes of its
    // instance, or all up to the last of them, and as many as the line says. A bounded document may
    // have as many bytes as one that `check` reads.
    ensures audit_exact { (bytes : List ℕ) → IsAuditing words.now (S.left input.old) bytes
        → IsAnswerStatus result
        → IsTaskOutput Audits bytes (K.written out.old) (K.written out.new) result }
    ensures audit_sound { AsksAudit words.now → result ≡ 0
        → IsVerifiedAuditClaim (S.left input.old) (S.left input.new) (K.written out.old)
        (K.written out.new) }

    // `explain` refuses what `check` refuses, with its line, and at the result line any claim but a
    // no of `fit`. Of such a no it writes a document that explains the refutation in it step by
    // step: the instance is the same, its tokens stand among the steps in order, `audit` verifies
    // it, and the instance has no packing.
    ensures explains { (bytes : List ℕ) → IsExplaining words.now (S.left input.old) bytes
        → IsAnswerStatus result
        → IsTaskOutput Explains bytes (K.written out.old) (K.written out.new) result }

    // The answer of `front` is true of the instance that the input is the text of, which has two
    // dimensions: all least widths and heights of a container in which the boxes fit, each once, by
    // rising width, each with a packing, and refutations of what is below them; or all up to the
    // last one exactly where a container that is decided has more branchings than the budget.
    ensures front_sound { (settings : PlainSettings) (instance : PlainInstance)
        → IsFrontRun words.now (S.left input.old) settings instance → IsAnswerStatus result
        → IsFrontDecided instance settings (K.written out.old) (K.written out.new) result }

    // It is the answer of the definition, in which the number of workers has no part; it is whole
    // where the budget is enough for each container; and `audit` verifies its document as a front
    // of that instance.
    ensures front_exact { (settings : PlainSettings) (instance : PlainInstance)
        → IsFrontRun words.now (S.left input.old) settings instance → IsAnswerStatus result
        → (result ≡ (front_for settings instance).status)
        × Appended (K.written out.old) (K.written out.new) (front_for settings instance).text }
    ensures whole { (settings : PlainSettings) (instance : PlainInstance)
        → IsFrontRun words.now (S.left input.old) settings instance
        → class_bound instance ≤ settings.budget + 1 → result ≢ 3 }
    ensures front_verified { (settings : PlainSettings) (instance : PlainInstance)
        → IsFrontRun words.now (S.left input.old) settings instance → IsAnswerStatus result
        → IsFrontOutputVerified instance (K.written out.old) (K.written out.new) result }

    // The answer of a job with proposals is true of the instance that the input is the text of.
    // `fit` is yes only with a packing, no only with a refutation, which has no `v` line under
    // `--scales no`, and undecided only where the class tree has more branchings than the budget.
    // `strip` is the least height over all packings with both certificates, none exactly where
    // there is none, or between two heights with both certificates, only where the class trees of
    // both heights beside the two have more branchings than the share of the budget (`level_share`:
    // all of a budget up to 2,000, else 2,000, or a 500th where that is more). `knapsack` is the
    // same of values and their choice trees, with the greatest for the least, and never none;
    // `bins` of numbers of bins and their bin trees, with the whole budget for the share.
    ensures proposals_sound { (job : PlainSolvingJob) (settings : PlainSettings)
        (instance : PlainInstance)
        → IsProposalRun words.now (S.left input.old) (Plain job) settings instance
        → IsAnswerStatus result
        → IsProposedDecided job instance settings (K.written out.old) (K.written out.new) result }

    // Where the trees of the job have no more branchings than the budget (`fit`, `bins`) or its
    // share (`strip`, `knapsack`), it is decided; where the budget is enough for every tree, the
    // status of `fit` says exactly whether the instance fits.
    ensures proposals_budget_suffices { (job : PlainSolvingJob) (settings : PlainSettings)
        (instance : PlainInstance)
        → IsProposalRun words.now (S.left input.old) (Plain job) settings instance
        → IsBudgetSufficientProposed job settings instance → result ≢ 3 }
    ensures proposals_decide_fit { (settings : PlainSettings) (instance : PlainInstance)
        → IsProposalRun words.now (S.left input.old) (Plain SolvesFit) settings instance
        → IsAnswerStatus result
        → class_bound instance ≤ settings.budget + 1 → StatusDecidesFit instance result }

    // The document is one of the job: verified with its claim about that instance, or, of `fit`
    // alone, it says undecided and is verified with none.
    ensures proposals_verified { (job : PlainSolvingJob) (settings : PlainSettings)
        (instance : PlainInstance)
        → IsProposalRun words.now (S.left input.old) (Plain job) settings instance
        → IsAnswerStatus result
        → IsOutputVerified (Solves job) instance (K.written out.old) (K.written out.new) result }

    // With `--bounds yes` `knapsack` is the greatest value over all sets of boxes that fit, with
    // both certificates, or two values between which it lies, with both. There are two only if the
    // run without priced leaves, by the same words but `--bounds`, ends open: a value that it
    // decides has a choice tree with more branchings than the budget, and the two lie within its
    // values. With proposals the two lie within two others, and the trees of the value above the
    // lower one and of the value below the upper one have more branchings than the share of the
    // budget.
    ensures value_bounds_sound { (proposals : Bool) (settings : PlainSettings)
        (instance : PlainInstance)
        → IsProposalRun words.now (S.left input.old) (ValueBounds proposals) settings instance
        → IsAnswerStatus result
        → IsBoundedDecided proposals instance settings (K.written out.old) (K.written out.new)
        result }

    // It is the greatest value where the budget, or with proposals its share, is enough for the
    // tree of every value; and `audit` verifies the document with its claim about that instance.
    ensures value_bounds_budget_suffices { (proposals : Bool) (settings : PlainSettings)
        (instance : PlainInstance)
        → IsProposalRun words.now (S.left input.old) (ValueBounds proposals) settings instance
        → IsBoundsAmple proposals settings instance → result ≢ 3 }
    ensures value_bounds_verified { (proposals : Bool) (settings : PlainSettings)
        (instance : PlainInstance)
        → IsProposalRun words.now (S.left input.old) (ValueBounds proposals) settings instance
        → IsAnswerStatus result
        → IsOwnBounded instance (K.written out.old) (K.written out.new) result }

    // With `--bounds yes` `strip` is the least height over all packings, with both certificates, or
    // two heights between which it lies, with both, or none exactly where a box is too wide. There
    // are two only if the run without families, by the same words but `--bounds`, ends open: a
    // height that it decides has a class tree with more branchings than the budget, and the two lie
    // within its heights. With proposals the two lie within two others, and the trees of the height
    // above the lower one and of the height below the upper one have more branchings than the share
    // of the budget.
    ensures height_bounds_sound { (proposals : Bool) (settings : PlainSettings)
        (instance : PlainInstance)
        → IsProposalRun words.now (S.left input.old) (HeightBounds proposals) settings instance
        → IsAnswerStatus result
        → AreHeightsDecided proposals instance settings (K.written out.old) (K.written out.new)
        result }

    // It isn't two heights where the budget, or with proposals its share, is enough for the tree of
    // every height; and `audit` verifies the document with its claim about that instance.
    ensures height_bounds_budget_suffices { (proposals : Bool) (settings : PlainSettings)
        (instance : PlainInstance)
        → IsProposalRun words.now (S.left input.old) (HeightBounds proposals) settings instance
        → AreHeightsAmple proposals settings instance → result ≢ 3 }
    ensures height_bounds_verified { (proposals : Bool) (settings : PlainSettings)
        (instance : PlainInstance)
        → IsProposalRun words.now (S.left input.old) (HeightBounds proposals) settings instance
        → IsAnswerStatus result
        → IsOwnBounded instance (K.written out.old) (K.written out.new) result }

    // `make` writes exactly the summary of the number, with the status of its decision: yes only
    // where the generated instance fits, no only where it doesn't, and undecided exactly where its
    // tree has more branchings than the budget.
    ensures makes { (number : ℕ) (settings : PlainSettings) → AsksToMake words.now number settings
        → IsAnswerStatus result
        → IsMakeOutput number settings (K.written out.old) (K.written out.new) result }

    // Words and an input that have an answer get one, unless a read or a write fails or memory is
    // refused. Invalid ones are refused with the message of their cause, unless a read fails or
    // memory is refused.
    ensures completes { HasAnswer words.now (S.left input.old)
        → IsAnswerStatus result ⊎ IsFaultStatus result }
    ensures refuses { (stop : PlainStop) → IsRefusable words.now (S.left input.old) stop
        → ((result ≡ 2) × IsMessageWritten (E.written err.old) (E.written err.new)
        (E.faults err.old) (E.faults err.new) (message_of stop)) ⊎ ((result ≡ 4) ⊎ (result ≡ 6)) }

    // With an answer the whole input was taken and the whole document was written. `check`, and
    // `audit` of a bounded document, take the whole input or no byte behind the refused line, and
    // write their whole line.
    ensures answered { IsAnswerStatus result
        → IsJobCompleted words.now (S.left input.old) (S.left input.new) (K.written out.old)
        (K.written out.new) result
        × (err.new ≡ err.old) }

    // Without an answer, the cause `stop` holds, and its message was written to `err`, in full
    // unless a write to `err` failed.
    ensures stopped { ¬ IsAnswerStatus result → (stop : PlainStop) × (result ≡ stop_status stop)
        × IsJobAborted words.now (S.left input.old) (S.left input.new) (K.written out.old)
        (K.written out.new) stop
        × IsMessageWritten (E.written err.old) (E.written err.new) (E.faults err.old)
        (E.faults err.new) (message_of stop) }

    // Without an answer `out` is unchanged, except after a write error (status 5). `input` is
    // unchanged if the words name no job, or `make`.
    ensures unwritten { ¬ IsAnswerStatus result → result ≢ 5 → out.new ≡ out.old }
    ensures unread { ReadsNothing words.now → (input.new ≡ input.old) × (result ≢ 4) }

    // With status 4 the source's count of faults rose, with status 5 the sink's. By an exact count
    // one call failed, and it was the last one; with any other status none failed.
    ensures reads { CountsStatus 4 result (S.faults input.old) (S.faults input.new) }
    ensures writes { CountsStatus 5 result (K.faults out.old) (K.faults out.new) }
{
    match job(rt, alloc, words, input, out, gate) {
        Ok(status) => status,
        Err(stop) => {
            // If this write fails too, there is no other place for the message.
            let _written = stop.write_message(err);
            stop.status()
        }
    }
}

// Reads an instance, solves it, and writes the document.
fn answer<R: Threads + Wait + Sync, S: Source, K: Sink, G: Gate + Sync>(
    rt: &R,
    alloc: Global,
    job: DocumentJob,
    settings: Settings,
    input: &mut S,
    out: &mut K,
    gate: &G,
) -> Result<u8, Stop>
    ensures answered { (words : List (String PlainGlobal)) → AsksToSolve words job settings
        → IfOk result (IsWritten words (S.left input.old) (S.left input.new) (K.written out.old)
        (K.written out.new)) }
    ensures status { IfOk result IsAnswerStatus }
    ensures stopped { (words : List (String PlainGlobal)) → AsksToSolve words job settings
        → IfErr result (IsStopped words (S.left input.old) (S.left input.new) (K.written out.old)
        (K.written out.new)) }
    ensures unwritten { IfErr result (λ stop. stop ≢ Stop.WriteFault → out.new ≡ out.old) }
    ensures reads { CountsReads (S.faults input.old) (S.faults input.new) result }
    ensures writes { CountsWrites (K.faults out.old) (K.faults out.new) result }
{
    let instance = read_input(alloc, input)?;
    let solution = match solve(rt, alloc, &instance, job, settings, gate) {
        Ok(solution) => solution,
        Err(_) => return Err(Stop::NoMemory),
    };
    let document = AnswerDocument {
        instance: &instance,
        solution: &solution,
    };
    match stream(out, &document) {
        Ok(()) => Ok(solution.status()),
        Err(_) => Err(Stop::WriteFault),
    }
}

// Does what the words ask for.
fn job<R: Threads + Wait + Sync, S: Source, K: Sink, G: Gate + Sync>(
    rt: &R,
    alloc: Global,
    words: &[String],
    input: &mut S,
    out: &mut K,
    gate: &G,
) -> Result<u8, Stop>
    ensures answered { IfOk result
        (IsJobCompleted words.now (S.left input.old) (S.left input.new) (K.written out.old)
        (K.written out.new)) }
    ensures status { IfOk result IsAnswerStatus }
    ensures stopped { IfErr result
        (IsJobAborted words.now (S.left input.old) (S.left input.new) (K.written out.old)
        (K.written out.new)) }
    ensures unread { ReadsNothing words.now → input.new ≡ input.old }
    ensures unwritten { IfErr result (λ stop. stop ≢ Stop.WriteFault → out.new ≡ out.old) }
    ensures reads { CountsReads (S.faults input.old) (S.faults input.new) result }
    ensures writes { CountsWrites (K.faults out.old) (K.faults out.new) result }
{
    let asked = read_job(alloc, words)?;
    match asked {
        Asked::Solving { job, settings } => answer(rt, alloc, job, settings, input, out, gate),
        Asked::Checking => check(alloc, input, out),
        Asked::Auditing => audit(alloc, input, out),
        Asked::Explaining => explain(alloc, input, out),
        Asked::Fronting { settings } => run_front(rt, alloc, &settings, input, out, gate),
        Asked::Proposing { job, settings } => {
            run_proposed(rt, alloc, job, &settings, input, out, gate)
        }
        Asked::Bounding {
            proposals,
            settings,
        } => run_bounded(rt, alloc, proposals, &settings, input, out, gate),
        Asked::BoundingHeights {
            proposals,
            settings,
        } => run_bounded_strip(rt, alloc, proposals, &settings, input, out, gate),
        Asked::Making { number, settings } => { run_make(rt, alloc, number, &settings, out, gate) }
    }
}
