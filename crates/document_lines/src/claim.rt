//! The claim of a result line.
ghost use Rattle.std.specs.Prelude.{◌≡◌, ◌≤◌, ◌<◌, ℕ, ◌^◌, drop, length, codes, IfOk, slice_index_or, [], Ok};
ghost use Rattle.std.specs.declared.result.Result.{Result};
ghost use Rattle.packing_terms.specs.Packing.{PlainInstance};
ghost use Rattle.packing_terms.specs.Limits.{max_height};
ghost use Rattle.text_terms.specs.Claims.{max_worth};
ghost use Rattle.text_terms.specs.declared.claim.Claim.{Claim as PlainClaim};
ghost use Rattle.text_terms.specs.declared.claim.Claim.TheVariants.{LeastHeight, HeightBetween, LeastBins, BinsBetween, GreatestValue, ValueBetween};
ghost use Rattle.text_terms.specs.declared.claim.SolvingJob.TheVariants.{Fit, Strip, Bins, Knapsack};
ghost use Rattle.verdict_terms.specs.Results.{none_claim, one_claim, two_claim, claim_of};
ghost use Rattle.verdict_terms.specs.Trees.{map_ok};
ghost use Rattle.document_lines.specs.Words.{claimed_fit};
ghost use Rattle.verdict_terms.specs.Stages.{rest_of};

use crate::words::{FORM, RANGE, number_at};
use box_instances::Instance;
use instance_text::{LineLexer, is_same};
use text_terms::{Claim, SolvingJob};
use verdict_terms::Reason;

// The most that a height is, and the most that a value is.
const MOST_HEIGHT: u128 = 128_000_000;

const MOST_WORTH: u128 = 128_000_000_001;

// `none`.
fn none_claim(line: &LineLexer, claim: Claim) -> Result<Claim, Reason>
    requires { 2 ≤ length line.now.held.words }
    ensures { result ≡ none_claim claim (slice_index_or line.now.held.words 1 []) }
{
    // For the proof alone: states the limits of the line's words.
    let _count = line.word_count();
    if is_same(line.word(1), b"none") {
        Ok(claim)
    } else {
        Err(FORM)
    }
}

// The number behind this word, within these ends.
fn one_number(line: &LineLexer, key: &[u8], low: u128, high: u128) -> Result<u64, Reason>
    requires words { 3 ≤ length line.now.held.words }
    requires small { high < 2 ^ 64 }
    ensures limit { IfOk result (λ n. n ≤ high) }
    ensures number { (make : ℕ → PlainClaim) → map_ok make result
        ≡ one_claim key.now low high make (slice_index_or line.now.held.words 1 [])
        (slice_index_or line.now.held.words 2 []) }
{
    // For the proof alone: states the limits of the line's words.
    let _count = line.word_count();
    if !is_same(line.word(1), key) {
        return Err(FORM);
    }
    let number = number_at(line, 2)?;
    if (low <= number) & (number <= high) {
        Ok(number as u64)
    } else {
        Err(RANGE)
    }
}

// The two numbers behind `between`, the first below the second, which is within the end.
fn two_numbers(line: &LineLexer, high: u128) -> Result<(u64, u64), Reason>
    requires words { 4 ≤ length line.now.held.words }
    requires small { high < 2 ^ 64 }
    ensures limit { IfOk result (λ p. (p.0 ≤ high) × (p.1 ≤ high)) }
    ensures numbers { (make : ℕ → ℕ → PlainClaim) → map_ok (λ (p : ℕ × ℕ). make p.0 p.1) result
        ≡ two_claim high make (slice_index_or line.now.held.words 1 [])
        (slice_index_or line.now.held.words 2 []) (slice_index_or line.now.held.words 3 []) }
{
    // For the proof alone: states the limits of the line's words.
    let _count = line.word_count();
    if !is_same(line.word(1), b"between") {
        return Err(FORM);
    }
    let first = number_at(line, 2)?;
    let second = number_at(line, 3)?;
    if (first < second) & (second <= high) {
        Ok((first as u64, second as u64))
    } else {
        Err(RANGE)
    }
}

// What `fit` claims.
fn fit_claim(line: &LineLexer) -> Result<Claim, Reason>
    requires { 1 ≤ length line.now.held.words }
    ensures { (instance : PlainInstance)
        → result ≡ claim_of Fit instance (rest_of line.now.held.words) }
{
    if line.word_count() == 2 {
        return claimed_fit(line.word(1));
    }
    Err(FORM)
}

// What one word claims of `fit`.
fn claimed_fit(word: &[u8]) -> Result<Claim, Reason>
    ensures { result ≡ claimed_fit word.now }
{
    if is_same(word, b"yes") {
        return Ok(Claim::Fitting);
    }
    if is_same(word, b"no") {
        return Ok(Claim::NotFitting);
    }
    if is_same(word, b"undecided") {
        return Err(Reason::NoClaim);
    }
    Err(FORM)
}

// What `strip` claims of two words.
fn least_height(line: &LineLexer) -> Result<Claim, Reason>
    requires { 3 ≤ length line.now.held.words }
    ensures { result ≡ one_claim (codes "least") 1 max_height LeastHeight
        (slice_index_or line.now.held.words 1 []) (slice_index_or line.now.held.words 2 []) }
{
    let height = one_number(line, b"least", 1, MOST_HEIGHT)?;
    Ok(Claim::LeastHeight {
        height: height as u32,
    })
}

// What `strip` claims of three words.
fn height_between(line: &LineLexer) -> Result<Claim, Reason>
    requires { 4 ≤ length line.now.held.words }
    ensures { result ≡ two_claim max_height HeightBetween (slice_index_or line.now.held.words 1 [])
        (slice_index_or line.now.held.words 2 []) (slice_index_or line.now.held.words 3 []) }
{
    let (refuted, placed) = two_numbers(line, MOST_HEIGHT)?;
    Ok(Claim::HeightBetween {
        refuted: refuted as u32,
        placed: placed as u32,
    })
}

// What `strip` claims.
fn strip_claim(line: &LineLexer) -> Result<Claim, Reason>
    requires { 1 ≤ length line.now.held.words }
    ensures { (instance : PlainInstance)
        → result ≡ claim_of Strip instance (rest_of line.now.held.words) }
{
    let words = line.word_count();
    if words == 2 {
        return none_claim(line, Claim::NoHeight);
    }
    if words == 3 {
        return least_height(line);
    }
    if words == 4 {
        return height_between(line);
    }
    Err(FORM)
}

// What `bins` claims of two words.
fn least_bins(line: &LineLexer, boxes: u32) -> Result<Claim, Reason>
    requires { 3 ≤ length line.now.held.words }
    ensures { result ≡ one_claim (codes "least") 1 boxes LeastBins
        (slice_index_or line.now.held.words 1 []) (slice_index_or line.now.held.words 2 []) }
{
    let bins = one_number(line, b"least", 1, boxes as u128)?;
    Ok(Claim::LeastBins { bins: bins as u32 })
}

// What `bins` claims of three words.
fn bins_between(line: &LineLexer, boxes: u32) -> Result<Claim, Reason>
    requires { 4 ≤ length line.now.held.words }
    ensures { result ≡ two_claim boxes BinsBetween (slice_index_or line.now.held.words 1 [])
        (slice_index_or line.now.held.words 2 []) (slice_index_or line.now.held.words 3 []) }
{
    let (refuted, placed) = two_numbers(line, boxes as u128)?;
    Ok(Claim::BinsBetween {
        refuted: refuted as u32,
        placed: placed as u32,
    })
}

// What `bins` claims.
fn bins_claim(instance: &Instance, line: &LineLexer) -> Result<Claim, Reason>
    requires { 1 ≤ length line.now.held.words }
    ensures { result ≡ claim_of Bins instance.now (rest_of line.now.held.words) }
{
    let words = line.word_count();
    if words == 2 {
        return none_claim(line, Claim::NoBins);
    }
    if words == 3 {
        return least_bins(line, instance.len());
    }
    if words == 4 {
        return bins_between(line, instance.len());
    }
    Err(FORM)
}

// What `knapsack` claims of two words.
fn greatest_value(line: &LineLexer) -> Result<Claim, Reason>
    requires { 3 ≤ length line.now.held.words }
    ensures { result ≡ one_claim (codes "greatest") 0 max_worth GreatestValue
        (slice_index_or line.now.held.words 1 []) (slice_index_or line.now.held.words 2 []) }
{
    let value = one_number(line, b"greatest", 0, MOST_WORTH)?;
    Ok(Claim::GreatestValue { value })
}

// What `knapsack` claims of three words.
fn value_between(line: &LineLexer) -> Result<Claim, Reason>
    requires { 4 ≤ length line.now.held.words }
    ensures { result ≡ two_claim max_worth ValueBetween (slice_index_or line.now.held.words 1 [])
        (slice_index_or line.now.held.words 2 []) (slice_index_or line.now.held.words 3 []) }
{
    let (placed, refuted) = two_numbers(line, MOST_WORTH)?;
    Ok(Claim::ValueBetween { placed, refuted })
}

// What `knapsack` claims.
fn knapsack_claim(line: &LineLexer) -> Result<Claim, Reason>
    requires { 1 ≤ length line.now.held.words }
    ensures { (instance : PlainInstance)
        → result ≡ claim_of Knapsack instance (rest_of line.now.held.words) }
{
    let words = line.word_count();
    if words == 3 {
        return greatest_value(line);
    }
    if words == 4 {
        return value_between(line);
    }
    Err(FORM)
}

/// The claim of a result line of the job. Its words are tested for their form, then for the ranges
/// of their numbers, and then for claiming something.
pub(crate) fn read_claim(
    job: SolvingJob,
    instance: &Instance,
    line: &LineLexer,
) -> Result<Claim, Reason>
    requires { 1 ≤ length line.now.held.words }
    ensures { result ≡ claim_of job instance.now (rest_of line.now.held.words) }
{
    match job {
        SolvingJob::Fit => fit_claim(line),
        SolvingJob::Strip => strip_claim(line),
        SolvingJob::Bins => bins_claim(instance, line),
        SolvingJob::Knapsack => knapsack_claim(line),
    }
}
