//! Solving: what a job finds for an instance.
ghost use Rattle.std.specs.Prelude.{IfOk};
ghost use Rattle.packing_terms.specs.Limits.{IsInstance};
ghost use Rattle.answer_streams.specs.Solutions.{IsSolution};

use answer_streams::Solution;
use answer_terms::{DocumentJob, ReducedJob};
use bin_knapsack::{greatest_value, least_bins};
use box_instances::{Instance, NoMemory};
use class_search::decide;
use std::alloc::Global;
use std::sync::Wait;
use std::thread::Threads;
use strip_solver::{least_height, least_height_reduced};
use symmetry_facts::decide_reduced;
use text_terms::SolvingJob;
use work_share::{Gate, Settings};

// What a solving job finds for an instance under these settings.
fn solve_plain<R: Threads + Wait + Sync, G: Gate + Sync>(
    rt: &R,
    alloc: Global,
    instance: &Instance,
    job: SolvingJob,
    settings: Settings,
    gate: &G,
) -> Result<Solution, NoMemory>
    requires limits { IsInstance instance.now }
    ensures { IfOk result (λ s. IsSolution (DocumentJob.Solving job) settings instance.now s) }
{
    match job {
        SolvingJob::Fit => {
            let outcome = decide(rt, alloc, instance, &settings, gate)?;
            Ok(Solution::Fit(outcome))
        }
        SolvingJob::Strip => {
            let strip = least_height(rt, alloc, instance, &settings, gate)?;
            Ok(Solution::Strip(strip))
        }
        SolvingJob::Bins => {
            let bins = least_bins(rt, alloc, instance, &settings, gate)?;
            Ok(Solution::Bins(bins))
        }
        SolvingJob::Knapsack => {
            let choice = greatest_value(rt, alloc, instance, &settings, gate)?;
            Ok(Solution::Knapsack(choice))
        }
    }
}

// What a job finds for an instance from its symmetry facts on.
fn solve_reduced<R: Threads + Wait + Sync, G: Gate + Sync>(
    rt: &R,
    alloc: Global,
    instance: &Instance,
    job: ReducedJob,
    settings: Settings,
    gate: &G,
) -> Result<Solution, NoMemory>
    requires limits { IsInstance instance.now }
    ensures { IfOk result (λ s. IsSolution (DocumentJob.Reduced job) settings instance.now s) }
{
    match job {
        ReducedJob::Fit => {
            let outcome = decide_reduced(rt, alloc, instance, &settings, gate)?;
            Ok(Solution::Reduced(outcome))
        }
        ReducedJob::Strip => {
            let strip = least_height_reduced(rt, alloc, instance, &settings, gate)?;
            Ok(Solution::ReducedStrip(strip))
        }
    }
}

/// What a job that answers with a document finds for an instance under these settings.
pub(crate) fn solve<R: Threads + Wait + Sync, G: Gate + Sync>(
    rt: &R,
    alloc: Global,
    instance: &Instance,
    job: DocumentJob,
    settings: Settings,
    gate: &G,
) -> Result<Solution, NoMemory>
    requires limits { IsInstance instance.now }
    ensures { IfOk result (λ s. IsSolution job settings instance.now s) }
{
    match job {
        DocumentJob::Solving(job) => solve_plain(rt, alloc, instance, job, settings, gate),
        DocumentJob::Reduced(job) => solve_reduced(rt, alloc, instance, job, settings, gate),
    }
}
