//! The job `make`: an instance is made of a number, and decided.
ghost use Rattle.std.specs.Prelude.{◌≡◌, ◌≢◌, IfOk, IfErr, OnOk};
ghost use Rattle.pack_streams.specs.Moves.{Appended};
ghost use Rattle.pack_command.specs.Counts.{CountsWrites};
ghost use Rattle.pack_command.specs.Generated.{made_for, IsSummaryPartlyWritten, IsMadeOf};

use crate::stop::Stop;
use answer_streams::{Made, fit_status, stream};
use box_instances::{NoMemory, make};
use class_search::decide;
use pack_streams::Sink;
use std::alloc::Global;
use std::sync::Wait;
use std::thread::Threads;
use work_share::{Gate, Settings};

// Makes the instance of a number, and decides whether it fits.
fn made<R: Threads + Wait + Sync, G: Gate + Sync>(
    rt: &R,
    alloc: Global,
    number: u32,
    settings: &Settings,
    gate: &G,
) -> Result<Made, NoMemory>
    ensures { IfOk result (λ m. IsMadeOf number settings.now m) }
{
    let instance = make(alloc, number)?;
    let outcome = decide(rt, alloc, &instance, settings, gate)?;
    Ok(Made {
        number,
        instance,
        budget: settings.budget,
        outcome,
    })
}

/// Makes the instance of a number, decides whether it fits, and writes the three lines that report
/// it. It answers the status of the decision, or why the lines weren't written whole.
pub(crate) fn run_make<R: Threads + Wait + Sync, K: Sink, G: Gate + Sync>(
    rt: &R,
    alloc: Global,
    number: u32,
    settings: &Settings,
    out: &mut K,
    gate: &G,
) -> Result<u8, Stop>
    ensures status { IfOk result (λ status. status ≡ (made_for number settings.now).status) }
    ensures written { OnOk result
        (Appended (K.written out.old) (K.written out.new) (made_for number settings.now).text) }
    ensures cut { IfErr result
        (IsSummaryPartlyWritten number settings.now (K.written out.old) (K.written out.new)) }
    ensures unwritten { IfErr result (λ stop. stop ≢ Stop.WriteFault → out.new ≡ out.old) }
    ensures writes { CountsWrites (K.faults out.old) (K.faults out.new) result }
{
    let Ok(made) = made(rt, alloc, number, settings, gate) else {
        return Err(Stop::NoMemory);
    };
    match stream(out, &made) {
        Ok(()) => Ok(fit_status(&made.outcome)),
        Err(_) => Err(Stop::WriteFault),
    }
}
