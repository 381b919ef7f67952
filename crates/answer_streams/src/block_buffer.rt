//! A sink that stands before another one and holds back up to 4,096 bytes.
ghost use Rattle.std.specs.Prelude.{◌≡◌, ◌<◌, ◌≤◌, ◌+◌, ◌-◌, ◌++◌, ℕ, List, min, length, take, OnOk};
ghost use Rattle.pack_streams.specs.Faults.{FaultCount, Stays, FailedOnce};
ghost use Rattle.pack_streams.specs.Moves.{Appended};
ghost use Rattle.pack_streams.specs.Writing.{CountsWriting, Writes};
ghost use Rattle.answer_streams.specs.Fronts.{IsReportedFront, part_of, shown};
ghost use Rattle.std.proofs.Props.{props};

use pack_streams::{Sink, WriteAnswer, WriteFault};
use std::marker::{Brand, PhantomData};

// What is offered to the sink behind at once.
const BLOCK: usize = 4096;

/// Which sink stands behind a buffer: the ghost name of the reference to it, and what was written
/// to it at first.
pub trait SinkBrand {
    ghost use Rattle.std.specs.Prelude.{ℕ, List};
    ghost use Rattle.std.specs.declared.option.Option.{Option};

    ghost name: { ℕ };

    ghost begun: { Option (List ℕ) };
}

impl SinkBrand for Brand {
    ghost use Rattle.std.specs.Prelude.{None};

    ghost name = { 0 };

    ghost begun = { None };
}

/// A sink that is returned, with what became of the text that was written to it.
#[derive(Drop)]
pub struct Flushed<'a, K> {
    pub out: &'a mut K,
    pub result: Result<(), WriteFault>,
}

/// A sink before `out`, with one block. It holds back the bytes of the block from `start` to `end`.
#[derive(Drop)]
pub struct BlockBuffer<'a, K: Sink, B: SinkBrand> {
    pub out: &'a mut K,
    pub block: [u8; 4096],
    pub start: usize,
    pub end: usize,
    pub behind: PhantomData<B>,
    ghost same: { out.ghost_name ≡ B.name },
    ghost since: { IsReportedFront B.begun (K.written out.now) } by { Prim.hlevel props },
    ghost ordered: { start ≤ end },
    ghost within: { end ≤ 4096 },
}

// Gives the piece to the sink until it fails, and answers how many bytes it took.
fn give<K: Sink>(out: &mut K, piece: &[u8]) -> usize
    ensures within { result ≤ length piece.now }
    ensures moves { Appended (K.written out.old) (K.written out.new) (take result piece.now) }
    ensures still { result ≡ length piece.now → Stays (K.faults out.old) (K.faults out.new) }
    ensures cause { result < length piece.now
        → FailedOnce (K.faults out.old) (K.faults out.new) }
{
    let mut done = 0;
    while done < piece.len() {
        match out.write(&piece[done..]) {
            WriteAnswer::Took(count) => done += count,
            WriteAnswer::Failed => return done,
        }
    }
    done
}

// The same for the part of the block from `start` to `end`.
fn give_part<K: Sink>(out: &mut K, block: &[u8], start: usize, end: usize) -> usize
    requires ordered { start ≤ end }
    requires within { end ≤ length block.now }
    ensures within { result ≤ end - start }
    ensures moves { Appended (K.written out.old) (K.written out.new)
        (take result (part_of block.now start end)) }
    ensures still { result ≡ end - start → Stays (K.faults out.old) (K.faults out.new) }
    ensures cause { result < end - start → FailedOnce (K.faults out.old) (K.faults out.new) }
{
    give(out, &block[start..end])
}

// Puts the beginning of the piece into the block, from `end` on, and answers how many bytes found
// room.
fn put(block: &mut [u8], end: usize, piece: &[u8]) -> usize
    requires { end ≤ length block.old }
    ensures count { result ≡ min (length piece.now) (length block.old - end) }
    ensures bytes { take (end + result) block.new ≡ take end block.old ++ take result piece.now }
    ensures len { length block.new ≡ length block.old }
{
    let count = piece.len().min(block.len() - end);
    block[end..end + count].copy_from_slice(&piece[..count]);
    count
}

impl<'a, K: Sink, B: SinkBrand> BlockBuffer<'a, K, B> {
    /// Gives what is held back to the sink behind. Where that fails, the rest is still held back.
    pub fn empty(&mut self) -> Result<(), WriteFault>
        ensures shown { shown (K.written self.new.out.now) self.new.block self.new.start
            self.new.end
            ≡ shown (K.written self.old.out.now) self.old.block self.old.start self.old.end }
        ensures empty { OnOk result (self.new.start ≡ self.new.end) }
        ensures count { CountsWriting (K.faults self.old.out.now) (K.faults self.new.out.now)
            result }
    {
        let taken = give_part(self.out, &self.block, self.start, self.end);
        self.start += taken;
        if self.start < self.end {
            return Err(WriteFault);
        }
        Ok(())
    }
}

impl<'a, K: Sink, B: SinkBrand> BlockBuffer<'a, K, B> {
    // Empties the block where it is full.
    fn make_room(&mut self) -> Result<(), WriteFault>
        ensures shown { shown (K.written self.new.out.now) self.new.block self.new.start
            self.new.end
            ≡ shown (K.written self.old.out.now) self.old.block self.old.start self.old.end }
        ensures room { OnOk result (self.new.end < 4096) }
        ensures count { CountsWriting (K.faults self.old.out.now) (K.faults self.new.out.now)
            result }
    {
        if self.end < BLOCK {
            return Ok(());
        }
        self.empty()?;
        self.start = 0;
        self.end = 0;
        Ok(())
    }
}

/// A buffer before the sink, which is named by the ghost name of the reference to it. Nothing is
/// held back yet.
pub(crate) fn buffer_over<'a, K: Sink, B: SinkBrand>(out: &'a mut K) -> BlockBuffer<'a, K, B>
    requires name { out.ghost_name ≡ B.name }
    requires begun { K.written out.now ≡ B.begun }
    ensures shown { shown (K.written result.out.now) result.block result.start result.end
        ≡ K.written out.entry.now }
    ensures faults { K.faults result.out.now ≡ K.faults out.entry.now }
    ensures same { result.out.ghost_name ≡ out.entry.ghost_name }
{
    BlockBuffer {
        out,
        block: [0u8; 4096],
        start: 0,
        end: 0,
        behind: PhantomData,
    }
}

// The sink behind a buffer, with what became of the text.
fn unwrap_sink<'a, K: Sink, B: SinkBrand>(
    front: BlockBuffer<'a, K, B>,
    written: Result<(), WriteFault>,
) -> Flushed<'a, K>
    ensures same { result.out.ghost_name ≡ front.entry.out.ghost_name }
    ensures out { result.out.now ≡ front.entry.out.now }
    ensures result { result.result ≡ written }
{
    let BlockBuffer {
        out,
        block: _,
        start: _,
        end: _,
        behind: _,
    } = front;
    Flushed {
        out,
        result: written,
    }
}

/// Returns the sink behind a buffer to which a text was written. Where all of the text was written,
/// what is held back is passed on first.
pub(crate) fn flush_and_unwrap<'a, K: Sink, B: SinkBrand>(
    mut front: BlockBuffer<'a, K, B>,
    written: Result<(), WriteFault>,
) -> Flushed<'a, K>
    ensures same { result.out.ghost_name ≡ front.entry.out.ghost_name }
    ensures written { (before : FaultCount) (text : List ℕ)
        → Writes B.begun (shown (K.written front.entry.out.now) front.entry.block front.entry.start
        front.entry.end)
        before (K.faults front.entry.out.now) text written
        → Writes B.begun (K.written result.out.now) before (K.faults result.out.now) text
        result.result }
{
    match written {
        Ok(()) => {
            let result = front.empty();
            unwrap_sink(front, result)
        }
        Err(fault) => unwrap_sink(front, Err(fault)),
    }
}

impl<'a, K: Sink, B: SinkBrand> Sink for BlockBuffer<'a, K, B> {
    ghost written = { λ f. shown (K.written f.out.now) f.block f.start f.end };

    ghost faults = { λ f. K.faults f.out.now };

    fn write(&mut self, piece: &[u8]) -> WriteAnswer {
        if self.make_room().is_err() {
            return WriteAnswer::Failed;
        }
        let count = put(&mut self.block, self.end, piece);
        self.end += count;
        WriteAnswer::Took(count)
    }
}
