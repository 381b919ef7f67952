//! A line of one letter and a few numbers, written in one piece.
ghost use Rattle.std.specs.Prelude.{◌≡◌, ◌≤◌, ◌+◌, ◌*◌, ◌-◌, ◌∷◌, ◌++◌, [], length, take, drop, map, replicate};
ghost use Rattle.std.specs.Fmt.{decimal};
ghost use Rattle.pack_streams.specs.Writing.{Continues};
ghost use Rattle.instance_text.specs.Writing.{after_spaces};

use pack_streams::{Sink, WriteFault, write_on};

// The places of a letter, of three numbers with a space before each, and of the line feed; a number
// of 64 bits has 20 digits at most.
const PLACES: usize = 65;

// Puts a space and the digits of a number before what stands from `end` on, and answers where they
// begin. Before that are spaces alone.
fn put_number(room: &mut [u8; 65], end: usize, number: u32) -> usize
    requires room { 21 ≤ end }
    requires inside { end ≤ 65 }
    requires spaces { take end room.old ≡ replicate end 32 }
    ensures near { end ≤ result + 21 }
    ensures below { result + 1 ≤ end }
    ensures spaces { take result room.new ≡ replicate result 32 }
    ensures written { drop result room.new ≡ 32 ∷ (decimal number ++ drop end room.old) }
{
    itoa::write_digits(number as u64, room, end) - 1
}

// Puts numbers before the line feed, each after a space, the last one first, and answers where they
// begin. Before that are spaces alone.
fn put_numbers(room: &mut [u8; 65], numbers: &[u32]) -> usize
    requires few { length numbers.now ≤ 3 }
    requires spaces { room.old ≡ replicate 64 32 ++ 10 ∷ [] }
    ensures near { 1 ≤ result }
    ensures inside { result ≤ 64 }
    ensures written { drop result room.new ≡ after_spaces (map decimal numbers.now) ++ 10 ∷ [] }
{
    let mut start = PLACES - 1;
    for k in 0..numbers.len() {
        start = put_number(room, start, numbers[numbers.len() - 1 - k]);
    }
    start
}

// Writes the line of a letter and at most three numbers, with single spaces, where no fault came
// before, and else does nothing. A proof of many branchings is mostly such lines, and a call of the
// sink for each word of them took a seventh of some runs.
pub(crate) fn write_line<K: Sink>(
    sink: &mut K,
    so_far: Result<(), WriteFault>,
    letter: u8,
    numbers: &[u32],
) -> Result<(), WriteFault>
    requires { length numbers.now ≤ 3 }
    ensures { Continues (K.written sink.old) (K.written sink.new) (K.faults sink.old)
        (K.faults sink.new)
        (letter ∷ (after_spaces (map decimal numbers.now) ++ 10 ∷ [])) so_far result }
{
    let mut room = [b' '; PLACES];
    room[PLACES - 1] = b'\n';
    let start = put_numbers(&mut room, numbers) - 1;
    room[start] = letter;
    write_on(sink, so_far, &room[start..])
}
