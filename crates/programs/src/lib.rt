// Document 01's two programs: records are read one at a time, a step is taken on each, and its lines are written. Their `main` gives the standard streams.
#![tactic(auto)]

ghost use Rattle.std.specs.Prelude.{◌≡◌, ℕ, ◌≤◌, Bool, Err, List, IfOk, is_ok, length, replicate, take};
ghost use Rattle.record.specs.Record.{record_length};
ghost use Rattle.steps.specs.Steps.{ProgressView, StepReply, page_step, listing_step};
ghost use Rattle.steps.specs.Files.{page_room, listing_room, page_of, listing_of, StopsShort};
ghost use Rattle.steps.specs.Promises.{progress_view_of, step_from, Steps};
ghost use Rattle.programs.specs.Programs.{Runs, run_of};
ghost use Rattle.programs.specs.Inner.{running, turn_of, kept_of, FailsAt, Turns};
ghost use Rattle.programs.specs.Streams.{Takes, Adds, TurnsOn, RunsOn, WhereKnown, Draws, line_of, Says};
ghost use Rattle.steps.proofs.ShortReads.{page-stops, listing-stops};

use itoa::Buffer;
use record::RECORD;
use std::io;
use std::io::{ErrorKind, Read, Write};
use steps::{Progress, Step};

// The outputs' lengths: no record's lines need more.
const PAGE_ROOM: usize = 24576;

const LISTING_ROOM: usize = 4096;

// A read or a write that failed, and the number of the record at which it did.
#[derive(Clone, Copy)]
pub enum Failure {
    NotRead(u64),
    NotWritten(u64),
}

// What the programs differ in: the step on the bytes that were read, which stops at fewer than a record's.
trait Program {
    ghost step: { ProgressView → List ℕ → List ℕ → StepReply };

    fn step(out: &mut [u8], left: &[u8], progress: Progress) -> Step
        ensures { Steps (step (progress_view_of progress) left.now out.old) progress out.old out.new (step_from progress result) };

    ghost stops_short: { StopsShort step };
}

// The page program.
struct PageProgram;

impl Program for PageProgram {
    ghost step = { page_step };

    ghost stops_short = { page-stops };

    fn step(out: &mut [u8], left: &[u8], progress: Progress) -> Step {
        steps::page_step(out, left, progress)
    }
}

// The listing program.
struct ListingProgram;

impl Program for ListingProgram {
    ghost step = { listing_step };

    ghost stops_short = { listing-stops };

    fn step(out: &mut [u8], left: &[u8], progress: Progress) -> Step {
        steps::listing_step(out, left, progress)
    }
}

// Reads a record, and gives the count of its bytes, fewer than a record's only where the input has ended: until they are full, it ends or a read fails.
// A loop by hand, since std's `read_exact` gives no count where the input ends (`takes`).
fn read_record<I: Read>(input: &mut I, bytes: &mut [u8]) -> io::Result<usize>
    ensures within { (length bytes.new ≡ length bytes.old) × IfOk result (λ n. n ≤ length bytes.old) }
    ensures takes { IfOk result (λ n. Takes (length bytes.old) (I.remaining input.old) (I.remaining input.new) (take n bytes.new)) }
{
    let mut at = 0;
    while at < bytes.len() {
        match input.read(&mut bytes[at..])? {
            0 => return Ok(at),
            count => at += count,
        }
    }
    Ok(at)
}

// Writes all of the bytes: it stops at a write that fails or takes nothing.
// A loop by hand, since std's `write_all` and `writeln!` say nothing of what stands where a write failed (`lines` and `said` do).
fn write_whole<O: Write>(output: &mut O, bytes: &[u8]) -> io::Result<()>
    ensures { Adds (O.contents output.old) (O.contents output.new) bytes.now (is_ok result) }
{
    let mut at = 0;
    while at < bytes.len() {
        match output.write(&bytes[at..])? {
            0 => return Err(ErrorKind::WriteZero.into()),
            count => at += count,
        }
    }
    Ok(())
}

// A record's turn: it is read, a step is taken, its lines are written. It gives what the program keeps, if its step goes on.
fn take_turn<P: Program, I: Read, O: Write>(
    input: &mut I,
    output: &mut O,
    bytes: &mut [u8],
    out: &mut [u8],
    progress: Progress,
) -> Result<Option<Progress>, Failure>
    ensures turns { (length bytes.new ≡ length bytes.old) × FailsAt progress.number result
        × Turns P.step bytes.new (running progress out.old) (turn_of result) (running (kept_of progress result) out.new) }
    ensures lines { TurnsOn P.step (length bytes.old) (running progress out.old) (turn_of result) (running (kept_of progress result) out.new)
        (I.remaining input.old) (I.remaining input.new) (O.contents output.old) (O.contents output.new) }
{
    let number = progress.number;
    let Ok(count) = read_record(input, bytes) else {
        return Err(Failure::NotRead(number));
    };
    let step = P::step(out, &bytes[..count], progress);
    let Ok(()) = write_whole(output, &out[..step.length]) else {
        return Err(Failure::NotWritten(number));
    };
    Ok(step.next)
}

// Runs a program until a step stops it, and gives the number of the record at which it did. A proved loop has to end; behind its last turn, which no run
// reaches, nothing more is read.
fn run_all<P: Program, I: Read, O: Write>(
    input: &mut I,
    output: &mut O,
    bytes: &mut [u8],
    out: &mut [u8],
) -> Result<u64, Failure>
    ensures runs { Runs P.step (length bytes.old) out.old (run_of result) }
    ensures lines { length bytes.old ≡ record_length
        → WhereKnown (λ file before after. RunsOn P.step record_length out.old file before after (I.remaining input.new) (run_of result))
        (I.remaining input.old) (O.contents output.old) (O.contents output.new) }
{
    let mut progress = steps::begin();
    for _ in 0..u64::MAX {
        match take_turn::<P, I, O>(input, output, bytes, out, progress)? {
            Some(next) => progress = next,
            None => return Ok(progress.number),
        }
    }
    Err(Failure::NotRead(progress.number))
}

// Writes words and a number, a line of its own. Where a write fails, nothing is written behind it.
fn say<E: Write>(errors: &mut E, words: &[u8], number: u64) -> io::Result<()>
    ensures { Adds (E.contents errors.old) (E.contents errors.new) (line_of words.now number) (is_ok result) }
{
    let mut digits = Buffer::new();
    write_whole(errors, words)?;
    write_whole(errors, digits.format(number).as_bytes())?;
    write_whole(errors, b"\n")
}

// Says where a read or a write failed.
fn say_failure<E: Write>(errors: &mut E, failure: Failure) -> io::Result<()>
    ensures { Says (run_of (Err failure)).going (run_of (Err failure)).number (E.contents errors.old) (E.contents errors.new) (is_ok result) }
{
    match failure {
        Failure::NotRead(number) => say(errors, b"cannot read record ", number),
        Failure::NotWritten(number) => say(errors, b"cannot write record ", number),
    }
}

// Runs a program, its output beside it, and says where a read or a write failed.
fn run<P: Program, I: Read, O: Write, E: Write>(
    input: &mut I,
    output: &mut O,
    errors: &mut E,
    out: &mut [u8],
) -> Result<u64, Failure>
    ensures runs { Runs P.step record_length out.old (run_of result) }
    ensures lines { WhereKnown (λ file before after. RunsOn P.step record_length out.old file before after (I.remaining input.new) (run_of result))
        (I.remaining input.old) (O.contents output.old) (O.contents output.new) }
    ensures said { (is_said : Bool) × Says (run_of result).going (run_of result).number (E.contents errors.old) (E.contents errors.new) is_said }
{
    let mut bytes = [0u8; RECORD];
    let ended = run_all::<P, I, O>(input, output, &mut bytes, out);
    if let Err(failure) = ended {
        let _ = say_failure(errors, failure);
    }
    ended
}

// The page program: draws the records that it reads as text. Its `main` lends it standard input, standard output and standard error.
pub fn page<I: Read, O: Write, E: Write>(
    input: &mut I,
    output: &mut O,
    errors: &mut E,
) -> Result<u64, Failure>
    ensures runs { Runs page_step record_length (replicate page_room 0) (run_of result) }
    ensures lines { WhereKnown (λ file before after. RunsOn page_step record_length (replicate page_room 0) file before after
        (I.remaining input.new) (run_of result))
        (I.remaining input.old) (O.contents output.old) (O.contents output.new) }
    ensures whole { WhereKnown (Draws page_of (run_of result).going)
        (I.remaining input.old) (O.contents output.old) (O.contents output.new) }
    ensures said { (is_said : Bool) × Says (run_of result).going (run_of result).number (E.contents errors.old) (E.contents errors.new) is_said }
{
    run::<PageProgram, I, O, E>(input, output, errors, &mut [0u8; PAGE_ROOM])
}

// The listing program, beside `page`, since each promises its own page and has its own room: lists the prefix lines of the records that it reads. Its `main` lends it the three streams too.
pub fn listing<I: Read, O: Write, E: Write>(
    input: &mut I,
    output: &mut O,
    errors: &mut E,
) -> Result<u64, Failure>
    ensures runs { Runs listing_step record_length (replicate listing_room 0) (run_of result) }
    ensures lines { WhereKnown (λ file before after. RunsOn listing_step record_length (replicate listing_room 0) file before after
        (I.remaining input.new) (run_of result))
        (I.remaining input.old) (O.contents output.old) (O.contents output.new) }
    ensures whole { WhereKnown (Draws listing_of (run_of result).going)
        (I.remaining input.old) (O.contents output.old) (O.contents output.new) }
    ensures said { (is_said : Bool) × Says (run_of result).going (run_of result).number (E.contents errors.old) (E.contents errors.new) is_said }
{
    run::<ListingProgram, I, O, E>(input, output, errors, &mut [0u8; LISTING_ROOM])
}
