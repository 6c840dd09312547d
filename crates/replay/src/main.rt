// Reads a stream of calls from standard input and prints every answer (docs/REPLAY.md). All that it works on has fixed room.
#![tactic(auto)]

mod answers;
mod buffered;
mod codes;
mod page;
mod payload;
mod records;
mod run;
mod shapes;
mod words;

ghost use Rattle.std.specs.Prelude.{◌≡◌, ◌≤◌, length};

use buffered::Buffered;
use payload::{Commands, HEADER};
use run::Machine;
use std::io;
use std::io::{Read, Write};

// How many bytes are read at a time: room for more than the longest command.
const STREAM: usize = 131072;

// How many bytes wait to be written.
const OUTPUT: usize = 65536;

// Reads behind the first `kept` bytes until they are full, the input ends or a read fails, and gives how many bytes are then there.
// A loop by hand, since std's `read_exact` gives no count where the input ends.
fn fill<I: Read>(input: &mut I, bytes: &mut [u8], kept: usize) -> usize
    requires { kept ≤ length bytes.old }
    ensures { (result ≤ length bytes.new) × (length bytes.new ≡ length bytes.old) }
{
    let mut at = kept;
    while at < bytes.len() {
        match input.read(&mut bytes[at..]) {
            Ok(0) | Err(_) => return at,
            Ok(count) => at += count,
        }
    }
    at
}

// Answers every whole command of these bytes, and gives how many bytes they have.
fn answer_all<O: Write>(bytes: &[u8], out: &mut O, machine: &mut Machine<'_>) -> io::Result<usize> {
    let mut answered: usize = 0;
    for command in Commands(bytes) {
        answered = answered
            .saturating_add(HEADER)
            .saturating_add(command.payload.len());
        let answer = machine.run(command);
        answers::write_answer(out, &answer, machine)?;
    }
    Ok(answered)
}

// Answers every whole command of a stream, as many at a time as the bytes have room for. A proved loop has to end, so this one counts its turns,
// to a number that no run uses up.
fn answer_stream<I: Read, O: Write>(
    input: &mut I,
    bytes: &mut [u8],
    out: &mut O,
    machine: &mut Machine<'_>,
) -> io::Result<()> {
    let mut kept = 0;
    for _ in 0..u64::MAX {
        let end = fill(input, bytes, kept);
        if end <= kept {
            break;
        }
        let answered = answer_all(&bytes[..end], out, machine)?.min(end);
        bytes.copy_within(answered..end, 0);
        kept = end - answered;
    }
    out.flush()
}

// Lends the buffers; a write that failed ends it in silence.
fn main(rt: HostRuntime) {
    let mut bytes = [0u8; STREAM];
    let mut waiting = [0u8; OUTPUT];
    let mut page = [0u8; page::ROOM];
    let mut stdout = rt.stdout();
    let mut out = Buffered::new(&mut stdout, &mut waiting);
    let mut machine = Machine::new(&mut page);
    let _ = answer_stream(&mut rt.stdin(), &mut bytes, &mut out, &mut machine);
}
