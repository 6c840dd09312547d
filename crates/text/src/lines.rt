// One line of text: a prefix line with the mark in place, a blank and a message line, without the blanks at the end. Each writer is lent the
// unwritten part of the output, and gives the count written.
ghost use Rattle.std.specs.Prelude.{◌≡◌, List, ◌∷◌, ℕ, ◌+◌, ◌*◌, ◌≤◌, length, take};
ghost use Rattle.column.specs.Columns.{column_limit};
ghost use Rattle.glyphs.specs.Tables.{cells_text, first_cells};
ghost use Rattle.message.specs.Message.{message_limit, trim_end};
ghost use Rattle.output.specs.Output.{ended, queue_limit};
ghost use Rattle.slices.specs.Characters.{blank};
ghost use Rattle.slices.specs.Joins.{over};
ghost use Rattle.text.specs.Inner.{Measured, behind_finished, line_with, prefix_again, WritesLine, WritesLineAt};

use glyphs::{cells_length, trailing_blanks, write_cells, write_finished};
use message::trimmed_length;
use output::{Put, write_ended};

// How long a prefix line is: the count of its bytes, and that without the blanks at the end.
#[derive(Clone, Copy)]
pub struct Lengths {
    pub all: usize,
    pub finished: usize,
}

// The lengths of a prefix line.
pub(crate) fn lengths_of(table: &[u8], numbers: &[u8], cells: usize) -> Lengths
    ensures { Measured (cells_text table.now (first_cells cells numbers.now)) result }
{
    let all = cells_length(table, numbers, cells);
    let finished = all - trailing_blanks(table, numbers, cells);
    Lengths { all, finished }
}

// The length of a prefix line with a message line, finished and with its end.
pub(crate) fn text_line_length(lengths: Lengths, part: &[u8]) -> usize
    requires { (lengths.all ≤ queue_limit) × (lengths.finished ≤ queue_limit) × (length part.now ≤ message_limit) }
    ensures { (prefix : List ℕ) → Measured prefix lengths → result ≡ length (ended (line_with prefix part.now)) }
{
    let n = trimmed_length(part);
    if n == 0 {
        return lengths.finished + 1;
    }
    lengths.all + n + 2
}

// Writes what stands behind the cells of a line: a blank, the message line and the end.
fn write_part(out: &mut [u8], part: &[u8]) -> usize
    requires { length part.now + 2 ≤ length out.old }
    ensures { (result ≡ length part.now + 2) × (out.new ≡ over (blank ∷ ended part.now) out.old) }
{
    out[0] = b' ';
    1 + write_ended(&mut out[1..], part)
}

// Writes a prefix line with a message line (`push_line_with_message`); the prefix line by itself measures `whole`.
// Table, numbers and cells are no struct of their own: they go on, one by one, to the writers of glyphs, which are lent the output (`write_cells`).
// Here and in `repeat_text_line` the bound on `whole` is said again: these stand below `RowLines`, whose fields have what they need.
pub(crate) fn write_text_line(
    out: &mut [u8],
    table: &[u8],
    numbers: &[u8],
    cells: usize,
    part: &[u8],
    whole: usize,
) -> Put
    requires whole_bound { whole ≤ 3 * column_limit }
    requires part_in_bounds { length (ended (line_with (cells_text table.now (first_cells cells numbers.now)) part.now)) ≤ length out.old }
    ensures { WritesLine (cells_text table.now (first_cells cells numbers.now)) part.now whole out.old out.new result }
{
    let n = trimmed_length(part);
    if n == 0 {
        let blanks = trailing_blanks(table, numbers, cells);
        let end = write_finished(out, table, numbers, cells, blanks);
        out[end] = b'\n';
        return Put {
            length: end + 1,
            measure: whole.saturating_sub(blanks),
        };
    }
    let at = write_cells(out, table, numbers, cells, n + 2);
    Put {
        length: at + write_part(&mut out[at..], &part[..n]),
        measure: whole + n + 1,
    }
}

// Writes what stands behind a finished prefix line: the blanks that it lacks, a blank, the message line and the end; the end alone, 1 byte, where the
// message line is of blanks.
fn write_behind(out: &mut [u8], blanks: usize, part: &[u8]) -> usize
    requires { length (behind_finished blanks part.now) ≤ length out.old }
    ensures { (result ≡ length (behind_finished blanks part.now)) × (out.new ≡ over (behind_finished blanks part.now) out.old) }
{
    let n = trimmed_length(part);
    if n == 0 {
        out[0] = b'\n';
        return 1;
    }
    out[..blanks].fill(b' ');
    blanks + write_part(&mut out[blanks..], &part[..n])
}

// Writes a prefix line once more, from `at` on, with the next message line: its first bytes are those of the output.
pub(crate) fn repeat_text_line(
    out: &mut [u8],
    at: usize,
    lengths: Lengths,
    part: &[u8],
    whole: usize,
) -> Put
    requires finished_in_bounds { (lengths.finished ≤ lengths.all) × (lengths.finished ≤ at) × (trim_end (take lengths.finished out.old) ≡ take lengths.finished out.old) × (whole ≤ 3 * column_limit) }
    requires part_in_bounds { at + length (ended (line_with (prefix_again lengths out.old) part.now)) ≤ length out.old }
    ensures { WritesLineAt (prefix_again lengths out.old) part.now whole at out.old out.new result }
{
    out.copy_within(..lengths.finished, at);
    let from = at + lengths.finished;
    let lacked = lengths.all - lengths.finished;
    let count = write_behind(&mut out[from..], lacked, part);
    if count == 1 {
        return Put {
            length: lengths.finished + 1,
            measure: whole.saturating_sub(lacked),
        };
    }
    Put {
        length: lengths.finished + count,
        measure: whole + (count - lacked) - 1,
    }
}
