// Glyphs out of a table, into the output: each writer is lent the unwritten part of the output, and gives the count written.
ghost use Rattle.std.specs.Prelude.{◌≡◌, true, ◌+◌, ◌-◌, ◌*◌, ◌≤◌, min, length, take};
ghost use Rattle.column.specs.Columns.{column_limit};
ghost use Rattle.glyphs.specs.Inner.{WritesWithin};
ghost use Rattle.glyphs.specs.Tables.{glyph_at, cells_text, WritesCells, first_cells};
ghost use Rattle.message.specs.Message.{trim_end};
ghost use Rattle.slices.specs.Joins.{over, Writes};

use column::COLUMN_LIMIT;
use message::trimmed_length;

// The bytes of a glyph in a table: a count, and eight places.
pub(crate) const GLYPH: usize = 9;

// A count, read as at most eight.
fn at_most_eight(count: u8) -> usize
    ensures { result ≡ min count 8 }
{
    usize::from(count).min(8)
}

// The bytes of a glyph, none past the last glyph.
fn glyph(table: &[u8], n: u8) -> &[u8]
    ensures { result.now ≡ glyph_at table.now n }
{
    let from = n as usize * GLYPH;
    if table.len() < from + GLYPH {
        return &[];
    }
    &table[from + 1..from + 1 + at_most_eight(table[from])]
}

// Writes the first bytes of a glyph, at most so many.
fn write_glyph(out: &mut [u8], table: &[u8], n: u8, most: usize) -> usize
    requires { most ≤ length out.old }
    ensures { (result ≡ length (take most (glyph_at table.now n)))
        × (out.new ≡ over (take most (glyph_at table.now n)) out.old) }
{
    let bytes = glyph(table, n);
    let count = bytes.len().min(most);
    out[..count].copy_from_slice(&bytes[..count]);
    count
}

// Writes a glyph by its eight places, all of them read before the first is written: `copy_from_slice` here tests whether its two slices overlap, six instructions more for each cell.
fn write_wide(out: &mut [u8], table: &[u8], n: u8) -> usize
    requires { 8 ≤ length out.old }
    ensures { WritesWithin (glyph_at table.now n) 8 out.old out.new result }
{
    let from = n as usize * GLYPH;
    if table.len() < from + GLYPH {
        return 0;
    }
    let a = table[from + 1];
    let b = table[from + 2];
    let c = table[from + 3];
    let d = table[from + 4];
    let e = table[from + 5];
    let f = table[from + 6];
    let g = table[from + 7];
    let h = table[from + 8];
    out[0] = a;
    out[1] = b;
    out[2] = c;
    out[3] = d;
    out[4] = e;
    out[5] = f;
    out[6] = g;
    out[7] = h;
    at_most_eight(table[from])
}

// Writes a glyph where `left` bytes of the line are still to be written: by its eight places where it has so many, else its own bytes up to there.
fn write_cell(out: &mut [u8], table: &[u8], n: u8, left: usize) -> usize
    requires { left ≤ length out.old }
    ensures { WritesWithin (take left (glyph_at table.now n)) left out.old out.new result }
{
    if 8 <= left {
        return write_wide(out, table, n);
    }
    write_glyph(out, table, n, left)
}

// The cells of a line: the table that they are drawn from, and their numbers, at most as many as a row has.
#[derive(Clone, Copy)]
struct Cells<'a> {
    table: &'a [u8],
    numbers: &'a [u8],
    ghost few: { length numbers.now ≤ column_limit },
}

impl<'a> Cells<'a> {
    // The first of some numbers, at most as many as a row has.
    fn first(table: &'a [u8], numbers: &'a [u8], width: usize) -> Cells<'a>
        ensures drawn_from { result.table.now ≡ table.now }
        ensures first { result.numbers.now ≡ first_cells width numbers.now }
    {
        let count = width.min(COLUMN_LIMIT).min(numbers.len());
        Cells {
            table,
            numbers: &numbers[..count],
        }
    }

    // The count of the cells' bytes.
    fn length(&self) -> usize
        ensures { result ≡ length (cells_text self.now.table.now self.now.numbers.now) }
    {
        let table = self.table;
        self.numbers.iter().map(|n| glyph(table, *n).len()).sum()
    }

    // Writes the first `end` bytes of the cells of a line that has so many.
    fn write_first(&self, out: &mut [u8], end: usize) -> usize
        requires { end ≤ length out.old }
        ensures { WritesWithin (take end (cells_text self.now.table.now self.now.numbers.now)) end out.old out.new result }
    {
        let mut at = 0;
        for n in self.numbers {
            at += write_cell(&mut out[at..], self.table, *n, end - at);
        }
        at
    }

    // Writes the cells of a line that has eight bytes or more behind them, each by its eight places.
    fn write_by_eight(&self, out: &mut [u8]) -> usize
        requires { 8 * length self.now.numbers.now + 8 ≤ length out.old }
        ensures { WritesWithin (cells_text self.now.table.now self.now.numbers.now) (result + 8) out.old out.new result }
    {
        let mut at = 0;
        for n in self.numbers {
            at += write_wide(&mut out[at..], self.table, *n);
        }
        at
    }

    // How many blanks stand at the end of the cells.
    fn trailing_blanks(&self) -> usize
        ensures { result ≡ length (cells_text self.now.table.now self.now.numbers.now) - length (trim_end (cells_text self.now.table.now self.now.numbers.now)) }
    {
        let mut blanks = 0;
        for n in self.numbers.iter().rev() {
            let bytes = glyph(self.table, *n);
            let end = trimmed_length(bytes);
            blanks += bytes.len() - end;
            if end != 0 {
                return blanks;
            }
        }
        blanks
    }

    // Writes the cells of a line that has so many bytes behind them, where there is room for both.
    fn write(&self, out: &mut [u8], behind: usize) -> usize
        ensures { WritesCells (cells_text self.now.table.now self.now.numbers.now) behind out.old out.new result }
    {
        let size = out.len();
        if is_wide(size, self.numbers.len(), behind) {
            return self.write_by_eight(out);
        }
        let all = self.length();
        if size < all || size - all < behind {
            return 0;
        }
        self.write_first(out, all + behind)
    }

    // Writes the cells of a line without so many blanks at their end, where there is room for the other bytes.
    fn write_finished(&self, out: &mut [u8], blanks: usize) -> usize
        ensures { Writes (take (length (cells_text self.now.table.now self.now.numbers.now) - blanks) (cells_text self.now.table.now self.now.numbers.now)) out.old out.new result }
    {
        let end = self.length().saturating_sub(blanks);
        if out.len() < end {
            return 0;
        }
        self.write_first(out, end)
    }
}

// Whether so many cells can be written by eight places each: eight bytes or more stand behind them, and an output of so many bytes has room for all that.
fn is_wide(size: usize, count: usize, behind: usize) -> bool
    requires { count ≤ column_limit }
    ensures { result ≡ true → (8 ≤ behind) × (8 * count + behind ≤ size) }
{
    8 <= behind && behind <= size && 8 * count <= size - behind
}

// The count of the cells' bytes. This and the three below make the struct of parts that their callers hold apart: a table that each renderer makes in
// its own size, and numbers in an array with their count.
pub fn cells_length(table: &[u8], numbers: &[u8], width: usize) -> usize
    ensures { result ≡ length (cells_text table.now (first_cells width numbers.now)) }
{
    Cells::first(table, numbers, width).length()
}

// How many blanks stand at the end of the cells, which the finished line lacks.
pub fn trailing_blanks(table: &[u8], numbers: &[u8], width: usize) -> usize
    ensures { result ≡ length (cells_text table.now (first_cells width numbers.now)) - length (trim_end (cells_text table.now (first_cells width numbers.now))) }
{
    Cells::first(table, numbers, width).trailing_blanks()
}

// Writes the cells of a line that has so many bytes behind them, where there is room for both.
pub fn write_cells(
    out: &mut [u8],
    table: &[u8],
    numbers: &[u8],
    width: usize,
    behind: usize,
) -> usize
    ensures { WritesCells (cells_text table.now (first_cells width numbers.now)) behind out.old out.new result }
{
    Cells::first(table, numbers, width).write(out, behind)
}

// Writes the cells of a line without so many blanks at their end, where there is room for the other bytes.
pub fn write_finished(
    out: &mut [u8],
    table: &[u8],
    numbers: &[u8],
    width: usize,
    blanks: usize,
) -> usize
    ensures { Writes (take (length (cells_text table.now (first_cells width numbers.now)) - blanks) (cells_text table.now (first_cells width numbers.now))) out.old out.new result }
{
    Cells::first(table, numbers, width).write_finished(out, blanks)
}
