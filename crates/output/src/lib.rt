// Lines written into the output, and what is kept between rows, after output.rs. Each writer is lent the unwritten part of the output, and gives the count written.
#![tactic(auto)]

ghost use Rattle.std.specs.Prelude.{◌≡◌, true, false, [], ◌∷◌, max, take, eqb, ltb, length, get_or};
ghost use Rattle.std.specs.Option.{MatchOption};
ghost use Rattle.output.specs.Inner.{among, behind94, behind95, begins_more};
ghost use Rattle.output.specs.Measure.{box_characters, shifts, opening, measure_of};
ghost use Rattle.output.specs.Output.{ended, finish, text_of, flushed, lines_above, begin_row, text_view_of, Puts};
ghost use Rattle.slices.specs.Joins.{Writes};

use message::trimmed_length;

// The greatest length of a queued line: eight bytes for each of 64 cells.
pub const QUEUE_LIMIT: usize = 512;

// What is kept between rows (`OutputRendererState`): the queued line, if there is one, and how many lines the last row had.
#[derive(Clone, Copy)]
pub struct TextState {
    // no `Option` and no slice: a text state can be made by hand with any length, and one beyond the array is read as the array's (document 01)
    pub queued_pad_line: [u8; QUEUE_LIMIT],
    pub queued_length: usize,
    pub is_queued: bool,
    pub row_height: usize,
}

// What a writer of lines gives: the count of their bytes, and the measure of the longest.
#[derive(Clone, Copy, Default)]
pub struct Put {
    pub length: usize,
    pub measure: usize,
}

// A byte of a line, 0 past its end.
fn byte_at(line: &[u8], i: usize) -> u8
    ensures { result ≡ get_or line.now i 0 }
{
    line.get(i).copied().unwrap_or(0)
}

// Whether a shift sequence or a box character may begin with a byte.
fn begins_more(a: u8) -> bool
    ensures { result ≡ begins_more a }
{
    matches!(a, 0x1b | 0xc2 | 0xe2)
}

// Whether these three bytes are a DEC shift sequence: ESC ( 0 or ESC ( B.
fn is_shift(a: u8, b: u8, c: u8) -> bool
    ensures { result ≡ ltb 0 (opening shifts (a ∷ b ∷ c ∷ [])) }
{
    matches!((a, b, c), (0x1b, 0x28, 0x30 | 0x42))
}

// Whether E2 94 and this byte are a box character: ─ │ ┆ ┌ ┐ └ ┘ ├ ┤ ┬ ┴ ┼.
fn is_behind_94(c: u8) -> bool
    ensures { result ≡ among c behind94 }
{
    matches!(
        c,
        0x80 | 0x82 | 0x86 | 0x8c | 0x90 | 0x94 | 0x98 | 0x9c | 0xa4 | 0xac | 0xb4 | 0xbc
    )
}

// Whether E2 95 and this byte are one: ╭ ╮ ╯ ╰ ╷.
fn is_behind_95(c: u8) -> bool
    ensures { result ≡ among c behind95 }
{
    matches!(c, 0xad | 0xae | 0xaf | 0xb0 | 0xb7)
}

// How many bytes the cell has that these three begin with, where they begin no shift sequence: those of a box character, the one of two bytes is ·, else one.
fn cell_length(a: u8, b: u8, c: u8) -> usize
    ensures { result ≡ max (opening box_characters (a ∷ b ∷ c ∷ [])) 1 }
{
    match (a, b) {
        (0xc2, 0xb7) => 2,
        (0xe2, 0x94) if is_behind_94(c) => 3,
        (0xe2, 0x95) if is_behind_95(c) => 3,
        _ => 1,
    }
}

// The measure of a finished line: a box character is one cell of the page, a shift sequence none, every other byte one.
// The place is counted by hand: a step goes over one to three bytes, and no iterator of the library does.
fn line_measure(line: &[u8]) -> usize
    ensures { result ≡ measure_of line.now }
{
    let mut measure: usize = 0;
    let mut i: usize = 0;
    while i < line.len() {
        let a = line[i];
        if !begins_more(a) {
            measure += 1;
            i += 1;
            continue;
        }
        let b = byte_at(line, i + 1);
        let c = byte_at(line, i + 2);
        if is_shift(a, b, c) {
            i += 3;
            continue;
        }
        measure += 1;
        i += cell_length(a, b, c);
    }
    measure
}

// Writes bytes and a line's end behind them, where both fit, and gives their count.
pub fn write_ended(out: &mut [u8], bytes: &[u8]) -> usize
    ensures { Writes (ended bytes.now) out.old out.new result }
{
    let n = bytes.len();
    if out.len() <= n {
        return 0;
    }
    out[..n].copy_from_slice(bytes);
    out[n] = b'\n';
    n + 1
}

// Writes a line without the blanks at its end, where it fits (`push_line`), and gives the count written.
fn push_line(out: &mut [u8], line: &[u8]) -> usize
    ensures { Writes (ended (finish line.now)) out.old out.new result }
{
    let n = trimmed_length(line);
    write_ended(out, &line[..n])
}

impl TextState {
    // The queued line, if there is one; a length beyond its array is read as the array's.
    fn queued_line(&self) -> Option<&[u8]>
        ensures { MatchOption result (self.now.is_queued ≡ false) (λ l. (self.now.is_queued ≡ true) × (l.now ≡ take self.now.queued_length self.now.queued_pad_line)) }
    {
        if !self.is_queued {
            return None;
        }
        Some(&self.queued_pad_line[..self.queued_length.min(QUEUE_LIMIT)])
    }

    // Whether one line stands above the row, the queued one included, so that a separator is needed.
    fn is_one_line(self) -> bool
        ensures { result ≡ eqb (lines_above (text_view_of self)) 1 }
    {
        if self.is_queued {
            return self.row_height == 0;
        }
        self.row_height == 1
    }

    // The length of the queued line, finished and with its end; 0 where there is none.
    fn flushed_length(self) -> usize
        ensures { result ≡ length (text_of (flushed finish (text_view_of self))) }
    {
        match self.queued_line() {
            Some(line) => trimmed_length(line) + 1,
            None => 0,
        }
    }
}

// The length of what stands between the row before and this one: the queued line, and the separator.
pub fn begin_row_length(state: TextState, separator_line: bool) -> usize
    ensures { result ≡ length (text_of (begin_row finish separator_line (text_view_of state))) }
{
    let flushed = state.flushed_length();
    if separator_line & state.is_one_line() {
        return flushed + 1;
    }
    flushed
}

// Writes the queued line, if there is one and it fits (`flush_queued_pad_line`), and gives the count written.
fn flush_queued_pad_line(out: &mut [u8], state: TextState) -> usize
    ensures { Writes (text_of (flushed finish (text_view_of state))) out.old out.new result }
{
    match state.queued_line() {
        Some(line) => push_line(out, line),
        None => 0,
    }
}

// Writes what stands between the row before and this one, where it fits: the queued line, which is measured in the output, and the separator.
pub fn begin_row(out: &mut [u8], state: TextState, separator_line: bool) -> Put
    ensures { Puts (begin_row finish separator_line (text_view_of state)) out.old out.new result }
{
    let is_separated = separator_line & state.is_one_line();
    if is_separated {
        if out.len() < begin_row_length(state, separator_line) {
            return Put::default();
        }
    }
    let flushed = flush_queued_pad_line(out, state);
    let measure = line_measure(&out[..flushed.saturating_sub(1)]);
    if !is_separated {
        return Put {
            length: flushed,
            measure,
        };
    }
    let length = flushed + push_line(&mut out[flushed..], &[]);
    Put { length, measure }
}
