// A row's lines with its message, after prefix_lines_to_text.rs.
ghost use Rattle.std.specs.Prelude.{◌≡◌, true, cond, List, [], ◌∷◌, ℕ, ◌+◌, ◌*◌, ◌<◌, ◌≤◌, min, leb, length, drop, replicate};
ghost use Rattle.column.specs.Columns.{column_limit};
ghost use Rattle.glyphs.specs.Tables.{numbers_in, cells_text, first_cells};
ghost use Rattle.message.specs.Message.{message_limit, is_writable, all_of};
ghost use Rattle.output.specs.Output.{queue_limit, text_of, greatest, text_view_of};
ghost use Rattle.render.specs.Mark.{is_mark};
ghost use Rattle.shaper.specs.Shaper.{height_limit};
ghost use Rattle.slices.specs.Joins.{over};
ghost use Rattle.text.specs.Inner.{Measured, Counts, all_lines_of, QueueFits, drawn as drawn_lines, fixed_lines, plan_of, line_times, prefixes, most_bytes, waits, state_after, prefix_measure, measures_with, whole_measure, RowPuts, row_text_from, RowWith, RowTexts};
ghost use Rattle.text.specs.Text.{is_bottom, times as times_of};

use crate::lines::{Lengths, lengths_of, repeat_text_line, text_line_length, write_text_line};
use crate::row_lines::RowLines;
use column::COLUMN_LIMIT;
use glyphs::{
    LINES, Line, Renderer, Row, ascii_table, box_table, choose_cells, drawing_of, is_large,
    is_present, large_table, write_cells,
};
use message::{line_count, line_end, next_start};
use output::{Put, TextState, begin_row, begin_row_length};
use render::{LinkLinePlacement, Refusal, RowShape};

// How a row's lines are repeated: where the link lines stand, how many lines the row has in any case, and how many are needed beyond them.
#[derive(Clone, Copy)]
pub struct Plan {
    pub placement: LinkLinePlacement,
    pub fixed: usize,
    pub needed: usize,
}

// What a writer of a row's lines gives: the count of their bytes, the measure of the longest, and where the next message line starts.
#[derive(Clone, Copy)]
pub struct RowPut {
    pub length: usize,
    pub measure: usize,
    pub next: usize,
}

// What a count of a row's lines gives: the count of their bytes, and where the next message line starts.
#[derive(Clone, Copy)]
pub struct Counted {
    pub length: usize,
    pub next: usize,
}

// What a writer of a row's text gives beside the output: the count of bytes written, the line measure, and the text state after it.
#[derive(Clone, Copy)]
pub struct WrittenRow {
    pub length: usize,
    pub measure: usize,
    pub state: TextState,
}

// How many lines a row has in any case.
fn fixed_lines(renderer: Renderer, row: Row) -> usize
    ensures { result ≡ fixed_lines renderer row }
{
    1 + usize::from(is_present(renderer, row, Line::Link))
        + usize::from(is_present(renderer, row, Line::SecondLink))
        + usize::from(is_present(renderer, row, Line::Term))
        + usize::from(is_present(renderer, row, Line::SecondTerm))
        + usize::from(is_present(renderer, row, Line::Ancestry))
}

// The plan of a row with so many message lines, at a minimum row height.
fn plan_of(
    placement: LinkLinePlacement,
    renderer: Renderer,
    row: Row,
    count: usize,
    height: usize,
) -> Plan
    ensures { result ≡ plan_of placement renderer row count height }
{
    let fixed = fixed_lines(renderer, row);
    let needed = count.max(height).saturating_sub(fixed);
    Plan {
        placement,
        fixed,
        needed,
    }
}

impl Plan {
    // How many of the lines needed stand in front of the links.
    fn before_links(self) -> usize
        ensures { result ≡ cond (is_bottom self.placement) self.needed 0 }
    {
        match self.placement {
            LinkLinePlacement::Top => 0,
            LinkLinePlacement::Bottom => self.needed,
        }
    }

    // How many of them stand at the foot.
    fn at_foot(self) -> usize
        ensures { result ≡ cond (is_bottom self.placement) 0 self.needed }
    {
        match self.placement {
            LinkLinePlacement::Top => self.needed,
            LinkLinePlacement::Bottom => 0,
        }
    }

    // How often a line is written that the row has; text starts at the node.
    fn repeats(self, line: Line) -> usize
        ensures { result ≡ times_of self.placement self.needed line }
    {
        match line {
            Line::PreNode => 0,
            Line::PostNode => self.before_links(),
            Line::PostAncestry => self.at_foot(),
            Line::Node
            | Line::Link
            | Line::SecondLink
            | Line::Term
            | Line::SecondTerm
            | Line::Ancestry => 1,
        }
    }
}

// The length of a prefix line written so many times, each time with the next message line. Here and below the bound on the message is said again:
// these stand below `RowLines`, whose fields have it.
fn repeated_length(lengths: Lengths, times: usize, message: &[u8], start: usize) -> Counted
    requires { (lengths.all ≤ queue_limit) × (lengths.finished ≤ lengths.all) × (length message.now ≤ message_limit) × (start ≤ length message.now) × (times ≤ message_limit) }
    ensures { (prefix : List ℕ) → Measured prefix lengths → Counts (replicate times prefix) message.now start result }
{
    let mut length: usize = 0;
    let mut next = start;
    for _ in 0..times {
        let end = line_end(message, next);
        length += text_line_length(lengths, &message[next..end]);
        next = next_start(message, end);
    }
    Counted { length, next }
}

// The measure of a prefix line of so many of a row's cells, at most 64: 2 for each, in large ASCII 3 for each but the first, which measures 2.
fn prefix_measure(renderer: Renderer, width: usize) -> usize
    ensures { (result ≡ prefix_measure renderer (min width column_limit)) × (result ≤ 3 * column_limit) }
{
    let cells = width.min(COLUMN_LIMIT);
    if is_large(renderer) {
        return (3 * cells).saturating_sub(1);
    }
    2 * cells
}

// Writes a prefix line once or more often, each time with the next message line: the first by its glyphs, the others by the first one's bytes;
// by itself it measures `whole`. The parts go one by one, as in `write_text_line`.
fn write_repeated(
    out: &mut [u8],
    table: &[u8],
    numbers: &[u8],
    cells: usize,
    times: usize,
    message: &[u8],
    start: usize,
    whole: usize,
) -> RowPut
    requires message_len_bound { (length message.now ≤ message_limit) × (start ≤ length message.now) × (0 < times) × (times ≤ message_limit) × (whole ≤ 3 * column_limit) }
    requires message_in_bounds { length (text_of (drawn_lines (replicate times (cells_text table.now (first_cells cells numbers.now))) (drop start message.now))) ≤ length out.old }
    ensures { RowPuts whole (replicate times (cells_text table.now (first_cells cells numbers.now))) message.now start out.old out.new result }
{
    let first_end = line_end(message, start);
    let first = write_text_line(
        out,
        table,
        numbers,
        cells,
        &message[start..first_end],
        whole,
    );
    let mut length = first.length;
    let mut measure = first.measure;
    let mut next = next_start(message, first_end);
    if times == 1 {
        return RowPut {
            length,
            measure,
            next,
        };
    }
    let lengths = lengths_of(table, numbers, cells);
    for _ in 1..times {
        let end = line_end(message, next);
        let put = repeat_text_line(out, length, lengths, &message[next..end], whole);
        length += put.length;
        measure = measure.max(put.measure);
        next = next_start(message, end);
    }
    RowPut {
        length,
        measure,
        next,
    }
}

impl RowLines<'_> {
    // How often a line is written, 0 where the row has none.
    fn times(&self, line: Line) -> usize
        ensures { result ≡ line_times self.now.plan self.now.drawing.renderer self.now.drawing.row line }
    {
        if !is_present(self.drawing.renderer, self.drawing.row, line) {
            return 0;
        }
        self.plan.repeats(line)
    }

    // Whether the foot line waits for the next row: this one has a term line and wrote no foot line.
    fn queues(&self) -> bool
        ensures { result ≡ waits self.now.drawing.row self.now.plan }
    {
        self.drawing.row.term_line & (self.plan.at_foot() == 0)
    }

    // The length of the lines.
    fn length(&self) -> usize
        ensures { result ≡ length (text_of (drawn_lines (prefixes self.now.table.now self.now.drawing self.now.plan) self.now.message.now)) }
    {
        let mut numbers = [0u8; COLUMN_LIMIT];
        let mut length: usize = 0;
        let mut next: usize = 0;
        for &line in &LINES {
            let times = self.times(line);
            if times == 0 {
                continue;
            }
            let cells = choose_cells(&mut numbers, self.table, self.drawing, line);
            let lengths = lengths_of(self.table, &numbers, cells);
            let put = repeated_length(lengths, times, self.message, next);
            length += put.length;
            next = put.next;
        }
        length
    }

    // Writes the lines, the glyphs of each chosen once.
    fn write(&self, out: &mut [u8]) -> Put
        requires { length (text_of (drawn_lines (prefixes self.now.table.now self.now.drawing self.now.plan) self.now.message.now)) ≤ length out.old }
        ensures { (result.length ≡ length (text_of (drawn_lines (prefixes self.now.table.now self.now.drawing self.now.plan) self.now.message.now)))
            × (result.measure ≡ greatest (measures_with (whole_measure self.now.drawing) (prefixes self.now.table.now self.now.drawing self.now.plan) self.now.message.now))
            × (out.new ≡ over (text_of (drawn_lines (prefixes self.now.table.now self.now.drawing self.now.plan) self.now.message.now)) out.old) }
    {
        let whole = prefix_measure(self.drawing.renderer, self.drawing.width);
        let mut numbers = [0u8; COLUMN_LIMIT];
        let mut length: usize = 0;
        let mut measure: usize = 0;
        let mut next: usize = 0;
        for &line in &LINES {
            let times = self.times(line);
            if times == 0 {
                continue;
            }
            let cells = choose_cells(&mut numbers, self.table, self.drawing, line);
            let put = write_repeated(
                &mut out[length..],
                self.table,
                &numbers,
                cells,
                times,
                self.message,
                next,
                whole,
            );
            length += put.length;
            measure = measure.max(put.measure);
            next = put.next;
        }
        Put { length, measure }
    }

    // What the lines can have at most: of each line the cells, a blank and the end, the message, and what stands above the row.
    fn most_bytes(&self) -> usize
        ensures { result ≡ most_bytes self.now.plan self.now.drawing.width (length self.now.message.now) }
    {
        let lines = self.plan.fixed + self.plan.needed;
        let each = 8 * self.drawing.width + 2;
        lines * each + self.message.len() + 514
    }

    // The text state after a row whose foot line waits.
    fn queue_foot_line(&self, state: TextState) -> TextState
        ensures { (text_view_of result ≡ record { queued = cells_text self.now.table.now (numbers_in self.now.table.now self.now.drawing Line.PostAncestry) ∷ []; height = self.now.plan.fixed + self.now.plan.needed }) × QueueFits result }
    {
        let mut queued_pad_line = state.queued_pad_line;
        let mut numbers = [0u8; COLUMN_LIMIT];
        let cells = choose_cells(&mut numbers, self.table, self.drawing, Line::PostAncestry);
        let queued_length = write_cells(&mut queued_pad_line, self.table, &numbers, cells, 0);
        TextState {
            queued_pad_line,
            queued_length,
            is_queued: true,
            row_height: self.plan.fixed + self.plan.needed,
        }
    }

    // The text state after a row whose foot line does not wait.
    fn queue_nothing(&self, state: TextState) -> TextState
        ensures { (text_view_of result ≡ record { queued = []; height = self.now.plan.fixed + self.now.plan.needed }) × QueueFits result }
    {
        let queued_pad_line = state.queued_pad_line;
        TextState {
            queued_pad_line,
            queued_length: 0,
            is_queued: false,
            row_height: self.plan.fixed + self.plan.needed,
        }
    }

    // The text state after the row: its foot line waits for the next row, or none does.
    fn state_after(&self, state: TextState) -> TextState
        ensures { (text_view_of result ≡ state_after self.now.table.now self.now.drawing self.now.plan) × QueueFits result }
    {
        if self.queues() {
            return self.queue_foot_line(state);
        }
        self.queue_nothing(state)
    }

    // Whether an output of so many bytes has room for all lines; they are counted only where it is shorter than they can be at most.
    fn has_room(&self, size: usize, state: TextState, separator_line: bool) -> bool
        ensures { result ≡ leb (length (text_of (all_lines_of self.now.table.now self.now.drawing self.now.plan self.now.message.now (text_view_of state) separator_line))) size }
    {
        if self.most_bytes() <= size {
            return true;
        }
        begin_row_length(state, separator_line) + self.length() <= size
    }

    // Writes a row's text, if the output has room for it.
    fn write_text(
        &self,
        out: &mut [u8],
        state: TextState,
        separator_line: bool,
    ) -> Result<WrittenRow, Refusal>
        ensures { RowWith self.now.table.now self.now.drawing self.now.plan self.now.message.now (text_view_of state) separator_line out.old out.new (row_text_from state result) }
    {
        if !self.has_room(out.len(), state, separator_line) {
            return Err(Refusal::OutputShorterThanLines);
        }
        let above = begin_row(out, state, separator_line);
        let at = above.length;
        let put = self.write(&mut out[at..]);
        let after = self.state_after(state);
        Ok(WrittenRow {
            length: at + put.length,
            measure: above.measure.max(put.measure),
            state: after,
        })
    }
}

// Writes a row's text, if the output has room for it (`write_next_text`); it is given the parts that `RowLines` is made of.
pub(crate) fn write_row_text(
    out: &mut [u8],
    shape: RowShape,
    renderer: Renderer,
    mark: u8,
    message: &[u8],
    height: usize,
    state: TextState,
) -> Result<WrittenRow, Refusal>
    requires width_le_column_limit { (shape.width ≤ column_limit) × (length message.now ≤ message_limit) × (height ≤ height_limit) }
    requires mark_value { (is_mark mark ≡ true) × (all_of is_writable message.now ≡ true) }
    ensures { RowTexts (text_view_of state) renderer shape mark message.now height out.old out.new (row_text_from state result) }
{
    let drawing = drawing_of(shape, renderer, mark);
    let row = drawing.row;
    let style = shape.style;
    let placement = style.link_line_placement;
    let plan = plan_of(placement, renderer, row, line_count(message), height);
    let separator = shape.separator_line;
    // one arm for each table: they are arrays of different lengths, and each lives in its arm
    match renderer {
        Renderer::Ascii => {
            let table = ascii_table(mark);
            let lines = RowLines {
                table: &table,
                drawing,
                plan,
                message,
            };
            lines.write_text(out, state, separator)
        }
        Renderer::AsciiLarge => {
            let table = large_table(mark);
            let lines = RowLines {
                table: &table,
                drawing,
                plan,
                message,
            };
            lines.write_text(out, state, separator)
        }
        Renderer::Square | Renderer::Curved | Renderer::Dec => {
            let table = box_table(renderer, mark);
            let lines = RowLines {
                table: &table,
                drawing,
                plan,
                message,
            };
            lines.write_text(out, state, separator)
        }
    }
}
