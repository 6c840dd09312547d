// Whole histories: the row call, the preview, the renderer call and the text call on every record of a history, for bench, which times them
// beside the Rust.
#![tactic(auto)]

ghost use Rattle.std.specs.Prelude.{◌≡◌, ◌%◌};
ghost use Rattle.shaper.specs.Shaper.{View, view_of};
ghost use Rattle.output.specs.Output.{TextView, text_view_of};
ghost use Rattle.steps.specs.Steps.{beginning};
ghost use Rattle.whole_history.specs.Shapes.{cell_bytes, head_bytes, shape_bytes, node_bytes, row_bytes, preview_bytes, Puts};
ghost use Rattle.whole_history.specs.Whole.{renderer_of, records_of, rows_of, Turn, step_of, Makes, text_turn, shape_turn, preview_turn, lines_turn, whole_text, whole_shapes, whole_previews, whole_lines};

use column::COLUMN_LIMIT;
use glyphs::Renderer;
use output::TextState;
use prefix_lines::next_prefix_lines;
use preview::preview;
use record::{RECORD, entries_of, id_of, mark_of};
use render::{Cell, ENTRY_LIMIT, RowShape};
use row_shape::next_row_shape;
use shaper::Shaper;
use slices::write_bytes;
use text::write_next_text;

// The bytes that are written of a row, and of each of its cells.
const HEAD: usize = 12;

const CELL: usize = 8;

// The bytes that are written of a preview.
const PREVIEW: usize = 3;

// The renderer with this number; one above 4 is DEC. By cases: a number is told by no shorter form. `replay` has its own: the codes of two formats,
// which no crate below knows.
fn renderer_of(number: u8) -> Renderer
    ensures { result ≡ renderer_of number }
{
    match number {
        0 => Renderer::Ascii,
        1 => Renderer::AsciiLarge,
        2 => Renderer::Square,
        3 => Renderer::Curved,
        _ => Renderer::Dec,
    }
}

// A number's low byte; the first of eight bytes (`to_le_bytes`) would be no plainer.
fn low_byte(n: usize) -> u8
    ensures { result ≡ n % 0x100 }
{
    (n % 0x100) as u8
}

// A cell's bytes: node, link, link from node, term, ancestry, parent.
#[tactic(auto, unfolding(crate::specs::Shapes::cell_bytes))]
fn cell_bytes(cell: Cell) -> [u8; CELL]
    ensures { result ≡ cell_bytes cell }
{
    let [link, link_high] = cell.link.bits.to_le_bytes();
    let [link_from_node, link_from_node_high] = cell.link_from_node.bits.to_le_bytes();
    [
        cell.node as u8,
        link,
        link_high,
        link_from_node,
        link_from_node_high,
        cell.term as u8,
        cell.ancestry as u8,
        cell.parent as u8,
    ]
}

// What a shape says of its row, in bytes: the node's id, whether it is a head, a root and a merge, and its column; how many cells the lines
// have, and whether there is a separator, a link line and a term line.
#[tactic(auto, unfolding(crate::specs::Shapes::head_bytes))]
fn head_bytes(shape: RowShape) -> [u8; HEAD]
    ensures { result ≡ head_bytes shape }
{
    let [id, id_1, id_2, id_3] = shape.node.to_le_bytes();
    [
        id,
        id_1,
        id_2,
        id_3,
        shape.is_head as u8,
        shape.is_root as u8,
        shape.merge as u8,
        low_byte(shape.node_column),
        low_byte(shape.width),
        shape.separator_line as u8,
        shape.link_line as u8,
        shape.term_line as u8,
    ]
}

// A preview's bytes: the node's column, the width of its line, and the count of columns afterwards.
fn preview_bytes(node_column: usize, width: usize, count: usize) -> [u8; PREVIEW]
    ensures { result ≡ preview_bytes node_column width count }
{
    [low_byte(node_column), low_byte(width), low_byte(count)]
}

// Writes a row's bytes at the start of an output and gives their count; nothing where there is no room for them.
fn put(out: &mut [u8], bytes: &[u8]) -> Option<usize>
    ensures { Puts bytes.now out.old out.new result }
{
    if out.len() < bytes.len() {
        return None;
    }
    Some(write_bytes(out, bytes))
}

// Writes a shape: the row's bytes and then each cell's, at the place that its number gives.
fn put_shape(out: &mut [u8], shape: RowShape) -> Option<usize>
    ensures { Puts (shape_bytes shape) out.old out.new result }
{
    let width = shape.width.min(COLUMN_LIMIT);
    let size = HEAD + CELL * width;
    if out.len() < size {
        return None;
    }
    write_bytes(out, &head_bytes(shape));
    for i in 0..width {
        write_bytes(&mut out[HEAD + CELL * i..], &cell_bytes(shape.cells[i]));
    }
    Some(size)
}

// Writes the cell of a shape's node alone; no bytes where its column is past the last.
fn put_node(out: &mut [u8], shape: &RowShape) -> Option<usize>
    ensures { Puts (node_bytes shape.now) out.old out.new result }
{
    let Some(cell) = shape.cells.get(shape.node_column) else {
        return Some(0);
    };
    put(out, &cell_bytes(*cell))
}

// Writes a shape if the rows are kept, else the cell of its node alone.
fn put_row(out: &mut [u8], shape: &RowShape, kept: bool) -> Option<usize>
    ensures { Puts (row_bytes kept shape.now) out.old out.new result }
{
    if kept {
        put_shape(out, *shape)
    } else {
        put_node(out, shape)
    }
}

// What is done with each record of a history, on the states that are kept between them.
trait Turns {
    // the states kept, in the definition's words
    ghost view: { Self → View };

    ghost text: { Self → TextView };

    // what the definition makes of a record
    ghost turn: { Self → Turn };

    // Makes the record's row at the start of the output and gives the count of its bytes; nothing where the row is refused or there is no room.
    fn make(&mut self, bytes: &[u8; RECORD], out: &mut [u8]) -> Option<usize>
        ensures same { turn self.new ≡ turn self.old }
        ensures makes { Makes (turn self.old (view self.old) (text self.old) bytes.now out.old) (view self.new) (text self.new) out.old out.new result };
}

// A turn for each record, by its number, which is what is given at the end: each row behind the one before it if they are kept, else each at the output's beginning. Ends at the first record of
// which nothing is made, and gives the count of those before it.
fn walk<T: Turns + Drop>(mut turns: T, records: &[u8], kept: bool, out: &mut [u8]) -> usize
    ensures { rows_of (step_of (T.turn turns) kept) 0 (records_of records.now) (record { view = T.view turns; text = T.text turns; from = 0; output = out.old }) ≡ record { rows = result; output = out.new } }
{
    let (whole, _) = records.as_chunks::<RECORD>();
    let mut from: usize = 0;
    for rows in 0..whole.len() {
        let Some(length) = turns.make(&whole[rows], &mut out[from..]) else {
            return rows;
        };
        if kept {
            from += length;
        }
    }
    whole.len()
}

// The texts of a history, with the lent message in the place of each record's own.
#[derive(Drop)]
struct Texts<'a> {
    shaper: Shaper,
    state: TextState,
    renderer: Renderer,
    message: &'a [u8],
}

impl<'a> Turns for Texts<'a> {
    ghost view = { λ s. view_of s.shaper };

    ghost text = { λ s. text_view_of s.state };

    ghost turn = { λ s. text_turn s.renderer s.message.now };

    fn make(&mut self, bytes: &[u8; RECORD], out: &mut [u8]) -> Option<usize> {
        let Ok(given) = write_next_text(
            self.shaper,
            self.state,
            self.renderer,
            id_of(bytes),
            entries_of(bytes),
            mark_of(bytes),
            self.message,
            out,
        ) else {
            return None;
        };
        self.shaper = given.shaper;
        self.state = given.state;
        Some(given.length)
    }
}

// The shapes of a history, by the row call.
#[derive(Drop)]
struct Shapes {
    shaper: Shaper,
    kept: bool,
}

impl Turns for Shapes {
    ghost view = { λ s. view_of s.shaper };

    ghost text = { λ s. beginning.text };

    ghost turn = { λ s. shape_turn s.kept };

    fn make(&mut self, bytes: &[u8; RECORD], out: &mut [u8]) -> Option<usize> {
        let Ok(given) = next_row_shape(self.shaper, id_of(bytes), entries_of(bytes)) else {
            return None;
        };
        self.shaper = given.shaper;
        put_row(out, &given.shape, self.kept)
    }
}

// The shapes of a history, by the public row call; beside `Shapes`, since a call as a parameter would bring its contract along.
#[derive(Drop)]
struct LentShapes {
    shaper: Shaper,
    kept: bool,
}

impl Turns for LentShapes {
    ghost view = { λ s. view_of s.shaper };

    ghost text = { λ s. beginning.text };

    ghost turn = { λ s. shape_turn s.kept };

    fn make(&mut self, bytes: &[u8; RECORD], out: &mut [u8]) -> Option<usize> {
        let entries = entries_of(bytes);
        let count = entries.count.min(ENTRY_LIMIT);
        let list = &entries.list[..count];
        let Ok(shape) = lineage::row(&mut self.shaper, id_of(bytes), list) else {
            return None;
        };
        put_row(out, &shape, self.kept)
    }
}

// The previews of a history's rows; each shaper is made of what the preview before it gave.
#[derive(Drop)]
struct Previews {
    shaper: Shaper,
}

impl Turns for Previews {
    ghost view = { λ s. view_of s.shaper };

    ghost text = { λ s. beginning.text };

    ghost turn = { λ s. preview_turn };

    fn make(&mut self, bytes: &[u8; RECORD], out: &mut [u8]) -> Option<usize> {
        let Ok(given) = preview(self.shaper, id_of(bytes), entries_of(bytes)) else {
            return None;
        };
        // By a variable: an array that is stored straight from a field gets no proof.
        let slots = given.slots;
        self.shaper.slots = slots;
        self.shaper.count = given.count;
        self.shaper.previous_node_column = Some(given.node_column);
        put(
            out,
            &preview_bytes(given.node_column, given.width, given.count),
        )
    }
}

// The prefix lines of a history, by the row call and the renderer call on its shape.
#[derive(Drop)]
struct Lines {
    shaper: Shaper,
    renderer: Renderer,
}

impl Turns for Lines {
    ghost view = { λ s. view_of s.shaper };

    ghost text = { λ s. beginning.text };

    ghost turn = { λ s. lines_turn s.renderer };

    fn make(&mut self, bytes: &[u8; RECORD], out: &mut [u8]) -> Option<usize> {
        let Ok(given) = next_row_shape(self.shaper, id_of(bytes), entries_of(bytes)) else {
            return None;
        };
        self.shaper = given.shaper;
        next_prefix_lines(given.shape, self.renderer, mark_of(bytes), out).ok()
    }
}

// The text call on each record, with the lent message in the place of the record's own: each text behind the one before it if they are
// kept, else each at the output's beginning. Ends at the first row that is refused, and gives the count of those that were not.
#[tactic(auto, unfolding(crate::specs::Whole::whole_text))]
pub fn whole_history_text(
    records: &[u8],
    message: &[u8],
    renderer: u8,
    kept: bool,
    out: &mut [u8],
) -> usize
    ensures { whole_text records.now message.now renderer kept out.old ≡ record { rows = result; output = out.new } }
{
    let begun = steps::begin();
    let texts = Texts {
        shaper: begun.shaper,
        state: begun.state,
        renderer: renderer_of(renderer),
        message,
    };
    walk(texts, records, kept, out)
}

// The row call on each record: each shape behind the one before it if they are kept, else the node's cell alone at the output's beginning.
// Ends at the first row that is refused or that there is no room for, and gives the count of those before it.
#[tactic(auto, unfolding(crate::specs::Whole::whole_shapes))]
pub fn whole_history_shapes(records: &[u8], kept: bool, out: &mut [u8]) -> usize
    ensures { whole_shapes records.now kept out.old ≡ record { rows = result; output = out.new } }
{
    let shaper = steps::begin().shaper;
    walk(Shapes { shaper, kept }, records, kept, out)
}

// The preview of each record's row, on a shaper made of what the preview before it gave: its bytes behind those before them if they are
// kept, else at the output's beginning. Ends at the first row that is refused or that there is no room for, and gives the count of those
// before it.
#[tactic(auto, unfolding(crate::specs::Whole::whole_previews))]
pub fn whole_history_previews(records: &[u8], kept: bool, out: &mut [u8]) -> usize
    ensures { whole_previews records.now kept out.old ≡ record { rows = result; output = out.new } }
{
    let shaper = steps::begin().shaper;
    walk(Previews { shaper }, records, kept, out)
}

// The row call on each record and the renderer call on its shape: each row's lines behind those before them if they are kept, else each
// at the output's beginning. Ends at the first row that either call refuses, and gives the count of those before it.
#[tactic(auto, unfolding(crate::specs::Whole::whole_lines))]
pub fn whole_history_lines(records: &[u8], renderer: u8, kept: bool, out: &mut [u8]) -> usize
    ensures { whole_lines records.now renderer kept out.old ≡ record { rows = result; output = out.new } }
{
    let shaper = steps::begin().shaper;
    let lines = Lines {
        shaper,
        renderer: renderer_of(renderer),
    };
    walk(lines, records, kept, out)
}

// What `whole_history_shapes` gives, by the public call; a call of its own for the C interface.
#[tactic(auto, unfolding(crate::specs::Whole::whole_shapes))]
pub fn whole_history_lent_shapes(records: &[u8], kept: bool, out: &mut [u8]) -> usize
    ensures { whole_shapes records.now kept out.old ≡ record { rows = result; output = out.new } }
{
    let shaper = steps::begin().shaper;
    walk(LentShapes { shaper, kept }, records, kept, out)
}
