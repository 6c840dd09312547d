// The glyph sets, the link line and the bytes of the box drawing renderers, after box_drawing.rs.
ghost use Rattle.std.specs.Prelude.{◌≡◌, [], ℕ, ◌<◌, ◌≤◌, get_or, set};
ghost use Rattle.render.specs.Link.{only};
ghost use Rattle.glyphs.specs.BoxDrawing.{ancestor, facts_of, styled};
ghost use Rattle.glyphs.specs.Cells.{glyphs_of};
ghost use Rattle.glyphs.specs.declared.Renderer.TheVariants.{Square};
ghost use Rattle.glyphs.specs.Inner.{Plain};
ghost use Rattle.glyphs.specs.LinkTable.{link_place, named, Names};
ghost use Rattle.glyphs.specs.Tables.{BoxTables, glyph_at, box_number, box_table};

use crate::Renderer;
use crate::table::GLYPH;
use crate::types::{Choice, PlainNumbers};
use render::{DashStyle, LinkLine};

// The numbers of the fifteen glyphs, in the order of box_drawing.rs: space 0, horizontal 1, parent 2, ancestor 3, merge left 4, merge right 5,
// merge both 6, fork left 7, fork right 8, fork both 9, join left 10, join right 11, join both 12, termination 13, ancestor once 14. Here are
// those that are not chosen by the table of link glyphs alone.
const SPACE: usize = 0;

const PARENT: usize = 2;

const ANCESTOR: usize = 3;

const TERMINATION: usize = 13;

const ANCESTOR_ONCE: usize = 14;

// The number of the mark, which stands behind them.
const MARK: usize = 15;

// The bytes of the glyphs of a table, the mark among them.
const GLYPHS: usize = (MARK + 1) * GLYPH;

// The entries of the table of link glyphs, which stand behind them.
const LINKS: usize = 512;

// The bytes of a table.
pub const BOX_TABLE: usize = GLYPHS + LINKS;

// The glyphs of each set: on each line the count of a glyph's bytes, and its eight places; the mark's place is left open.
const SQUARE_GLYPHS: [u8; GLYPHS] = *b"\
    \x02  \0\0\0\0\0\0\
    \x06\xe2\x94\x80\xe2\x94\x80\0\0\
    \x04\xe2\x94\x82 \0\0\0\0\
    \x03\xc2\xb7 \0\0\0\0\0\
    \x04\xe2\x94\x98 \0\0\0\0\
    \x06\xe2\x94\x94\xe2\x94\x80\0\0\
    \x06\xe2\x94\xb4\xe2\x94\x80\0\0\
    \x04\xe2\x94\x90 \0\0\0\0\
    \x06\xe2\x94\x8c\xe2\x94\x80\0\0\
    \x06\xe2\x94\xac\xe2\x94\x80\0\0\
    \x04\xe2\x94\xa4 \0\0\0\0\
    \x06\xe2\x94\x9c\xe2\x94\x80\0\0\
    \x06\xe2\x94\xbc\xe2\x94\x80\0\0\
    \x02~ \0\0\0\0\0\0\
    \x04\xe2\x94\x86 \0\0\0\0\
    \x02\0 \0\0\0\0\0\0\
";

const CURVED_GLYPHS: [u8; GLYPHS] = *b"\
    \x02  \0\0\0\0\0\0\
    \x06\xe2\x94\x80\xe2\x94\x80\0\0\
    \x04\xe2\x94\x82 \0\0\0\0\
    \x04\xe2\x95\xb7 \0\0\0\0\
    \x04\xe2\x95\xaf \0\0\0\0\
    \x06\xe2\x95\xb0\xe2\x94\x80\0\0\
    \x06\xe2\x94\xb4\xe2\x94\x80\0\0\
    \x04\xe2\x95\xae \0\0\0\0\
    \x06\xe2\x95\xad\xe2\x94\x80\0\0\
    \x06\xe2\x94\xac\xe2\x94\x80\0\0\
    \x04\xe2\x94\xa4 \0\0\0\0\
    \x06\xe2\x94\x9c\xe2\x94\x80\0\0\
    \x06\xe2\x94\xbc\xe2\x94\x80\0\0\
    \x02~ \0\0\0\0\0\0\
    \x04\xe2\x94\x86 \0\0\0\0\
    \x02\0 \0\0\0\0\0\0\
";

const DEC_GLYPHS: [u8; GLYPHS] = *b"\
    \x02  \0\0\0\0\0\0\
    \x08\x1b(0qq\x1b(B\
    \x08\x1b(0x \x1b(B\
    \x08\x1b(0~ \x1b(B\
    \x08\x1b(0j \x1b(B\
    \x08\x1b(0mq\x1b(B\
    \x08\x1b(0vq\x1b(B\
    \x08\x1b(0k \x1b(B\
    \x08\x1b(0lq\x1b(B\
    \x08\x1b(0wq\x1b(B\
    \x08\x1b(0u \x1b(B\
    \x08\x1b(0tq\x1b(B\
    \x08\x1b(0nq\x1b(B\
    \x02~ \0\0\0\0\0\0\
    \x02: \0\0\0\0\0\0\
    \x02\0 \0\0\0\0\0\0\
";

const NO_GLYPHS: [u8; GLYPHS] = *b"\
    \0\0\0\0\0\0\0\0\0\
    \0\0\0\0\0\0\0\0\0\
    \0\0\0\0\0\0\0\0\0\
    \0\0\0\0\0\0\0\0\0\
    \0\0\0\0\0\0\0\0\0\
    \0\0\0\0\0\0\0\0\0\
    \0\0\0\0\0\0\0\0\0\
    \0\0\0\0\0\0\0\0\0\
    \0\0\0\0\0\0\0\0\0\
    \0\0\0\0\0\0\0\0\0\
    \0\0\0\0\0\0\0\0\0\
    \0\0\0\0\0\0\0\0\0\
    \0\0\0\0\0\0\0\0\0\
    \0\0\0\0\0\0\0\0\0\
    \0\0\0\0\0\0\0\0\0\
    \x02\0 \0\0\0\0\0\0\
";

// The glyph's number for each nine facts of a link cell; ANCESTOR stands for the dashed upright of either style. A fact's weight is 1 for
// HORIZONTAL, 2 for VERT_PARENT, 4 for VERT_ANCESTOR, 8 and 16 for LEFT_FORK and RIGHT_FORK, 32 and 64 for LEFT_MERGE and RIGHT_MERGE,
// 128 for CHILD, 256 for the row's merge flag.
const LINK_GLYPHS: [u8; LINKS] = *b"\
    \x00\x01\x02\x01\x03\x01\x02\x01\x07\x09\x0a\x0c\x07\x09\x0a\x0c\x08\x09\x0b\x0c\x08\x09\x0b\x0c\x09\x09\x0c\x0c\x09\x09\x0c\x0c\
    \x04\x06\x0a\x06\x0a\x06\x0a\x06\x0a\x0c\x0a\x0c\x0a\x0c\x0a\x0c\x04\x0c\x0c\x0c\x04\x0c\x0c\x0c\x0a\x0c\x0c\x0c\x0a\x0c\x0c\x0c\
    \x05\x06\x0b\x06\x0b\x06\x0b\x06\x07\x0c\x0c\x0c\x07\x0c\x0c\x0c\x0b\x0c\x0b\x0c\x0b\x0c\x0b\x0c\x0b\x0c\x0c\x0c\x0b\x0c\x0c\x0c\
    \x06\x06\x0c\x06\x0c\x06\x0c\x06\x0a\x0c\x0c\x0c\x0a\x0c\x0c\x0c\x0b\x0c\x0c\x0c\x0b\x0c\x0c\x0c\x0a\x0c\x0c\x0c\x0a\x0c\x0c\x0c\
    \x00\x0c\x02\x0c\x03\x0c\x02\x0c\x0a\x0c\x0a\x0c\x0a\x0c\x0a\x0c\x0b\x0c\x0b\x0c\x0b\x0c\x0b\x0c\x0a\x0c\x0c\x0c\x0a\x0c\x0c\x0c\
    \x04\x0c\x0a\x0c\x0a\x0c\x0a\x0c\x0a\x0c\x0a\x0c\x0a\x0c\x0a\x0c\x0b\x0c\x0c\x0c\x0b\x0c\x0c\x0c\x0a\x0c\x0c\x0c\x0a\x0c\x0c\x0c\
    \x05\x0c\x0b\x0c\x0b\x0c\x0b\x0c\x0a\x0c\x0c\x0c\x0a\x0c\x0c\x0c\x0b\x0c\x0b\x0c\x0b\x0c\x0b\x0c\x0a\x0c\x0c\x0c\x0a\x0c\x0c\x0c\
    \x06\x0c\x0c\x0c\x0c\x0c\x0c\x0c\x0a\x0c\x0c\x0c\x0a\x0c\x0c\x0c\x0b\x0c\x0c\x0c\x0b\x0c\x0c\x0c\x0a\x0c\x0c\x0c\x0a\x0c\x0c\x0c\
    \x00\x01\x02\x01\x03\x01\x03\x01\x07\x09\x07\x09\x07\x09\x07\x09\x08\x09\x08\x09\x08\x09\x08\x09\x09\x09\x09\x09\x09\x09\x09\x09\
    \x04\x06\x0a\x06\x0a\x06\x0a\x06\x0a\x0c\x0a\x0c\x0a\x0c\x0a\x0c\x04\x0c\x04\x0c\x04\x0c\x04\x0c\x0a\x0c\x0a\x0c\x0a\x0c\x0a\x0c\
    \x05\x06\x0b\x06\x0b\x06\x0b\x06\x07\x0c\x07\x0c\x07\x0c\x07\x0c\x0b\x0c\x0b\x0c\x0b\x0c\x0b\x0c\x0b\x0c\x0b\x0c\x0b\x0c\x0b\x0c\
    \x06\x06\x0c\x06\x0c\x06\x0c\x06\x0a\x0c\x0a\x0c\x0a\x0c\x0a\x0c\x0b\x0c\x0b\x0c\x0b\x0c\x0b\x0c\x0a\x0c\x0a\x0c\x0a\x0c\x0a\x0c\
    \x00\x0c\x02\x0c\x03\x0c\x03\x0c\x0a\x0c\x0a\x0c\x0a\x0c\x0a\x0c\x0b\x0c\x0b\x0c\x0b\x0c\x0b\x0c\x0a\x0c\x0a\x0c\x0a\x0c\x0a\x0c\
    \x04\x0c\x0a\x0c\x0a\x0c\x0a\x0c\x0a\x0c\x0a\x0c\x0a\x0c\x0a\x0c\x0b\x0c\x0b\x0c\x0b\x0c\x0b\x0c\x0a\x0c\x0a\x0c\x0a\x0c\x0a\x0c\
    \x05\x0c\x0b\x0c\x0b\x0c\x0b\x0c\x0a\x0c\x0a\x0c\x0a\x0c\x0a\x0c\x0b\x0c\x0b\x0c\x0b\x0c\x0b\x0c\x0a\x0c\x0a\x0c\x0a\x0c\x0a\x0c\
    \x06\x0c\x0c\x0c\x0c\x0c\x0c\x0c\x0a\x0c\x0a\x0c\x0a\x0c\x0a\x0c\x0b\x0c\x0b\x0c\x0b\x0c\x0b\x0c\x0a\x0c\x0a\x0c\x0a\x0c\x0a\x0c\
";

// The dashed upright's number.
fn dashed(dash_style: DashStyle) -> usize
    ensures { result ≡ ancestor dash_style }
{
    match dash_style {
        DashStyle::Persistent => ANCESTOR,
        DashStyle::Once => ANCESTOR_ONCE,
    }
}

// A fact's weight in the place of an entry, 0 where the fact does not hold.
fn weighed(fact: bool, weight: usize) -> usize
    ensures { (result ≡ only fact weight) × (result ≤ weight) }
{
    if fact { weight } else { 0 }
}

// The place of a link cell's entry among the 512.
fn link_place(merge: bool, cur: LinkLine) -> usize
    ensures { (result ≡ link_place (facts_of merge cur)) × (result < 512) }
{
    weighed(cur.intersects(LinkLine::HORIZONTAL), 1)
        + weighed(cur.intersects(LinkLine::VERT_PARENT), 2)
        + weighed(cur.intersects(LinkLine::VERT_ANCESTOR), 4)
        + weighed(cur.intersects(LinkLine::LEFT_FORK), 8)
        + weighed(cur.intersects(LinkLine::RIGHT_FORK), 16)
        + weighed(cur.intersects(LinkLine::LEFT_MERGE), 32)
        + weighed(cur.intersects(LinkLine::RIGHT_MERGE), 64)
        + weighed(cur.intersects(LinkLine::CHILD), 128)
        + weighed(merge, 256)
}

// A byte as a number. Its bound is what `link_glyph` promises.
fn wide(byte: u8) -> usize
    ensures { (result ≡ byte) × (result < 256) }
{
    byte as usize
}

// The glyph's number that a table names for a link cell, 0 past the table's end.
pub(crate) fn link_glyph(table: &[u8], merge: bool, cur: LinkLine) -> usize
    ensures { (result ≡ named table.now (facts_of merge cur)) × (result < 256) }
{
    let at = GLYPHS + link_place(merge, cur);
    if table.len() <= at {
        return 0;
    }
    wide(table[at])
}

// The row's own dashed upright in place of ANCESTOR.
fn own_dash(dash_style: DashStyle, n: usize) -> usize
    ensures { result ≡ styled dash_style n }
{
    if n == ANCESTOR {
        return dashed(dash_style);
    }
    n
}

// The number of the glyph that a choice is drawn by, past the last where there is none.
pub(crate) fn number(choice: Choice, dash_style: DashStyle) -> usize
    ensures { result ≡ box_number dash_style choice }
{
    match choice {
        Choice::Space => SPACE,
        Choice::Solid => PARENT,
        Choice::Dashed => dashed(dash_style),
        Choice::Mark => MARK,
        Choice::End => TERMINATION,
        Choice::Two(_, _) | Choice::Three(_, _, _) => MARK + 1,
        Choice::Glyph(n) => own_dash(dash_style, n),
    }
}

// The numbers of a cell that is given no link.
#[tactic(auto, unfolding(crate::specs::Tables::number_of))]
pub(crate) fn plain_numbers(dash_style: DashStyle) -> PlainNumbers
    ensures { (i : ℕ) → Plain Square dash_style i result }
{
    PlainNumbers {
        space: SPACE as u8,
        solid: PARENT as u8,
        dashed: dashed(dash_style) as u8,
        mark: MARK as u8,
        end: TERMINATION as u8,
    }
}

// The glyphs of a renderer, the mark's place left open; the ASCII ones have none.
fn glyphs(renderer: Renderer) -> [u8; GLYPHS]
    ensures { (m : ℕ) (n : ℕ) → glyph_at (set result 136 m) n ≡ get_or (box_table (glyphs_of renderer) m) n [] }
{
    match renderer {
        Renderer::Ascii | Renderer::AsciiLarge => NO_GLYPHS,
        Renderer::Square => SQUARE_GLYPHS,
        Renderer::Curved => CURVED_GLYPHS,
        Renderer::Dec => DEC_GLYPHS,
    }
}

// The glyphs of a renderer, with the mark in its place.
fn marked_glyphs(renderer: Renderer, mark: u8) -> [u8; GLYPHS]
    ensures { (n : ℕ) → glyph_at result n ≡ get_or (box_table (glyphs_of renderer) mark) n [] }
{
    let mut glyphs = glyphs(renderer);
    glyphs[MARK * GLYPH + 1] = mark;
    glyphs
}

// The entries of the table of link glyphs.
fn link_glyphs() -> [u8; LINKS]
    ensures { Names (λ (k : ℕ). get_or result k 0) }
{
    LINK_GLYPHS
}

// The table of a box drawing renderer: its glyphs with the mark in its place, and the link glyphs.
pub fn box_table(renderer: Renderer, mark: u8) -> [u8; BOX_TABLE]
    ensures { BoxTables result (glyphs_of renderer) mark }
{
    let mut table = [0u8; BOX_TABLE];
    let glyphs = marked_glyphs(renderer, mark);
    let links = link_glyphs();
    table[..GLYPHS].copy_from_slice(&glyphs);
    table[GLYPHS..].copy_from_slice(&links);
    table
}
