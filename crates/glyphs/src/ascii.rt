// The link line and the bytes of the ASCII renderer, after ascii.rs.
ghost use Rattle.std.specs.Prelude.{◌≡◌, [], ℕ, get_or};
ghost use Rattle.glyphs.specs.Ascii.{ancestor, standing, upright, connection};
ghost use Rattle.glyphs.specs.declared.Renderer.TheVariants.{Ascii};
ghost use Rattle.glyphs.specs.Inner.{Plain};
ghost use Rattle.slices.specs.Characters.{blank};
ghost use Rattle.glyphs.specs.Tables.{glyph_at, place_in, uprights, connections, pair_number, ascii_number, ascii_table};

use crate::table::GLYPH;
use crate::types::{Choice, PlainNumbers, Row};
use render::{DashStyle, LinkLine};

// The number of the mark: eight uprights with four connecting characters each stand before it.
const MARK: usize = 32;

// The bytes of the table.
pub const ASCII_TABLE: usize = (MARK + 1) * GLYPH;

// The glyphs of the table: on each line the count of a glyph's bytes, and its eight places; the mark's place is left open.
const ASCII_GLYPHS: [u8; ASCII_TABLE] = *b"\
    \x02  \0\0\0\0\0\0\
    \x02 -\0\0\0\0\0\0\
    \x02 \\\0\0\0\0\0\0\
    \x02 /\0\0\0\0\0\0\
    \x02| \0\0\0\0\0\0\
    \x02|-\0\0\0\0\0\0\
    \x02|\\\0\0\0\0\0\0\
    \x02|/\0\0\0\0\0\0\
    \x02. \0\0\0\0\0\0\
    \x02.-\0\0\0\0\0\0\
    \x02.\\\0\0\0\0\0\0\
    \x02./\0\0\0\0\0\0\
    \x02: \0\0\0\0\0\0\
    \x02:-\0\0\0\0\0\0\
    \x02:\\\0\0\0\0\0\0\
    \x02:/\0\0\0\0\0\0\
    \x02+ \0\0\0\0\0\0\
    \x02+-\0\0\0\0\0\0\
    \x02+\\\0\0\0\0\0\0\
    \x02+/\0\0\0\0\0\0\
    \x02- \0\0\0\0\0\0\
    \x02--\0\0\0\0\0\0\
    \x02-\\\0\0\0\0\0\0\
    \x02-/\0\0\0\0\0\0\
    \x02' \0\0\0\0\0\0\
    \x02'-\0\0\0\0\0\0\
    \x02'\\\0\0\0\0\0\0\
    \x02'/\0\0\0\0\0\0\
    \x02~ \0\0\0\0\0\0\
    \x02~-\0\0\0\0\0\0\
    \x02~\\\0\0\0\0\0\0\
    \x02~/\0\0\0\0\0\0\
    \x02\0 \0\0\0\0\0\0\
";

// The marks that make a horizontal stroke a crossing.
const CHILD_FORK_OR_MERGE: LinkLine = LinkLine {
    bits: LinkLine::CHILD.bits | LinkLine::ANY_FORK_OR_MERGE.bits,
};

// The dashed upright's character.
pub(crate) fn dash(dash_style: DashStyle) -> u8
    ensures { result ≡ ancestor dash_style }
{
    match dash_style {
        DashStyle::Persistent => b'.',
        DashStyle::Once => b':',
    }
}

// The upright of a link cell that has no horizontal stroke.
#[tactic(auto, unfolding(crate::specs::Ascii::standing))]
fn standing_upright(row: Row, cur: LinkLine) -> u8
    ensures { result ≡ standing row cur }
{
    let dash_style = row.dash_style;
    if cur.intersects(LinkLine::ANY_FORK_OR_MERGE) & row.any_horizontal {
        b'+'
    } else if cur.intersects(LinkLine::VERT_PARENT) {
        b'|'
    } else {
        dash(dash_style)
    }
}

// The parent or ancestor line of a link cell.
#[tactic(auto, unfolding(crate::specs::Ascii::upright))]
pub(crate) fn link_upright(row: Row, cur: LinkLine) -> u8
    ensures { result ≡ upright row cur }
{
    if cur.intersects(LinkLine::HORIZONTAL) {
        if cur.intersects(CHILD_FORK_OR_MERGE) {
            b'+'
        } else {
            b'-'
        }
    } else if cur.intersects(LinkLine::VERTICAL) {
        standing_upright(row, cur)
    } else if cur.intersects(LinkLine::ANY_MERGE) & row.any_horizontal {
        b'\''
    } else if cur.intersects(LinkLine::ANY_FORK) & row.any_horizontal {
        b'.'
    } else {
        b' '
    }
}

// The connecting line of a link cell.
#[tactic(auto, unfolding(crate::specs::Ascii::connection))]
pub(crate) fn link_connection(row: Row, cur: LinkLine, next: LinkLine) -> u8
    ensures { result ≡ connection row cur next }
{
    if cur.intersects(LinkLine::HORIZONTAL) {
        b'-'
    } else if cur.intersects(LinkLine::RIGHT_MERGE) {
        if next.intersects(LinkLine::LEFT_FORK) & !row.any_horizontal {
            b'\\'
        } else {
            b'-'
        }
    } else if cur.intersects(LinkLine::RIGHT_FORK) {
        if next.intersects(LinkLine::LEFT_MERGE) & !row.any_horizontal {
            b'/'
        } else {
            b'-'
        }
    } else {
        b' '
    }
}

// The number of an upright, or of another first character of a cell, past the last where it is none. Here and below a match is as plain as a
// search of a list of the characters would be: one arm for each.
fn upright_number(character: u8) -> usize
    ensures { result ≡ place_in uprights character }
{
    match character {
        b' ' => 0,
        b'|' => 1,
        b'.' => 2,
        b':' => 3,
        b'+' => 4,
        b'-' => 5,
        b'\'' => 6,
        b'~' => 7,
        _ => 8,
    }
}

// The number of a connecting character, past the last where it is none.
fn connection_number(character: u8) -> usize
    ensures { result ≡ place_in connections character }
{
    match character {
        b' ' => 0,
        b'-' => 1,
        b'\\' => 2,
        b'/' => 3,
        _ => 4,
    }
}

// The number of two characters in the table.
fn pair_number(upright: u8, connection: u8) -> usize
    ensures { result ≡ pair_number upright connection }
{
    4 * upright_number(upright) + connection_number(connection)
}

// The number of a choice in the table, past the last where it has none.
pub(crate) fn number(choice: Choice, dash_style: DashStyle) -> usize
    ensures { result ≡ ascii_number dash_style choice }
{
    match choice {
        Choice::Space => pair_number(b' ', b' '),
        Choice::Solid => pair_number(b'|', b' '),
        Choice::Dashed => pair_number(dash(dash_style), b' '),
        Choice::Mark => MARK,
        Choice::End => pair_number(b'~', b' '),
        Choice::Two(a, b) => pair_number(a, b),
        Choice::Three(_, _, _) | Choice::Glyph(_) => MARK + 1,
    }
}

// The dashed upright's number with a blank behind it.
fn dashed_number(dash_style: DashStyle) -> u8
    ensures { result ≡ pair_number (ancestor dash_style) blank }
{
    match dash_style {
        DashStyle::Persistent => 8,
        DashStyle::Once => 12,
    }
}

// The numbers of a cell that is given no link.
#[tactic(auto, unfolding(crate::specs::Tables::number_of))]
pub(crate) fn plain_numbers(dash_style: DashStyle) -> PlainNumbers
    ensures { (i : ℕ) → Plain Ascii dash_style i result }
{
    PlainNumbers {
        space: 0,
        solid: 4,
        dashed: dashed_number(dash_style),
        mark: 32,
        end: 28,
    }
}

// The table of the ASCII renderer, with the mark in its place.
pub fn ascii_table(mark: u8) -> [u8; ASCII_TABLE]
    ensures { (n : ℕ) → glyph_at result n ≡ get_or (ascii_table mark) n [] }
{
    let mut table = ASCII_GLYPHS;
    table[MARK * GLYPH + 1] = mark;
    table
}
