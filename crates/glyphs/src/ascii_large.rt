// The link lines and the bytes of the large ASCII renderer, after ascii_large.rs.
ghost use Rattle.std.specs.Prelude.{◌≡◌, cond, [], ℕ, ◌*◌, ltb, get_or};
ghost use Rattle.glyphs.specs.Ascii.{ancestor};
ghost use Rattle.glyphs.specs.AsciiLarge.{stroke, level, top_left, lying, top_center, top_right, bottom_left, bottom_center, bottom_right, linked};
ghost use Rattle.glyphs.specs.declared.Renderer.TheVariants.{AsciiLarge};
ghost use Rattle.glyphs.specs.Inner.{Plain};
ghost use Rattle.glyphs.specs.Tables.{glyph_at, place_in, lefts, centers, rights, first_number, three_number, apart_number, large_number, large_table};

use crate::ascii::dash;
use crate::table::GLYPH;
use crate::types::{Choice, PlainNumbers};
use render::{DashStyle, LinkLine};

// The number of the first cell's first two characters: five left characters with six centers and five right ones each stand before it.
const FIRST: usize = 150;

// The number of the mark, which stands behind them.
const MARK: usize = 180;

// The bytes of the table.
pub const LARGE_TABLE: usize = (MARK + 2) * GLYPH;

// The glyphs of the table: on each line the count of a glyph's bytes, and its eight places; the mark's places are left open.
const LARGE_GLYPHS: [u8; LARGE_TABLE] = *b"\
    \x03   \0\0\0\0\0\
    \x03  \\\0\0\0\0\0\
    \x03  .\0\0\0\0\0\
    \x03  _\0\0\0\0\0\
    \x03  /\0\0\0\0\0\
    \x03 | \0\0\0\0\0\
    \x03 |\\\0\0\0\0\0\
    \x03 |.\0\0\0\0\0\
    \x03 |_\0\0\0\0\0\
    \x03 |/\0\0\0\0\0\
    \x03 . \0\0\0\0\0\
    \x03 .\\\0\0\0\0\0\
    \x03 ..\0\0\0\0\0\
    \x03 ._\0\0\0\0\0\
    \x03 ./\0\0\0\0\0\
    \x03 : \0\0\0\0\0\
    \x03 :\\\0\0\0\0\0\
    \x03 :.\0\0\0\0\0\
    \x03 :_\0\0\0\0\0\
    \x03 :/\0\0\0\0\0\
    \x03 _ \0\0\0\0\0\
    \x03 _\\\0\0\0\0\0\
    \x03 _.\0\0\0\0\0\
    \x03 __\0\0\0\0\0\
    \x03 _/\0\0\0\0\0\
    \x03 ~ \0\0\0\0\0\
    \x03 ~\\\0\0\0\0\0\
    \x03 ~.\0\0\0\0\0\
    \x03 ~_\0\0\0\0\0\
    \x03 ~/\0\0\0\0\0\
    \x03/  \0\0\0\0\0\
    \x03/ \\\0\0\0\0\0\
    \x03/ .\0\0\0\0\0\
    \x03/ _\0\0\0\0\0\
    \x03/ /\0\0\0\0\0\
    \x03/| \0\0\0\0\0\
    \x03/|\\\0\0\0\0\0\
    \x03/|.\0\0\0\0\0\
    \x03/|_\0\0\0\0\0\
    \x03/|/\0\0\0\0\0\
    \x03/. \0\0\0\0\0\
    \x03/.\\\0\0\0\0\0\
    \x03/..\0\0\0\0\0\
    \x03/._\0\0\0\0\0\
    \x03/./\0\0\0\0\0\
    \x03/: \0\0\0\0\0\
    \x03/:\\\0\0\0\0\0\
    \x03/:.\0\0\0\0\0\
    \x03/:_\0\0\0\0\0\
    \x03/:/\0\0\0\0\0\
    \x03/_ \0\0\0\0\0\
    \x03/_\\\0\0\0\0\0\
    \x03/_.\0\0\0\0\0\
    \x03/__\0\0\0\0\0\
    \x03/_/\0\0\0\0\0\
    \x03/~ \0\0\0\0\0\
    \x03/~\\\0\0\0\0\0\
    \x03/~.\0\0\0\0\0\
    \x03/~_\0\0\0\0\0\
    \x03/~/\0\0\0\0\0\
    \x03.  \0\0\0\0\0\
    \x03. \\\0\0\0\0\0\
    \x03. .\0\0\0\0\0\
    \x03. _\0\0\0\0\0\
    \x03. /\0\0\0\0\0\
    \x03.| \0\0\0\0\0\
    \x03.|\\\0\0\0\0\0\
    \x03.|.\0\0\0\0\0\
    \x03.|_\0\0\0\0\0\
    \x03.|/\0\0\0\0\0\
    \x03.. \0\0\0\0\0\
    \x03..\\\0\0\0\0\0\
    \x03...\0\0\0\0\0\
    \x03.._\0\0\0\0\0\
    \x03../\0\0\0\0\0\
    \x03.: \0\0\0\0\0\
    \x03.:\\\0\0\0\0\0\
    \x03.:.\0\0\0\0\0\
    \x03.:_\0\0\0\0\0\
    \x03.:/\0\0\0\0\0\
    \x03._ \0\0\0\0\0\
    \x03._\\\0\0\0\0\0\
    \x03._.\0\0\0\0\0\
    \x03.__\0\0\0\0\0\
    \x03._/\0\0\0\0\0\
    \x03.~ \0\0\0\0\0\
    \x03.~\\\0\0\0\0\0\
    \x03.~.\0\0\0\0\0\
    \x03.~_\0\0\0\0\0\
    \x03.~/\0\0\0\0\0\
    \x03_  \0\0\0\0\0\
    \x03_ \\\0\0\0\0\0\
    \x03_ .\0\0\0\0\0\
    \x03_ _\0\0\0\0\0\
    \x03_ /\0\0\0\0\0\
    \x03_| \0\0\0\0\0\
    \x03_|\\\0\0\0\0\0\
    \x03_|.\0\0\0\0\0\
    \x03_|_\0\0\0\0\0\
    \x03_|/\0\0\0\0\0\
    \x03_. \0\0\0\0\0\
    \x03_.\\\0\0\0\0\0\
    \x03_..\0\0\0\0\0\
    \x03_._\0\0\0\0\0\
    \x03_./\0\0\0\0\0\
    \x03_: \0\0\0\0\0\
    \x03_:\\\0\0\0\0\0\
    \x03_:.\0\0\0\0\0\
    \x03_:_\0\0\0\0\0\
    \x03_:/\0\0\0\0\0\
    \x03__ \0\0\0\0\0\
    \x03__\\\0\0\0\0\0\
    \x03__.\0\0\0\0\0\
    \x03___\0\0\0\0\0\
    \x03__/\0\0\0\0\0\
    \x03_~ \0\0\0\0\0\
    \x03_~\\\0\0\0\0\0\
    \x03_~.\0\0\0\0\0\
    \x03_~_\0\0\0\0\0\
    \x03_~/\0\0\0\0\0\
    \x03\\  \0\0\0\0\0\
    \x03\\ \\\0\0\0\0\0\
    \x03\\ .\0\0\0\0\0\
    \x03\\ _\0\0\0\0\0\
    \x03\\ /\0\0\0\0\0\
    \x03\\| \0\0\0\0\0\
    \x03\\|\\\0\0\0\0\0\
    \x03\\|.\0\0\0\0\0\
    \x03\\|_\0\0\0\0\0\
    \x03\\|/\0\0\0\0\0\
    \x03\\. \0\0\0\0\0\
    \x03\\.\\\0\0\0\0\0\
    \x03\\..\0\0\0\0\0\
    \x03\\._\0\0\0\0\0\
    \x03\\./\0\0\0\0\0\
    \x03\\: \0\0\0\0\0\
    \x03\\:\\\0\0\0\0\0\
    \x03\\:.\0\0\0\0\0\
    \x03\\:_\0\0\0\0\0\
    \x03\\:/\0\0\0\0\0\
    \x03\\_ \0\0\0\0\0\
    \x03\\_\\\0\0\0\0\0\
    \x03\\_.\0\0\0\0\0\
    \x03\\__\0\0\0\0\0\
    \x03\\_/\0\0\0\0\0\
    \x03\\~ \0\0\0\0\0\
    \x03\\~\\\0\0\0\0\0\
    \x03\\~.\0\0\0\0\0\
    \x03\\~_\0\0\0\0\0\
    \x03\\~/\0\0\0\0\0\
    \x02  \0\0\0\0\0\0\
    \x02 \\\0\0\0\0\0\0\
    \x02 .\0\0\0\0\0\0\
    \x02 _\0\0\0\0\0\0\
    \x02 /\0\0\0\0\0\0\
    \x02| \0\0\0\0\0\0\
    \x02|\\\0\0\0\0\0\0\
    \x02|.\0\0\0\0\0\0\
    \x02|_\0\0\0\0\0\0\
    \x02|/\0\0\0\0\0\0\
    \x02. \0\0\0\0\0\0\
    \x02.\\\0\0\0\0\0\0\
    \x02..\0\0\0\0\0\0\
    \x02._\0\0\0\0\0\0\
    \x02./\0\0\0\0\0\0\
    \x02: \0\0\0\0\0\0\
    \x02:\\\0\0\0\0\0\0\
    \x02:.\0\0\0\0\0\0\
    \x02:_\0\0\0\0\0\0\
    \x02:/\0\0\0\0\0\0\
    \x02_ \0\0\0\0\0\0\
    \x02_\\\0\0\0\0\0\0\
    \x02_.\0\0\0\0\0\0\
    \x02__\0\0\0\0\0\0\
    \x02_/\0\0\0\0\0\0\
    \x02~ \0\0\0\0\0\0\
    \x02~\\\0\0\0\0\0\0\
    \x02~.\0\0\0\0\0\0\
    \x02~_\0\0\0\0\0\0\
    \x02~/\0\0\0\0\0\0\
    \x03 \0 \0\0\0\0\0\
    \x02\0 \0\0\0\0\0\0\
";

// One character where the cell has the parent's mark, one where it has the ancestor's, else another; six by value, as the definition names each.
fn pick(cur: LinkLine, parent: LinkLine, ancestor: LinkLine, solid: u8, dashed: u8, other: u8) -> u8
    ensures { result ≡ stroke cur parent ancestor solid dashed other }
{
    if cur.intersects(parent) {
        solid
    } else if cur.intersects(ancestor) {
        dashed
    } else {
        other
    }
}

// The horizontal stroke of the upper link line.
#[tactic(auto, unfolding(crate::specs::AsciiLarge::level))]
fn horizontal(cur: LinkLine) -> u8
    ensures { result ≡ level cur }
{
    pick(
        cur,
        LinkLine::HORIZ_PARENT,
        LinkLine::HORIZ_ANCESTOR,
        b'_',
        b'.',
        b' ',
    )
}

// The left character of the upper link line.
#[tactic(auto, unfolding(crate::specs::AsciiLarge::top_left))]
fn top_left(cur: LinkLine) -> u8
    ensures { result ≡ top_left cur }
{
    pick(
        cur,
        LinkLine::LEFT_MERGE_PARENT,
        LinkLine::LEFT_MERGE_ANCESTOR,
        b'/',
        b'.',
        horizontal(cur),
    )
}

// What the upper link line's center shows without an upright.
#[tactic(auto, unfolding(crate::specs::AsciiLarge::lying))]
fn below_center(cur: LinkLine) -> u8
    ensures { result ≡ lying cur }
{
    if cur.intersects(LinkLine::ANY_MERGE) {
        b' '
    } else {
        horizontal(cur)
    }
}

// The center of the upper link line.
#[tactic(auto, unfolding(crate::specs::AsciiLarge::top_center))]
fn top_center(dash_style: DashStyle, cur: LinkLine) -> u8
    ensures { result ≡ top_center dash_style cur }
{
    pick(
        cur,
        LinkLine::VERT_PARENT,
        LinkLine::VERT_ANCESTOR,
        b'|',
        dash(dash_style),
        below_center(cur),
    )
}

// The right character of the upper link line.
#[tactic(auto, unfolding(crate::specs::AsciiLarge::top_right))]
fn top_right(cur: LinkLine) -> u8
    ensures { result ≡ top_right cur }
{
    pick(
        cur,
        LinkLine::RIGHT_MERGE_PARENT,
        LinkLine::RIGHT_MERGE_ANCESTOR,
        b'\\',
        b'.',
        horizontal(cur),
    )
}

// The left character of the lower link line.
#[tactic(auto, unfolding(crate::specs::AsciiLarge::bottom_left))]
fn bottom_left(cur: LinkLine) -> u8
    ensures { result ≡ bottom_left cur }
{
    pick(
        cur,
        LinkLine::LEFT_FORK_PARENT,
        LinkLine::LEFT_FORK_ANCESTOR,
        b'\\',
        b'.',
        b' ',
    )
}

// The center of the lower link line.
#[tactic(auto, unfolding(crate::specs::AsciiLarge::bottom_center))]
fn bottom_center(dash_style: DashStyle, cur: LinkLine) -> u8
    ensures { result ≡ bottom_center dash_style cur }
{
    pick(
        cur,
        LinkLine::VERT_PARENT,
        LinkLine::VERT_ANCESTOR,
        b'|',
        dash(dash_style),
        b' ',
    )
}

// The right character of the lower link line.
#[tactic(auto, unfolding(crate::specs::AsciiLarge::bottom_right))]
fn bottom_right(cur: LinkLine) -> u8
    ensures { result ≡ bottom_right cur }
{
    pick(
        cur,
        LinkLine::RIGHT_FORK_PARENT,
        LinkLine::RIGHT_FORK_ANCESTOR,
        b'/',
        b'.',
        b' ',
    )
}

// Three characters, without the first in cell 0.
fn characters(index: usize, left: u8, center: u8, right: u8) -> Choice
    ensures { result ≡ linked index left center right }
{
    if 0 < index {
        Choice::Three(left, center, right)
    } else {
        Choice::Two(center, right)
    }
}

// A cell of the upper link line; beside `bottom`, since each names its own three characters.
pub(crate) fn top(dash_style: DashStyle, index: usize, cur: LinkLine) -> Choice
    ensures { result ≡ linked index (top_left cur) (top_center dash_style cur) (top_right cur) }
{
    characters(
        index,
        top_left(cur),
        top_center(dash_style, cur),
        top_right(cur),
    )
}

// A cell of the lower link line.
pub(crate) fn bottom(dash_style: DashStyle, index: usize, cur: LinkLine) -> Choice
    ensures { result ≡ linked index (bottom_left cur) (bottom_center dash_style cur) (bottom_right cur) }
{
    characters(
        index,
        bottom_left(cur),
        bottom_center(dash_style, cur),
        bottom_right(cur),
    )
}

// The number of a left character, past the last where it is none; a match here and below, as in ascii.rt.
fn left_number(character: u8) -> usize
    ensures { result ≡ place_in lefts character }
{
    match character {
        b' ' => 0,
        b'/' => 1,
        b'.' => 2,
        b'_' => 3,
        b'\\' => 4,
        _ => 5,
    }
}

// The number of a center, past the last where it is none.
fn center_number(character: u8) -> usize
    ensures { result ≡ place_in centers character }
{
    match character {
        b' ' => 0,
        b'|' => 1,
        b'.' => 2,
        b':' => 3,
        b'_' => 4,
        b'~' => 5,
        _ => 6,
    }
}

// The number of a right character, past the last where it is none.
fn right_number(character: u8) -> usize
    ensures { result ≡ place_in rights character }
{
    match character {
        b' ' => 0,
        b'\\' => 1,
        b'.' => 2,
        b'_' => 3,
        b'/' => 4,
        _ => 5,
    }
}

// The number of two characters of the first cell.
fn first_number(center: u8, right: u8) -> usize
    ensures { result ≡ first_number center right }
{
    FIRST + (5 * center_number(center) + right_number(right))
}

// The number of three characters.
fn three_number(left: u8, center: u8, right: u8) -> usize
    ensures { result ≡ three_number left center right }
{
    30 * left_number(left) + (5 * center_number(center) + right_number(right))
}

// The number of a character and a blank, with a blank before them in each cell but the first.
fn apart_number(index: usize, character: u8) -> usize
    ensures { result ≡ apart_number index character }
{
    if 0 < index {
        three_number(b' ', character, b' ')
    } else {
        first_number(character, b' ')
    }
}

// The number of the mark.
fn mark_number(index: usize) -> usize
    ensures { result ≡ cond (ltb 0 index) 180 181 }
{
    if 0 < index { MARK } else { MARK + 1 }
}

// The number of a cell's choice in the table, past the last where it has none.
pub(crate) fn number(choice: Choice, dash_style: DashStyle, index: usize) -> usize
    ensures { result ≡ large_number dash_style index choice }
{
    match choice {
        Choice::Space => apart_number(index, b' '),
        Choice::Solid => apart_number(index, b'|'),
        Choice::Dashed => apart_number(index, dash(dash_style)),
        Choice::Mark => mark_number(index),
        Choice::End => apart_number(index, b'~'),
        Choice::Two(b, c) => first_number(b, c),
        Choice::Three(a, b, c) => three_number(a, b, c),
        Choice::Glyph(_) => MARK + 2,
    }
}

// The place of the dashed upright among the centers, five numbers for each.
fn dashed_number(dash_style: DashStyle) -> u8
    ensures { result ≡ 5 * place_in centers (ancestor dash_style) }
{
    match dash_style {
        DashStyle::Persistent => 10,
        DashStyle::Once => 15,
    }
}

// The numbers of a cell that is given no link.
#[tactic(auto, using(crate::proofs::TableLaws::dashed_apart, crate::proofs::TableLaws::dashed_first), unfolding(crate::specs::Tables::number_of))]
pub(crate) fn plain_numbers(dash_style: DashStyle, index: usize) -> PlainNumbers
    ensures { Plain AsciiLarge dash_style index result }
{
    let dashed = dashed_number(dash_style);
    if 0 < index {
        PlainNumbers {
            space: 0,
            solid: 5,
            dashed,
            mark: 180,
            end: 25,
        }
    } else {
        PlainNumbers {
            space: 150,
            solid: 155,
            dashed: 150 + dashed,
            mark: 181,
            end: 175,
        }
    }
}

// The table of the large ASCII renderer, with the mark in its places.
pub fn large_table(mark: u8) -> [u8; LARGE_TABLE]
    ensures { (n : ℕ) → glyph_at result n ≡ get_or (large_table mark) n [] }
{
    let mut table = LARGE_GLYPHS;
    table[MARK * GLYPH + 2] = mark;
    table[(MARK + 1) * GLYPH + 1] = mark;
    table
}
