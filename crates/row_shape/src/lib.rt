// The row call by value, after graph_to_row_shape.rs.
#![tactic(auto)]

ghost use Rattle.std.specs.Prelude.{◌≡◌, ◌<◌, ◌≤◌, length};
ghost use Rattle.std.specs.List.{swap};
ghost use Rattle.column.specs.Columns.{column_limit, live, trim};
ghost use Rattle.row_shape.specs.Row.{no_shape};
ghost use Rattle.row_shape.specs.Inner.{separator_with};
ghost use Rattle.row_shape.specs.Promises.{row_answer_from, Rows};

use cells::{cell, plain_cell, shown};
use column::{COLUMN_LIMIT, Column, Slot};
use links::{AncestorColumnBounds, Drawn, Swap};
use render::{Cell, DashStyle, Entries, LinkLinePlacement, Options, Refusal, RowShape, Style};
use shaper::{Shaper, find_column};
use std::mem;

// What an accepted row call gives: the shape, and the shaper after it.
#[derive(Clone, Copy)]
pub struct NextRow {
    pub shape: RowShape,
    pub shaper: Shaper,
}

// What a refused row call gives in the place of a shape: a shape without cells, its numbers 0, its flags no, its optional lines absent, Persistent and Top.
pub fn no_shape() -> RowShape
    ensures { result ≡ no_shape }
{
    let blank = Cell::blank();
    let cells = [blank; COLUMN_LIMIT];
    RowShape {
        node: 0,
        merge: false,
        separator_line: false,
        style: Style {
            dash_style: DashStyle::Persistent,
            link_line_placement: LinkLinePlacement::Top,
        },
        is_head: false,
        is_root: false,
        node_column: 0,
        width: 0,
        link_line: false,
        term_line: false,
        cells,
    }
}

// Whether the row needs a separator from the row before.
fn separator_line(
    options: Options,
    previous: Option<usize>,
    existing: Option<usize>,
    column: usize,
    need_term_line: bool,
) -> bool
    ensures { result ≡ separator_with options previous existing column need_term_line }
{
    existing.is_none()
        && options.min_row_height <= 1
        && !options.stagger_consecutive_disconnected_nodes
        && previous == Some(column)
        && !need_term_line
}

// The number of columns without the Empty ones at the end, counted down as `reset` in column.rs pops them: a chain from the back would
// count what goes and take it away.
fn trimmed(slots: &[Slot]) -> usize
    ensures within { result ≤ length slots.now }
    ensures left { live result slots.now ≡ trim (live (length slots.now) slots.now) }
{
    let mut count = slots.len();
    while 0 < count && slots[count - 1].column.is_empty() {
        count -= 1;
    }
    count
}

// Two columns change places, each slot as a whole: kind, id and origin.
fn exchange(slots: &mut [Slot; COLUMN_LIMIT], column: usize, other: usize)
    requires { (column < column_limit) × (other < column_limit) }
    ensures after { slots.new ≡ swap slots.old column other }
{
    slots.swap(column, other);
}

// The row call: the next node as a row shape. One function owns the slots and who draws in them, and walks the entries and the cells: a
// function that was given them and gave them back would copy the arrays several times for each row.
pub fn next_row_shape(shaper: Shaper, node: u32, entries: Entries) -> Result<NextRow, Refusal>
    ensures { Rows shaper node entries (row_answer_from shaper result) }
{
    if entries.are_too_many() {
        return Err(Refusal::TooManyEntries);
    }
    let options = shaper.options;
    let previous = shaper.previous_node_column;
    let mut slots = shaper.slots;
    let held = shaper.count;
    let live = column::live_count(held);
    let existing = column::find(slots, held, node);
    let Some(column) = find_column(slots, held, options, previous, existing) else {
        return Err(Refusal::NodeLineTooWide);
    };
    let is_head = shaper::is_head(existing, slots[column].column);
    // the node's column becomes Empty, and so does a placeholder before a new last one
    slots[placing::placeholder(live, column)] = Slot::empty();
    slots[column] = Slot::empty();
    let mut count = column::count_with(live, column);
    // then entries go in order
    let mut parents = [Drawn::Nobody; COLUMN_LIMIT];
    let mut parent_column = 0;
    let mut need_term_line = false;
    let n = entries.count;
    for entry in &entries.list[..n] {
        let ancestor = entry.ancestor;
        let index = placing::parent_column(slots, count, column, ancestor);
        if COLUMN_LIMIT <= index {
            return Err(Refusal::NodeLineTooWide);
        }
        slots[index] = placing::entered(slots[index], index, count, ancestor, node);
        count = column::count_with(count, index);
        parents[index] = Drawn::by(ancestor);
        parent_column = index;
        need_term_line |= ancestor.is_anonymous();
    }
    // a single entry whose column lies right of the node swaps columns with it; else the node's changes places with itself
    let given_up = placing::given_up(n, parent_column, column);
    let other = given_up.unwrap_or(column);
    let old = placing::column_before(shaper.slots[other], other, live, column);
    let swap = Swap {
        given_up,
        was_direct: old.is_parent(),
    };
    exchange(&mut slots, column, other);
    parents[column] = mem::replace(&mut parents[other], Drawn::Nobody);
    let bounds = AncestorColumnBounds::new(parents, count, column);
    let need_link_line = bounds.need_link_line(swap);
    // here and below several arrays go side by side, each by its place
    // each cell as if nothing of the row reached it, then those between the row's outermost columns with their marks
    let parent = plain_cell(need_link_line, Column::Parent(0));
    let ancestor = plain_cell(need_link_line, Column::Ancestor(0));
    let blank = Cell::blank();
    let mut cells = [blank; COLUMN_LIMIT];
    for p in 0..count {
        cells[p] = shown(slots[p].column, parent, ancestor, blank);
    }
    let end = bounds.reach_end(swap, count);
    for k in bounds.reach_start(swap)..end {
        let bare = placing::column_before(shaper.slots[k], k, live, column);
        cells[k] = cell(
            need_link_line,
            bounds,
            swap,
            k,
            parents[k],
            bare,
            slots[k].column,
            cells[k],
        );
    }
    let style = options.graph_row_shape_style;
    let separator_line = separator_line(options, previous, existing, column, need_term_line);
    // what ends the row: every column as it is after it, into fresh slots; then Empty columns at the end go
    let mut next = Shaper {
        slots: [Slot::empty(); COLUMN_LIMIT],
        count: 0,
        previous_node_column: Some(column),
        options,
    };
    for at in 0..count {
        next.slots[at] = placing::ended(slots[at], style.dash_style);
    }
    next.count = trimmed(&next.slots[..count]);
    let shape = RowShape {
        node,
        merge: 1 < n,
        separator_line,
        style,
        is_head,
        is_root: n == 0,
        node_column: column,
        width: count,
        link_line: need_link_line,
        term_line: need_term_line,
        cells,
    };
    Ok(NextRow {
        shape,
        shaper: next,
    })
}
