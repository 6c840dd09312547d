// The cells of a row shape, after graph_to_row_shape.rs.
#![tactic(auto)]

ghost use Rattle.std.specs.Prelude.{◌≡◌, cond};
ghost use Rattle.column.specs.Columns.{is_parent, is_ancestor};
ghost use Rattle.cells.specs.Cells.{beside_node, pad_of, node_cell, link_cell, cell_of};
ghost use Rattle.cells.specs.Inner.{plain_cell, passed_by, cell_with};

use column::Column;
use links::{AncestorColumnBounds, Drawn, Swap, from_node, passing, with_uprights};
use render::{Cell, LinkLine, Marks, NodeLine, PadLine};

// What a column shows, of what a Parent column shows, an Ancestor one and any other.
pub fn shown<T: Copy>(column: Column, parent: T, ancestor: T, blank: T) -> T
    ensures { result ≡ cond (is_parent column) parent (cond (is_ancestor column) ancestor blank) }
{
    match column {
        Column::Parent(_) => parent,
        Column::Ancestor(_) => ancestor,
        _ => blank,
    }
}

// What a column shows beside the node.
fn column_to_node_line(column: Column) -> NodeLine
    ensures { result ≡ beside_node column }
{
    shown(
        column,
        NodeLine::Parent,
        NodeLine::Ancestor,
        NodeLine::Blank,
    )
}

// What a column shows in a pad line.
fn column_to_pad_line(column: Column) -> PadLine
    ensures { result ≡ pad_of column }
{
    shown(column, PadLine::Parent, PadLine::Ancestor, PadLine::Blank)
}

// The node line's cell.
fn node_cell(index: usize, target: usize, column: Column) -> NodeLine
    ensures { result ≡ node_cell index target column }
{
    if index == target {
        return NodeLine::Node;
    }
    column_to_node_line(column)
}

// A link line's cell, where the row has a link line.
fn link_cell(need_link_line: bool, marks: Marks) -> LinkLine
    ensures { result ≡ link_cell need_link_line marks }
{
    if need_link_line {
        return marks.link_line();
    }
    LinkLine::EMPTY
}

// The cell of a column that nothing of the row reaches: its line goes straight on, if it has one.
pub fn plain_cell(need_link_line: bool, column: Column) -> Cell
    ensures { result ≡ plain_cell need_link_line column }
{
    let own = Marks::none();
    let all = with_uprights(own, false, column);
    Cell {
        link: link_cell(need_link_line, all),
        link_from_node: link_cell(need_link_line, own),
        node: column_to_node_line(column),
        term: false,
        ancestry: column_to_pad_line(column),
        parent: false,
    }
}

// A plain cell with the strokes that pass it.
fn passed_cell(plain: Cell, own: LinkLine) -> Cell
    ensures { result ≡ passed_by plain own }
{
    Cell {
        link: plain.link.union(own),
        link_from_node: own,
        ..plain
    }
}

// The cell of a column in which something of the row ends, from what it was before the entries and is after the swap.
// Its parts are handed in one by one: `cell_of` of specs/Cells names each, and only this call and the next have them together.
fn ended_cell(
    need_link_line: bool,
    bounds: AncestorColumnBounds,
    swap: Swap,
    index: usize,
    drawn: Drawn,
    before: Column,
    settled: Column,
) -> Cell
    ensures { result ≡ cell_of need_link_line bounds swap index drawn before settled }
{
    let own = from_node(bounds, swap, index, drawn);
    let all = with_uprights(own, swap.given_up == Some(index), before);
    Cell {
        link: link_cell(need_link_line, all),
        link_from_node: link_cell(need_link_line, own),
        node: node_cell(index, bounds.target, before),
        term: drawn.is_anonymous(),
        ancestry: column_to_pad_line(settled),
        parent: drawn.is_drawn(),
    }
}

// One column of the shape, from its plain cell where nothing of the row ends in it, else from what it was before the entries and is after
// the swap. Its parts are handed in one by one, as `cell_with` of specs/Inner names each.
pub fn cell(
    need_link_line: bool,
    bounds: AncestorColumnBounds,
    swap: Swap,
    index: usize,
    drawn: Drawn,
    before: Column,
    settled: Column,
    plain: Cell,
) -> Cell
    ensures { result ≡ cell_with need_link_line bounds swap index drawn before settled plain }
{
    if (index != bounds.target) & (!drawn.is_drawn() & (swap.given_up != Some(index))) {
        let own = passing(bounds, swap, index);
        return passed_cell(plain, link_cell(need_link_line, own));
    }
    ended_cell(need_link_line, bounds, swap, index, drawn, before, settled)
}
