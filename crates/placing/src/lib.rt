// Where a row's entries go, and what ends a row, after graph_to_row_shape.rs. The row call walks the entries.
#![tactic(auto)]

ghost use Rattle.std.specs.Prelude.{◌≡◌, cond, ◌&&◌, min, ltb, eqb, Some, None};
ghost use Rattle.std.specs.List.{position};
ghost use Rattle.column.specs.Columns.{live};
ghost use Rattle.placing.specs.Placing.{column_of, held_by, column_of_parent};
ghost use Rattle.placing.specs.Inner.{holds_entry, entered as entered_of, column_before, ended_slot};

use column::{COLUMN_LIMIT, Column, Slot};
use render::{Ancestor, DashStyle};

// The column that an entry merges as.
fn ancestor_to_column(ancestor: Ancestor) -> Column
    ensures { result ≡ column_of ancestor }
{
    match ancestor {
        Ancestor::Ancestor(node) => Column::Ancestor(node),
        Ancestor::Parent(node) => Column::Parent(node),
        Ancestor::Anonymous => Column::Blocked,
    }
}

// Whether a column holds an entry's id.
fn holds_entry(column: Column, ancestor: Ancestor) -> bool
    ensures { result ≡ holds_entry ancestor column }
{
    match ancestor {
        Ancestor::Ancestor(node) | Ancestor::Parent(node) => column.matches(node),
        Ancestor::Anonymous => false,
    }
}

// The first of the slots whose column holds an entry's id.
fn first_holding(live: &[Slot], ancestor: Ancestor) -> Option<usize>
    ensures { result ≡ position (λ (s : _). holds_entry ancestor s.column) live.now }
{
    live.iter()
        .position(|slot| holds_entry(slot.column, ancestor))
}

// The column that holds an entry's id. Slots and count stay apart: the promise is of any count, and one above the limit is read as the limit.
pub fn held_by(slots: [Slot; COLUMN_LIMIT], count: usize, ancestor: Ancestor) -> Option<usize>
    ensures { result ≡ held_by ancestor (live count slots) }
{
    first_holding(&slots[..column::live_count(count)], ancestor)
}

// The column that an entry merges into: its id's, else an Empty one, the node's if it can be (`find_empty` in column.rs), else a new last
// one. The search takes a slice and the test of the node's column stands here: a function that was given the slots for either would copy
// them once more for each entry. Slots and count stay apart, as in `held_by`.
pub fn parent_column(
    slots: [Slot; COLUMN_LIMIT],
    count: usize,
    column: usize,
    ancestor: Ancestor,
) -> usize
    ensures { result ≡ column_of_parent column ancestor (live count slots) }
{
    let n = column::live_count(count);
    if let Some(index) = first_holding(&slots[..n], ancestor) {
        return index;
    }
    if column < n && slots[column].column.is_empty() {
        return column;
    }
    let Some(index) = column::first_empty(slots, count) else {
        return n;
    };
    index
}

// The slot of a column after an entry of the node's row merged into it.
pub fn entered(slot: Slot, index: usize, count: usize, ancestor: Ancestor, node: u32) -> Slot
    ensures { result ≡ entered_of slot index count ancestor node }
{
    let old = slot.column_at(index, count);
    let new = ancestor_to_column(ancestor);
    let column = old.merge(new);
    let origin = slot.origin_or(old, node);
    Slot { column, origin }
}

// Where a placeholder stands before a new last column, else the node's own column.
pub fn placeholder(count: usize, column: usize) -> usize
    ensures { result ≡ min count column }
{
    count.min(column)
}

// What stood in a column before the entries, where `count` were live: the node's own is Empty then, as is one past the count.
pub fn column_before(slot: Slot, index: usize, count: usize, column: usize) -> Column
    ensures { result ≡ column_before slot index count column }
{
    if (index < count) & (index != column) {
        return slot.column;
    }
    Column::Empty
}

// The column that a single entry gives up: one whose column lies right of the node swaps columns with it.
pub fn given_up(entries: usize, parent_column: usize, column: usize) -> Option<usize>
    ensures { result ≡ cond (eqb entries 1 && ltb column parent_column) (Some parent_column) None }
{
    (entries == 1 && column < parent_column).then_some(parent_column)
}

// The slot of a column after a row: with Once dashes Ancestor turns Parent; Blocked becomes Empty; an origin that does not count is 0.
pub fn ended(slot: Slot, dash_style: DashStyle) -> Slot
    ensures { result ≡ ended_slot dash_style slot }
{
    let column = match dash_style {
        DashStyle::Persistent => slot.column,
        DashStyle::Once => slot.column.convert_ancestor_to_parent(),
    };
    Slot::new(column.reset(), slot.origin)
}
