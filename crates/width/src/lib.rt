// The width call, after `width_with_options` in graph_to_row_shape.rs.
#![tactic(auto)]

ghost use Rattle.std.specs.Prelude.{◌≡◌, suc, ◌≤◌, map, Some};
ghost use Rattle.std.specs.List.{count_by};
ghost use Rattle.column.specs.Columns.{column_limit, is_empty, live};
ghost use Rattle.shaper.specs.Shaper.{view_of};
ghost use Rattle.width.specs.Width.{unheld, apart as apart_of, take_one, for_node, width_answer_from};
ghost use Rattle.width.specs.Promises.{Widths};

use column::{COLUMN_LIMIT, Slot};
use placing::held_by;
use render::{Entries, Entry, Refusal};
use shaper::Shaper;

// How many columns there are and, of them, Empty ones.
#[derive(Clone, Copy)]
struct Room {
    wide: usize,
    free: usize,
}

// How many of the live columns are Empty.
fn empty_columns(live: &[Slot]) -> usize
    ensures { result ≡ count_by (λ (s : _). is_empty s.column) live.now }
{
    live.iter().filter(|slot| slot.column.is_empty()).count()
}

// How many entries have no column. Slots and count stay apart, as `placing::held_by` takes them.
fn unallocated_parents(slots: [Slot; COLUMN_LIMIT], count: usize, entries: &[Entry]) -> usize
    ensures { result ≡ count_by (λ (e : _). unheld (live count slots) e.ancestor) entries.now }
{
    entries
        .iter()
        .filter(|entry| {
            entry.ancestor.is_anonymous() || held_by(slots, count, entry.ancestor).is_none()
        })
        .count()
}

impl Room {
    // What is left where a node that no column holds is kept out of the previous node's column.
    fn apart(self, live: &[Slot], previous: usize) -> Room
        requires { self.wide ≤ column_limit }
        ensures left { result ≡ apart_of (Some previous) (map (λ (s : Slot). s.column) live.now) self }
        ensures most { result.wide ≤ suc column_limit }
    {
        if previous < live.len() && live[previous].column.is_empty() {
            return Room {
                free: self.free.saturating_sub(1),
                ..self
            };
        }
        if previous == live.len() {
            return Room {
                wide: self.wide + 1,
                ..self
            };
        }
        self
    }

    // The node takes an Empty column, else a new one.
    fn take_one(self) -> Room
        requires { self.wide ≤ suc column_limit }
        ensures left { result ≡ take_one self }
        ensures most { result.wide ≤ suc (suc column_limit) }
    {
        if self.free == 0 {
            return Room {
                wide: self.wide + 1,
                ..self
            };
        }
        Room {
            free: self.free - 1,
            ..self
        }
    }

    // What is left of the columns where a node may be considered.
    fn for_node(self, shaper: Shaper, node: Option<u32>) -> Room
        requires { self.wide ≤ column_limit }
        ensures left { result ≡ for_node (view_of shaper) node self }
        ensures most { result.wide ≤ suc (suc column_limit) }
    {
        let slots = shaper.slots;
        let count = shaper.count;
        let options = shaper.options;
        let Some(id) = node else {
            return self;
        };
        let None = column::find(slots, count, id) else {
            return self;
        };
        if !options.stagger_consecutive_disconnected_nodes || 1 < options.min_row_height {
            return self.take_one();
        }
        let Some(previous) = shaper.previous_node_column else {
            return self.take_one();
        };
        self.apart(&slots[..column::live_count(count)], previous)
            .take_one()
    }
}

// The width call: the number of columns needed after optionally considering the next node and its entries.
// Absent entries give what an empty list gives.
pub fn width(shaper: Shaper, node: Option<u32>, entries: Entries) -> Result<usize, Refusal>
    ensures { Widths shaper node entries (width_answer_from result) }
{
    if entries.are_too_many() {
        return Err(Refusal::TooManyEntries);
    }
    let slots = shaper.slots;
    let count = shaper.count;
    let n = column::live_count(count);
    let columns = Room {
        wide: n,
        free: empty_columns(&slots[..n]),
    };
    let room = columns.for_node(shaper, node);
    let unallocated = unallocated_parents(slots, count, &entries.list[..entries.count]);
    let beyond = unallocated.saturating_sub(room.free);
    Ok(room.wide + beyond.saturating_sub(1))
}
