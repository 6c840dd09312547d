// The shaper: its state, the new shaper call, the reserving call and the node's column, after graph_to_row_shape.rs.
#![tactic(auto)]

ghost use Rattle.std.specs.Prelude.{◌≡◌, unwrap_or};
ghost use Rattle.column.specs.Columns.{live, origins};
ghost use Rattle.shaper.specs.Shaper.{view_of, view_with, fresh, refused_options, answer_from, origin as origin_of_id, Fresh, Reserves};
ghost use Rattle.shaper.specs.NodeColumn.{head_at, unallocated, fitting, Finds};

use column::{COLUMN_LIMIT, Column, Slot, Started};
use render::{DashStyle, LinkLinePlacement, Options, Refusal, Style};

// The greatest minimum row height that a new shaper takes.
pub const HEIGHT_LIMIT: usize = 16;

// The state of the first pipeline stage (`GraphRowShaper` in graph_to_row_shape.rs): slots and a count, as document 01 has it; one made by hand can
// have any count.
#[derive(Clone, Copy)]
pub struct Shaper {
    pub slots: [Slot; COLUMN_LIMIT],
    pub count: usize,
    pub previous_node_column: Option<usize>,
    pub options: Options,
}

// A shaper without columns, and without a previous node.
fn without_columns(options: Options) -> Shaper
    ensures { result ≡ fresh options }
{
    Shaper {
        slots: [Slot::empty(); COLUMN_LIMIT],
        count: 0,
        previous_node_column: None,
        options,
    }
}

// The column, where there is room for it.
fn within_limit(column: usize) -> Option<usize>
    ensures { result ≡ fitting column }
{
    (column < COLUMN_LIMIT).then_some(column)
}

// Whether the node is a head: no column held, or a Reserved one. `held` is what stands in the node's column.
pub fn is_head(existing: Option<usize>, held: Column) -> bool
    ensures { result ≡ head_at existing held }
{
    existing.is_none() || held.is_reserved()
}

// A column for a node that none holds; slots and count as in `column`, here and in `find_column`.
fn find_column_for_unallocated_node(
    slots: [Slot; COLUMN_LIMIT],
    count: usize,
    options: Options,
    previous_node_column: Option<usize>,
) -> usize
    ensures { result ≡ unallocated (view_with (live count slots) (origins count slots) previous_node_column options) }
{
    if !options.stagger_consecutive_disconnected_nodes | (1 < options.min_row_height) {
        return column::vacant(slots, count);
    }
    let Some(skip) = previous_node_column else {
        return column::vacant(slots, count);
    };
    let Some(index) = column::first_other_empty(slots, count, skip) else {
        let n = column::live_count(count);
        if skip == n {
            return n + 1;
        }
        return n;
    };
    index
}

// The node's column, where there is room for it: the one that holds its id, else another.
pub fn find_column(
    slots: [Slot; COLUMN_LIMIT],
    count: usize,
    options: Options,
    previous_node_column: Option<usize>,
    existing: Option<usize>,
) -> Option<usize>
    ensures { Finds (unwrap_or existing (unallocated (view_with (live count slots) (origins count slots) previous_node_column options))) result }
{
    let Some(index) = existing else {
        return within_limit(find_column_for_unallocated_node(
            slots,
            count,
            options,
            previous_node_column,
        ));
    };
    within_limit(index)
}

impl Shaper {
    // The new shaper call: a shaper with the options given.
    pub fn with_options(options: Options) -> Result<Shaper, Refusal>
        ensures { Fresh options (answer_from (fresh refused_options) result) }
    {
        if HEIGHT_LIMIT < options.min_row_height {
            return Err(Refusal::HeightAboveLimit);
        }
        Ok(without_columns(options))
    }

    // What a refused new shaper comes back as: height 0, no staggering, Persistent, Top and no columns.
    pub fn refused() -> Shaper
        ensures { result ≡ fresh refused_options }
    {
        without_columns(Options {
            min_row_height: 0,
            stagger_consecutive_disconnected_nodes: false,
            graph_row_shape_style: Style {
                dash_style: DashStyle::Persistent,
                link_line_placement: LinkLinePlacement::Top,
            },
        })
    }

    // The reserving call: an id already held changes nothing, else it becomes Reserved in the first Empty column or a new last one.
    pub fn reserve(self, node: u32) -> Result<Shaper, Refusal>
        ensures { Reserves self node (answer_from self result) }
    {
        let slots = self.slots;
        let count = self.count;
        let None = column::find(slots, count, node) else {
            return Ok(self);
        };
        let index = column::vacant(slots, count);
        if COLUMN_LIMIT <= index {
            return Err(Refusal::NoColumnLeft);
        }
        let column = Column::Reserved(node);
        let mut shaper = self;
        shaper.slots[index] = Slot { column, origin: 0 };
        shaper.count = column::count_with(count, index);
        Ok(shaper)
    }

    // Who started an id's line.
    pub fn origin(self, node: u32) -> Started
        ensures { result ≡ origin_of_id (view_of self) node }
    {
        let slots = self.slots;
        let Some(index) = column::find(slots, self.count, node) else {
            return Started::NotWaiting;
        };
        slots[index].started()
    }
}
