// The lent calls by value: each caller here makes the references that its call takes, of its own parameters, and gives back what the call left in them,
// behind a refusal too.
#![tactic(auto)]

ghost use Rattle.std.specs.Prelude.{take};
ghost use Rattle.preview.specs.Promises.{preview_answer_from};
ghost use Rattle.width.specs.Width.{width_answer_from};
ghost use Rattle.lineage.specs.Promises.{refusal_from, shape_answer_from, length_answer_from, LentReserves, LentRows, LentPreview, LentWidth, LentOrigin, LentTexts};

use column::Started;
use glyphs::Renderer;
use lineage::TextLength;
use output::TextState;
use preview::RowPreview;
use render::{Entry, Refusal, RowShape};
use shaper::Shaper;

// The most entries of a list; a count above it is read as the limit. Array and count go by value: what calls these has no references to lend.
pub const LIST_LIMIT: usize = 1000;

// What the reserving call gave, and the shaper as it left it.
#[derive(Clone, Copy)]
pub struct Reserved {
    pub given: Result<(), Refusal>,
    pub shaper: Shaper,
}

// What the row call gave, and the shaper as it left it.
#[derive(Clone, Copy)]
pub struct RowMade {
    pub given: Result<RowShape, Refusal>,
    pub shaper: Shaper,
}

// What the text call gave, and both states as it left them.
#[derive(Clone, Copy)]
pub struct TextMade {
    pub given: Result<TextLength, Refusal>,
    pub shaper: Shaper,
    pub state: TextState,
}

// The reserving call on a shaper of its own.
pub fn reserve_on(mut shaper: Shaper, node: u32) -> Reserved
    ensures { LentReserves shaper node result.shaper (refusal_from result.given) }
{
    let given = lineage::reserve(&mut shaper, node);
    Reserved { given, shaper }
}

// The row call on a shaper of its own and the first entries of a list, as many as it has at most.
pub fn row_on(mut shaper: Shaper, node: u32, list: [Entry; LIST_LIMIT], count: usize) -> RowMade
    ensures { LentRows shaper node (take count list) result.shaper (shape_answer_from result.given) }
{
    let given = lineage::row(&mut shaper, node, &list[..count.min(LIST_LIMIT)]);
    RowMade { given, shaper }
}

// The preview of a row on a shaper of its own and the first entries of a list, as many as it has at most.
pub fn preview_on(
    shaper: Shaper,
    node: u32,
    list: [Entry; LIST_LIMIT],
    count: usize,
) -> Result<RowPreview, Refusal>
    ensures { LentPreview shaper node (take count list) (preview_answer_from shaper result) }
{
    lineage::preview(&shaper, node, &list[..count.min(LIST_LIMIT)])
}

// The width call on a shaper of its own and the first entries of a list, as many as it has at most.
pub fn width_on(
    shaper: Shaper,
    node: Option<u32>,
    list: [Entry; LIST_LIMIT],
    count: usize,
) -> Result<usize, Refusal>
    ensures { LentWidth shaper node (take count list) (width_answer_from result) }
{
    lineage::width(&shaper, node, &list[..count.min(LIST_LIMIT)])
}

// Who started the line of an id, on a shaper of its own.
pub fn origin_on(shaper: Shaper, node: u32) -> Started
    ensures { LentOrigin shaper node result }
{
    lineage::origin(&shaper, node)
}

// The text call on a shaper and a text state of its own and the first entries of a list, as many as it has at most.
pub fn text_on(
    mut shaper: Shaper,
    mut state: TextState,
    renderer: Renderer,
    node: u32,
    list: [Entry; LIST_LIMIT],
    count: usize,
    mark: u8,
    message: &[u8],
    out: &mut [u8],
) -> TextMade
    ensures { LentTexts shaper state renderer node (take count list) mark message.now out.old result.shaper result.state out.new (length_answer_from result.given) }
{
    let given = lineage::text(
        &mut shaper,
        &mut state,
        renderer,
        node,
        &list[..count.min(LIST_LIMIT)],
        mark,
        message,
        out,
    );
    TextMade {
        given,
        shaper,
        state,
    }
}
