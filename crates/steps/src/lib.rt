// One step of document 01's two programs: a record's bytes to the bytes of its lines, and what is kept for the next record.
#![tactic(auto)]

ghost use Rattle.std.specs.Prelude.{◌≡◌, ◌+◌, ◌≤◌, length, ◌++◌};
ghost use Rattle.slices.specs.Joins.{over};
ghost use Rattle.render.specs.Refusals.{number as number_of};
ghost use Rattle.steps.specs.Steps.{decimal_in, most_digits, refused_in, stopped, page_step, listing_step};
ghost use Rattle.steps.specs.Promises.{progress_view_of, Begins, step_from, Steps};
ghost use Rattle.steps.specs.Inner.{DrawsOrRefuses};

use glyphs::Renderer;
use itoa::Buffer;
use output::{QUEUE_LIMIT, TextState};
use prefix_lines::write_listing;
use record::next_record;
use render::{DashStyle, LinkLinePlacement, Options, Refusal, Style, is_mark};
use row_shape::next_row_shape;
use shaper::Shaper;
use slices::write_bytes;
use text::write_next_text;

// Room for each line that says what was refused.
pub const LINE_ROOM: usize = 64;

// What a program keeps between records: both states, and the number of the next record.
#[derive(Clone, Copy)]
pub struct Progress {
    pub shaper: Shaper,
    pub state: TextState,
    pub number: u64,
}

// What a step gives beside the output: the count of bytes written, and what the program keeps, if it goes on.
#[derive(Clone, Copy)]
pub struct Step {
    pub length: usize,
    pub next: Option<Progress>,
}

// What both programs begin with: height 1, no staggering, Persistent, Top.
pub fn begin() -> Progress
    ensures { Begins result }
{
    let options = Options {
        min_row_height: 1,
        stagger_consecutive_disconnected_nodes: false,
        graph_row_shape_style: Style {
            dash_style: DashStyle::Persistent,
            link_line_placement: LinkLinePlacement::Top,
        },
    };
    let state = TextState {
        queued_pad_line: [0; QUEUE_LIMIT],
        queued_length: 0,
        is_queued: false,
        row_height: 0,
    };
    Progress {
        shaper: Shaper::with_options(options).unwrap(),
        state,
        number: 0,
    }
}

// Writes some words and a number behind them, and gives the count of their bytes.
fn write_number(out: &mut [u8], words: &[u8], n: u64) -> usize
    requires { length words.now + most_digits ≤ length out.old }
    ensures { (result ≡ length (words.now ++ decimal_in most_digits n)) × (result ≤ length words.now + most_digits)
        × (out.new ≡ over (words.now ++ decimal_in most_digits n) out.old) }
{
    let at = write_bytes(out, words);
    at + write_bytes(&mut out[at..], Buffer::new().format(n).as_bytes())
}

// Writes the line that says what was refused, if there is room for it, and gives the count of its bytes.
fn write_refused(out: &mut [u8], refusal: Refusal, number: u64) -> usize
    ensures { (result ≡ length (refused_in out.old (number_of refusal) number)) × (out.new ≡ over (refused_in out.old (number_of refusal) number) out.old) }
{
    if out.len() < LINE_ROOM {
        return 0;
    }
    let at = write_number(out, b"refused ", u64::from(refusal.number()));
    let end = at + write_number(&mut out[at..], b" at record ", number);
    out[end] = b'\n';
    end + 1
}

// A step that stops at a refusal.
fn refused(out: &mut [u8], refusal: Refusal, progress: Progress) -> Step
    ensures { Steps (stopped (progress_view_of progress) (refused_in out.old (number_of refusal) progress.number)) progress out.old out.new (step_from progress result) }
{
    Step {
        length: write_refused(out, refusal, progress.number),
        next: None,
    }
}

// Draws the next record as text, if there is one, unless it is refused.
fn draw_page(out: &mut [u8], left: &[u8], progress: Progress) -> Result<Step, Refusal>
    ensures { DrawsOrRefuses (page_step (progress_view_of progress) left.now out.old) progress out.old out.new result }
{
    let Some(decoded) = next_record(left)? else {
        return Ok(Step {
            length: 0,
            next: None,
        });
    };
    let given = write_next_text(
        progress.shaper,
        progress.state,
        Renderer::Curved,
        decoded.id,
        decoded.entries,
        decoded.mark,
        &decoded.message[..decoded.message_length],
        out,
    )?;
    Ok(Step {
        length: given.length,
        next: Some(Progress {
            shaper: given.shaper,
            state: given.state,
            number: progress.number.saturating_add(1),
        }),
    })
}

// Draws the next record as lines of the listing, if there is one, unless it is refused.
// Beside `draw_page`: one step over a closure that is lent the output would have clauses longer than the lines that the two share.
fn draw_listing(out: &mut [u8], left: &[u8], progress: Progress) -> Result<Step, Refusal>
    ensures { DrawsOrRefuses (listing_step (progress_view_of progress) left.now out.old) progress out.old out.new result }
{
    let Some(decoded) = next_record(left)? else {
        return Ok(Step {
            length: 0,
            next: None,
        });
    };
    if !is_mark(decoded.mark) {
        return Err(Refusal::MarkOutsideSpan);
    }
    let given = next_row_shape(progress.shaper, decoded.id, decoded.entries)?;
    let length = write_listing(given.shape, decoded.mark, out)?;
    Ok(Step {
        length,
        next: Some(Progress {
            shaper: given.shaper,
            state: progress.state,
            number: progress.number.saturating_add(1),
        }),
    })
}

// A step of the page program, on the bytes that are left; beside that of the listing, since both are public and one match each.
pub fn page_step(out: &mut [u8], left: &[u8], progress: Progress) -> Step
    ensures { Steps (page_step (progress_view_of progress) left.now out.old) progress out.old out.new (step_from progress result) }
{
    match draw_page(out, left, progress) {
        Ok(step) => step,
        Err(refusal) => refused(out, refusal, progress),
    }
}

// A step of the listing program, on the bytes that are left.
pub fn listing_step(out: &mut [u8], left: &[u8], progress: Progress) -> Step
    ensures { Steps (listing_step (progress_view_of progress) left.now out.old) progress out.old out.new (step_from progress result) }
{
    match draw_listing(out, left, progress) {
        Ok(step) => step,
        Err(refusal) => refused(out, refusal, progress),
    }
}
