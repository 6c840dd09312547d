// The lines that answer each command.
use crate::page;
use crate::records::write_record;
use crate::run::{Answer, Machine, State};
use crate::shapes::Shape;
use crate::words::{Dash, Flag, Held, Place, Placement};
use column::{Slot, Started};
use lineage::TextLength;
use output::TextState;
use preview::RowPreview;
use render::Refusal;
use shaper::{HEIGHT_LIMIT, Shaper};
use std::fmt::{Display, Formatter};
use std::io::Write;
use std::{fmt, io};

// The first of these columns, as many as there are at most, joined by commas.
#[derive(Clone, Copy)]
struct Columns<'a>(&'a [Slot], usize);

// The shaper's line. A height above the limit is read as the limit.
#[derive(Clone, Copy)]
struct Shown<'a>(&'a Shaper);

impl Display for Columns<'_> {
    fn fmt<W: fmt::Write>(&self, f: &mut Formatter<W>) -> fmt::Result {
        let live = self.0.iter().take(self.1);
        f.write_joined(live.map(|slot| Held(*slot)), ",")
    }
}

impl Display for Shown<'_> {
    fn fmt<W: fmt::Write>(&self, f: &mut Formatter<W>) -> fmt::Result {
        let shaper = self.0;
        let options = shaper.options;
        let style = options.graph_row_shape_style;
        let staggers = options.stagger_consecutive_disconnected_nodes;
        write!(
            f,
            "shaper height={}",
            options.min_row_height.min(HEIGHT_LIMIT)
        )?;
        write!(f, " stagger={}", Flag(staggers))?;
        write!(f, " dash={}", Dash(style.dash_style))?;
        write!(f, " placement={}", Placement(style.link_line_placement))?;
        write!(f, " previous={}", Place(shaper.previous_node_column))?;
        write!(f, " columns={}", Columns(&shaper.slots, shaper.count))
    }
}

// `COUNT:BYTES`
pub(crate) fn write_bytes<W: Write>(out: &mut W, bytes: &[u8]) -> io::Result<()> {
    write!(out, "{}:", bytes.len())?;
    out.write_all(bytes)
}

// The shaper's line.
fn write_shaper<W: Write>(out: &mut W, shaper: &Shaper) -> io::Result<()> {
    writeln!(out, "{}", Shown(shaper))
}

// The text state's line. A queued length beyond the limit is read as the limit.
fn write_text_state<W: Write>(out: &mut W, text: &TextState) -> io::Result<()> {
    write!(out, "state queued=")?;
    if text.is_queued {
        let length = text.queued_length.min(text.queued_pad_line.len());
        write_bytes(out, &text.queued_pad_line[..length])?;
    } else {
        write!(out, "no")?;
    }
    writeln!(out, " row_height={}", text.row_height)
}

// `out COUNT:BYTES`
fn write_out<W: Write>(out: &mut W, output: &[u8]) -> io::Result<()> {
    write!(out, "out ")?;
    write_bytes(out, output)?;
    writeln!(out)
}

// The number of what refused a call, 0 where nothing did.
fn number<T>(given: &Result<T, Refusal>) -> u8 {
    match given {
        Ok(_) => 0,
        Err(refusal) => refusal.number(),
    }
}

// `preview REFUSAL COLUMN WIDTH columns=COLUMNS`
fn write_preview<W: Write>(
    out: &mut W,
    given: &Result<RowPreview, Refusal>,
    shaper: &Shaper,
) -> io::Result<()> {
    let preview = given.unwrap_or_else(|_| RowPreview::refused(*shaper));
    let columns = Columns(&preview.slots, preview.count);
    write!(out, "preview {} {}", number(given), preview.node_column)?;
    writeln!(out, " {} columns={columns}", preview.width)
}

// `text REFUSAL LENGTH MEASURE`
fn write_text<W: Write>(out: &mut W, given: &Result<TextLength, Refusal>) -> io::Result<()> {
    match given {
        Ok(text) => writeln!(out, "text 0 {} {}", text.length, text.measure),
        Err(refusal) => writeln!(out, "text {} 0 0", refusal.number()),
    }
}

// `origin ID`, `origin none` or `origin not waiting`
fn write_origin<W: Write>(out: &mut W, started: Started) -> io::Result<()> {
    match started {
        Started::NotWaiting => writeln!(out, "origin not waiting"),
        Started::Unnamed => writeln!(out, "origin none"),
        Started::By(node) => writeln!(out, "origin {node}"),
    }
}

// All lines of an answer, with what the command left.
pub(crate) fn write_answer<W: Write>(
    out: &mut W,
    answer: &Answer,
    machine: &Machine<'_>,
) -> io::Result<()> {
    let State {
        shaper,
        shape,
        text,
    } = &machine.state;
    match answer {
        Answer::NotBuilt => writeln!(out, "not built"),
        Answer::List(number) => writeln!(out, "list {number}"),
        Answer::New(given) => {
            writeln!(out, "new {}", number(given))?;
            write_shaper(out, shaper)
        }
        Answer::Reserve(given) => {
            writeln!(out, "reserve {}", number(given))?;
            write_shaper(out, shaper)
        }
        Answer::Row(given) => {
            writeln!(out, "row {}", number(given))?;
            write!(out, "{}", Shape(shape))?;
            write_shaper(out, shaper)
        }
        Answer::Preview(given) => {
            write_preview(out, given, shaper)?;
            write_shaper(out, shaper)
        }
        Answer::Width(given) => writeln!(out, "width {} {}", number(given), given.unwrap_or(0)),
        Answer::Origin(started) => write_origin(out, *started),
        Answer::Renderer(given, length) => {
            writeln!(out, "renderer {} {}", number(given), given.unwrap_or(0))?;
            write_out(out, page::written(machine.page, *length))
        }
        Answer::Text(given, length) => {
            write_text(out, given)?;
            write_out(out, page::written(machine.page, *length))?;
            write_shaper(out, shaper)?;
            write_text_state(out, text)
        }
        Answer::Record(given) => write_record(out, given),
        Answer::Shaper => write_shaper(out, shaper),
        Answer::TextState => write_text_state(out, text),
        Answer::Shape => write!(out, "{}", Shape(shape)),
        Answer::Repeated(times) => {
            writeln!(out, "repeated {times}")?;
            write_shaper(out, shaper)?;
            write_text_state(out, text)
        }
    }
}
