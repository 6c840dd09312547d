// The commands: what each does with the state, and what it answers.
use crate::codes::EntryList;
use crate::page;
use crate::payload::{Command, Commands, Payload};
use column::Started;
use glyphs::Renderer;
use lineage::{Record, RowPreview, TextLength, no_shape};
use output::TextState;
use render::{Refusal, RowShape};
use shaper::Shaper;

// The greatest length of a message in a payload.
const MESSAGE: usize = 65535;

// What the commands change.
#[derive(Clone, Copy)]
pub(crate) struct State {
    pub(crate) shaper: Shaper,
    pub(crate) shape: RowShape,
    pub(crate) text: TextState,
}

// What the commands work on: the state, and the page that the output of a call is lent of.
#[derive(Drop)]
pub(crate) struct Machine<'a> {
    pub(crate) state: State,
    pub(crate) page: &'a mut [u8],
}

// What a text call is given beside the states, the message and the output, and the output's length.
#[derive(Clone, Copy)]
struct TextCall {
    renderer: Renderer,
    mark: u8,
    length: usize,
    node: u32,
    list: EntryList,
}

// What a command answers, beside the state that it leaves. A renderer call and a text call leave their output on the page, and the output's
// length stands behind what they give.
#[derive(Clone, Copy)]
pub(crate) enum Answer {
    NotBuilt,
    List(u32),
    New(Result<(), Refusal>),
    Reserve(Result<(), Refusal>),
    Row(Result<(), Refusal>),
    Preview(Result<RowPreview, Refusal>),
    Width(Result<usize, Refusal>),
    Origin(Started),
    Renderer(Result<usize, Refusal>, usize),
    Text(Result<TextLength, Refusal>, usize),
    Record(Result<Option<Record>, Refusal>),
    Shaper,
    TextState,
    Shape,
    Repeated(u32),
}

impl State {
    // The state at the beginning of a stream or a list: the shaper and the shape of refused calls, and the text state of an empty payload.
    pub(crate) fn new() -> State {
        State {
            shaper: Shaper::refused(),
            shape: no_shape(),
            text: Payload::new(b"").text_state(),
        }
    }
}

impl<'a> Machine<'a> {
    // The machine at the beginning of a stream.
    pub(crate) fn new(page: &'a mut [u8]) -> Machine<'a> {
        let state = State::new();
        Machine { state, page }
    }

    // `L`: number.
    fn list(&mut self, mut payload: Payload<'_>) -> Answer {
        self.state = State::new();
        Answer::List(payload.u32())
    }

    // `N`: options. The shaper that a refused call gives takes the place of the old one, too.
    fn new_shaper(&mut self, mut payload: Payload<'_>) -> Answer {
        let given = Shaper::with_options(payload.options());
        self.state.shaper = given.unwrap_or_else(|_| Shaper::refused());
        Answer::New(given.map(|_| ()))
    }

    // `R`: id.
    fn reserve(&mut self, mut payload: Payload<'_>) -> Answer {
        let reserved = lent::reserve_on(self.state.shaper, payload.u32());
        self.state.shaper = reserved.shaper;
        Answer::Reserve(reserved.given)
    }

    // `W`: node, entries. The shape that a refused call gives takes the place of the old one, too.
    fn row(&mut self, mut payload: Payload<'_>) -> Answer {
        let node = payload.u32();
        let mut list = EntryList::none();
        payload.read_entries(&mut list);
        let made = lent::row_on(self.state.shaper, node, list.entries, list.count);
        self.state.shaper = made.shaper;
        match made.given {
            Ok(shape) => {
                self.state.shape = shape;
                Answer::Row(Ok(()))
            }
            Err(refusal) => {
                self.state.shape = no_shape();
                Answer::Row(Err(refusal))
            }
        }
    }

    // `B`: node, entries.
    fn preview(&self, mut payload: Payload<'_>) -> Answer {
        let node = payload.u32();
        let mut list = EntryList::none();
        payload.read_entries(&mut list);
        Answer::Preview(lent::preview_on(self.state.shaper, node, list.entries, list.count))
    }

    // `V`: node, if there is one, and entries, if there are any.
    fn width(&self, mut payload: Payload<'_>) -> Answer {
        let node = payload.node();
        let mut list = EntryList::none();
        payload.read_optional_entries(&mut list);
        Answer::Width(lent::width_on(self.state.shaper, node, list.entries, list.count))
    }

    // `O`: id.
    fn origin(&self, mut payload: Payload<'_>) -> Answer {
        Answer::Origin(lent::origin_on(self.state.shaper, payload.u32()))
    }

    // `P`: renderer, mark, output length.
    fn render(&mut self, mut payload: Payload<'_>) -> Answer {
        let renderer = payload.renderer();
        let mark = payload.u8();
        let length = payload.u32() as usize;
        let output = page::fresh(self.page, length);
        let given = prefix_lines::next_prefix_lines(self.state.shape, renderer, mark, output);
        Answer::Renderer(given, length)
    }

    // `T`, its message taken out.
    fn write_text(&mut self, call: TextCall, message: &[u8]) -> Answer {
        let output = page::fresh(self.page, call.length);
        let made = lent::text_on(
            self.state.shaper,
            self.state.text,
            call.renderer,
            call.node,
            call.list.entries,
            call.list.count,
            call.mark,
            message,
            output,
        );
        self.state.shaper = made.shaper;
        self.state.text = made.state;
        Answer::Text(made.given, call.length)
    }

    // `T`, where the payload ends within a message of so many bytes: those past the end are 0. Apart, since a call pays for the room of its arrays.
    fn write_cut_text(&mut self, call: TextCall, given: &[u8], count: u16) -> Answer {
        let mut message = [0u8; MESSAGE];
        for (byte, given) in message.iter_mut().zip(given) {
            *byte = *given;
        }
        self.write_text(call, &message[..usize::from(count)])
    }

    // `T`: renderer, mark, output length, node, entries, message length, message.
    fn text(&mut self, mut payload: Payload<'_>) -> Answer {
        let renderer = payload.renderer();
        let mark = payload.u8();
        let length = payload.u32() as usize;
        let node = payload.u32();
        let mut list = EntryList::none();
        payload.read_entries(&mut list);
        let call = TextCall {
            renderer,
            mark,
            length,
            node,
            list,
        };
        let count = payload.u16();
        let message = payload.take(usize::from(count));
        if message.len() < usize::from(count) {
            return self.write_cut_text(call, message, count);
        }
        self.write_text(call, message)
    }

    // `S`: shaper.
    fn set_shaper(&mut self, mut payload: Payload<'_>) -> Answer {
        self.state.shaper = payload.shaper();
        Answer::Shaper
    }

    // `Q`: text state.
    fn set_text_state(&mut self, mut payload: Payload<'_>) -> Answer {
        self.state.text = payload.text_state();
        Answer::TextState
    }

    // `H`: shape.
    fn set_shape(&mut self, mut payload: Payload<'_>) -> Answer {
        self.state.shape = payload.shape();
        Answer::Shape
    }

    // Runs one command that is no repeat, by its letter (docs/REPLAY.md). Any other letter changes nothing.
    fn call(&mut self, command: Command<'_>) -> Answer {
        let Command { letter, payload } = command;
        match letter {
            b'L' => self.list(payload),
            b'N' => self.new_shaper(payload),
            b'R' => self.reserve(payload),
            b'W' => self.row(payload),
            b'B' => self.preview(payload),
            b'V' => self.width(payload),
            b'O' => self.origin(payload),
            b'P' => self.render(payload),
            b'T' => self.text(payload),
            b'D' => Answer::Record(lineage::next_record(payload.rest())),
            b'S' => self.set_shaper(payload),
            b'Q' => self.set_text_state(payload),
            b'H' => self.set_shape(payload),
            _ => Answer::NotBuilt,
        }
    }

    // `X`: times, commands. They are run quietly, and a repeat among them is skipped.
    fn repeat(&mut self, mut payload: Payload<'_>) -> Answer {
        let times = payload.u32();
        let commands = payload.rest();
        for _ in 0..times {
            for command in Commands(commands) {
                self.call(command);
            }
        }
        Answer::Repeated(times)
    }

    // Runs one command.
    pub(crate) fn run(&mut self, command: Command<'_>) -> Answer {
        match command.letter {
            b'X' => self.repeat(command.payload),
            _ => self.call(command),
        }
    }
}
