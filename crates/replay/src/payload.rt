// A command and its payload: numbers are read from the payload's front on, low byte first, and past its end every byte is 0.
ghost use Rattle.std.specs.Prelude.{length};
ghost use Rattle.std.specs.Iterator.{at_most};

// The bytes of a command's letter and payload length.
pub(crate) const HEADER: usize = 3;

// What stands in front of a payload.
#[derive(Clone, Copy)]
pub(crate) struct Header {
    pub(crate) letter: u8,
    pub(crate) length: u16,
}

impl From<[u8; HEADER]> for Header {
    fn from([letter, low, high]: [u8; HEADER]) -> Header {
        let length = u16::from_le_bytes([low, high]);
        Header { letter, length }
    }
}

// A command of a stream.
#[derive(Drop)]
pub(crate) struct Command<'a> {
    pub(crate) letter: u8,
    pub(crate) payload: Payload<'a>,
}

// The commands that stand whole in these bytes, one behind the other.
#[derive(Drop)]
pub(crate) struct Commands<'a>(pub(crate) &'a [u8]);

impl<'a> Iterator for Commands<'a> {
    type Item = Command<'a>;

    ghost remaining = { λ s. at_most (length s.0.now) };

    fn next(&mut self) -> Option<Command<'a>> {
        let (header, behind) = self.0.split_first_chunk::<HEADER>()?;
        let Header { letter, length } = Header::from(*header);
        let (bytes, rest) = behind.split_at_checked(usize::from(length))?;
        self.0 = rest;
        let payload = Payload::new(bytes);
        Some(Command { letter, payload })
    }
}

// The bytes of a payload that are not read yet.
#[derive(Drop)]
pub(crate) struct Payload<'a> {
    rest: &'a [u8],
}

impl<'a> Payload<'a> {
    // Nothing is read yet.
    pub(crate) fn new(bytes: &'a [u8]) -> Payload<'a> {
        Payload { rest: bytes }
    }

    // How many bytes are left.
    pub(crate) fn len(&self) -> usize {
        self.rest.len()
    }

    // The bytes left.
    pub(crate) fn rest(self) -> &'a [u8] {
        self.rest
    }

    // So many bytes, or all that are left.
    pub(crate) fn take(&mut self, count: usize) -> &'a [u8] {
        let count = count.min(self.rest.len());
        let (taken, rest) = self.rest.split_at(count);
        self.rest = rest;
        taken
    }

    // A payload of its own of so many bytes.
    pub(crate) fn part(&mut self, count: usize) -> Payload<'a> {
        Payload::new(self.take(count))
    }

    // The next bytes.
    fn array<const N: usize>(&mut self) -> [u8; N] {
        let mut bytes = [0; N];
        for (byte, given) in bytes.iter_mut().zip(self.take(N)) {
            *byte = *given;
        }
        bytes
    }

    pub(crate) fn u8(&mut self) -> u8 {
        u8::from_le_bytes(self.array())
    }

    pub(crate) fn u16(&mut self) -> u16 {
        u16::from_le_bytes(self.array())
    }

    pub(crate) fn u32(&mut self) -> u32 {
        u32::from_le_bytes(self.array())
    }

    pub(crate) fn u64(&mut self) -> u64 {
        u64::from_le_bytes(self.array())
    }

    // A number that our calls take as a size.
    pub(crate) fn size(&mut self) -> usize {
        self.u64() as usize
    }

    // A flag: 0 is no, anything else yes.
    pub(crate) fn flag(&mut self) -> bool {
        self.u8() != 0
    }
}
