// A message: its bytes, its lines (pad.rs and the `lines` that it pads), and blanks at the end of a line.
#![tactic(auto)]

ghost use Rattle.std.specs.Prelude.{◌≡◌, suc, ◌+◌, ◌≤◌, min, length, take, drop, position};
ghost use Rattle.std.specs.List.{suffix_len};
ghost use Rattle.message.specs.Inner.{is_end, is_blank, ends, block_length};
ghost use Rattle.message.specs.Message.{is_writable, all_of, lines_of, line_length, trim_end};

// The greatest length of a message.
pub const MESSAGE_LIMIT: usize = 512;

// The bytes whose line ends are counted at once.
const BLOCK: usize = 64;

// Whether a message may hold the byte: 0A, or 20 to 7E.
fn is_writable(byte: u8) -> bool
    ensures { result ≡ is_writable byte }
{
    matches!(byte, 0x0a | 0x20..=0x7e)
}

// Whether a message may hold each of the bytes. It leaves at no byte early, so that the compiler looks at 16 bytes at once (docs/SPEED.md).
pub fn are_writable(message: &[u8]) -> bool
    ensures { result ≡ all_of is_writable message.now }
{
    message
        .iter()
        .fold(true, |all, &byte| all & is_writable(byte))
}

// How many of a block's bytes end a line; the count is a byte, so that the compiler counts 16 bytes at once (docs/SPEED.md).
fn ends_of(block: &[u8]) -> u8
    requires { length block.now ≤ block_length }
    ensures { result ≡ ends block.now }
{
    block.iter().map(|&byte| u8::from(byte == b'\n')).sum()
}

// How many of a message's lines are ended.
fn line_ends(message: &[u8]) -> usize
    ensures { (result ≡ ends message.now) × (result ≤ length message.now) }
{
    let mut count: usize = 0;
    for block in message.chunks(BLOCK) {
        count += ends_of(block) as usize;
    }
    count
}

// Where a block's first line end is. A whole block that ends no line is passed over at once; where fewer bytes are left, the line's end is searched
// byte by byte, since short lines would have them counted anew for each (docs/SPEED.md).
fn end_in(block: &[u8]) -> Option<usize>
    requires { length block.now ≤ block_length }
    ensures { result ≡ position is_end block.now }
{
    if block.len() == BLOCK && ends_of(block) == 0 {
        return None;
    }
    block.iter().position(|&byte| byte == b'\n')
}

// The length of the first line: up to the first 0A, or all bytes.
fn first_line_length(bytes: &[u8]) -> usize
    ensures { result ≡ line_length bytes.now }
{
    let mut passed: usize = 0;
    for block in bytes.chunks(BLOCK) {
        match end_in(block) {
            Some(end) => return passed + end,
            None => passed += block.len(),
        }
    }
    passed
}

// Where the line from `start` on ends: at the next 0A, or where the message ends.
pub fn line_end(message: &[u8], start: usize) -> usize
    ensures { result ≡ start + line_length (drop start message.now) }
{
    match message.get(start..) {
        Some(rest) => start + first_line_length(rest),
        None => start,
    }
}

// Where the line behind one that ends at `end` starts.
pub fn next_start(message: &[u8], end: usize) -> usize
    ensures { result ≡ min (suc end) (length message.now) }
{
    if end < message.len() {
        return end + 1;
    }
    message.len()
}

// How many lines a message has: those that are ended, and one more unless the last byte ends one.
pub fn line_count(message: &[u8]) -> usize
    ensures { result ≡ length (lines_of message.now) }
{
    let count = line_ends(message);
    let n = message.len();
    if n == 0 {
        return 0;
    }
    if message[n - 1] == 0x0a {
        return count;
    }
    count + 1
}

// How many blanks stand at a line's end.
fn blanks_at_end(line: &[u8]) -> usize
    ensures { result ≡ suffix_len is_blank line.now }
{
    line.iter().rev().take_while(|&&byte| byte == b' ').count()
}

// The length of a line without the blanks at its end (`trim_end`).
pub fn trimmed_length(line: &[u8]) -> usize
    ensures { (result ≡ length (trim_end line.now)) × (take result line.now ≡ trim_end line.now) }
{
    line.len() - blanks_at_end(line)
}
