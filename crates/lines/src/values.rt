// Keys and contents, each one word of a line: given byte by byte, or made of numbers so that long ones need no letters.
ghost use Rattle.std.specs.Prelude.{◌≡◌, ◌<◌, ◌≤◌, length, take, drop, IfSome};
ghost use Rattle.lines.specs.Values.{sum_with, sum_of};

use crate::words;

// The longest key or content that a word stands for.
pub const ROOM: usize = 65536;

// What a stretch of bytes is filled with: one byte; letters, and zeros after them; the bytes that hexadecimal digits spell; key K; the
// content with seed S.
#[derive(Clone, Copy, Debug)]
pub enum Filling<'a> {
    Same(u8),
    Text(&'a [u8]),
    Hex(&'a [u8]),
    Key(u64),
    Content(u64),
}

// ---- a word's bytes

// What a word stands for: so many bytes, and what they are.
#[derive(Clone, Copy, Debug)]
struct Value<'a> {
    len: u64,
    bytes: Filling<'a>,
}

// `none`, `text:ABC`, `hex:ecff`, `7` (key 7) or `32@1` (32 bytes of the content with seed 1).
fn value_of(word: &[u8]) -> Option<Value<'_>> {
    let letters = words::rest(word, 1, b':');
    match words::part(word, 0, b':') {
        b"none" => Some(Value {
            len: 0,
            bytes: Filling::Same(0),
        }),
        b"text" => Some(Value {
            len: letters.len() as u64,
            bytes: Filling::Text(letters),
        }),
        b"hex" => spelled(letters),
        _ => made(word),
    }
}

// Two digits a byte.
fn spelled(digits: &[u8]) -> Option<Value<'_>> {
    if digits.len() % 2 == 1 || !words::spells(digits, 16) {
        return None;
    }
    Some(Value {
        len: digits.len() as u64 / 2,
        bytes: Filling::Hex(digits),
    })
}

// A number alone is a key's; with a seed it is a content's length. `7@` is key 7 too, so an empty seed and none are one.
fn made(word: &[u8]) -> Option<Value<'_>> {
    let number = words::decimal(words::part(word, 0, b'@'))?;
    let seed = words::rest(word, 1, b'@');
    if seed.is_empty() {
        return Some(Value {
            len: definition::KEY_SIZE as u64,
            bytes: Filling::Key(number),
        });
    }
    Some(Value {
        len: number,
        bytes: Filling::Content(words::decimal(seed)?),
    })
}

pub fn is_value(word: &[u8]) -> bool {
    value_of(word).is_some_and(|v| v.len <= ROOM as u64)
}

// The value in a line: its bytes, which lie at the start of the room. None where the word stands for no bytes that the room holds: when that
// is, is left open, since no caller asks.
pub fn value_at<'a>(line: &[u8], place: usize, room: &'a mut [u8]) -> Option<&'a [u8]>
    ensures { IfSome result (λ value. length value.now ≤ length room.old) }
{
    let Value { len, bytes } = value_of(words::word(line, place))?;
    let filled = room.get_mut(..usize::try_from(len).ok()?)?;
    fill(filled, bytes);
    Some(filled)
}

// ---- bytes made

pub fn fill(room: &mut [u8], with: Filling<'_>) {
    for (i, byte) in room.iter_mut().enumerate() {
        *byte = with.byte(i);
    }
}

// An enum and its match: a closure for each would be made and handed out.
impl Filling<'_> {
    // Byte i of key k is k + i, and of a content with seed s it is s + 7 i + i / 256, both modulo 256.
    fn byte(self, i: usize) -> u8 {
        match self {
            Filling::Same(byte) => byte,
            Filling::Text(letters) => letters.get(i).copied().unwrap_or(0),
            Filling::Hex(digits) => hex_byte(digits, i),
            Filling::Key(k) => key_byte(k, i as u64),
            Filling::Content(seed) => low(seed % 256 + 7 * (i as u64 % 256) + i as u64 / 256),
        }
    }
}

// From key 256 on the first six bytes are 0: those that a table does not keep.
fn key_byte(k: u64, i: u64) -> u8 {
    if k > 255 && i < definition::KEY_SKIP as u64 {
        return 0;
    }
    low(k % 256 + i % 256)
}

// The digits lie two by two; after 256 bytes they begin again.
fn hex_byte(digits: &[u8], i: usize) -> u8 {
    let at = i % 256 * 2;
    hex_digit(digits, at) * 16 + hex_digit(digits, at + 1)
}

fn hex_digit(digits: &[u8], at: usize) -> u8
    ensures { result < 16 }
{
    digits.get(at).and_then(|b| words::digit(*b)).unwrap_or(0)
}

// What is cut off is meant: so no try_from, which refuses what does not fit.
fn low(n: u64) -> u8 {
    (n % 256) as u8
}

// ---- bytes taken together

// The first n bytes, or all where there are fewer.
pub fn front(b: &[u8], n: usize) -> &[u8]
    ensures { result.now ≡ take n b.now }
{
    b.get(..n).unwrap_or(b)
}

// What stands after the first n bytes.
pub fn back(b: &[u8], n: usize) -> &[u8]
    ensures { result.now ≡ drop n b.now }
{
    b.get(n..).unwrap_or(&[])
}

// What stands for bytes that are too many to write: each byte b in turn makes the sum 257 times itself plus b + 1, modulo a prime.
pub fn sum(b: &[u8]) -> u64
    ensures { result ≡ sum_of b.now }
{
    b.iter().fold(0, |sum, byte| sum_with(sum, *byte))
}

fn sum_with(sum: u64, byte: u8) -> u64
    ensures { result ≡ sum_with sum byte }
{
    (sum % 4294967291 * 257 + u64::from(byte) + 1) % 4294967291
}
