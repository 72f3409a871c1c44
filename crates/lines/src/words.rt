// Texts cut at a separator, as a line into words; words compared, and read as numbers. No public function asks anything of its caller: a part
// that is not there is empty, and of a word that spells no number 0 is read. A line is lent whole and each call asks another place of it, so
// both are parameters.
ghost use Rattle.std.specs.Prelude.{◌≡◌, ◌≢◌, ◌<◌, ◌↔◌, IsTrue, IfSome, IfNone};
ghost use Rattle.std.specs.List.{All};
ghost use Rattle.lines.specs.Words.{parts_of, part_at, EndsIn};

// As many words of a line are compared with those of a form.
pub const MOST: usize = 16;

// ---- parts of a text

// The parts from a place on, from 0 on.
pub fn rest(text: &[u8], place: usize, separator: u8) -> &[u8]
    ensures { EndsIn text.now result.now }
{
    text.splitn(place.saturating_add(1), |b| *b == separator)
        .nth(place)
        .unwrap_or(&[])
}

pub fn part(text: &[u8], place: usize, separator: u8) -> &[u8]
    ensures { result.now ≡ part_at text.now place separator }
{
    text.split(|b| *b == separator).nth(place).unwrap_or(&[])
}

pub fn word(line: &[u8], place: usize) -> &[u8]
    ensures { result.now ≡ part_at line.now place 32 }
{
    part(line, place, b' ')
}

pub fn is_at(line: &[u8], place: usize, name: &[u8]) -> bool
    ensures { IsTrue result ↔ (part_at line.now place 32 ≡ name.now) }
{
    word(line, place) == name
}

// The place of a word among some names.
pub fn which(word: &[u8], names: &[u8], separator: u8) -> Option<usize>
    ensures found { IfSome result (λ place. part_at names.now place separator ≡ word.now) }
    ensures missing { IfNone result (All (λ name. name ≢ word.now) (parts_of names.now separator)) }
{
    names
        .split(|b| *b == separator)
        .position(|name| name == word)
}

// ---- numbers

// The value of a hexadecimal digit. Not char::to_digit: capitals are no digits here. When it answers none is left open: no caller asks.
pub fn digit(byte: u8) -> Option<u8>
    ensures { IfSome result (λ value. value < 16) }
{
    match byte {
        b'0'..=b'9' => Some(byte - b'0'),
        b'a'..=b'f' => Some(byte - b'a' + 10),
        _ => None,
    }
}

// The value of a digit in this base, up to 16.
fn digit_in(base: u8, byte: u8) -> Option<u8>
    ensures { IfSome result (λ value. value < 16) }
{
    digit(byte).filter(|value| *value < base)
}

// Whether a word spells a number in this base, up to 16.
pub fn spells(word: &[u8], base: u8) -> bool {
    !word.is_empty() && word.iter().all(|b| digit_in(base, *b).is_some())
}

// What a decimal word spells; one of more than 64 bits counts as their largest.
pub(crate) fn decimal(word: &[u8]) -> Option<u64> {
    if word.is_empty() {
        return None;
    }
    word.iter()
        .try_fold(0, |n, b| Some(with_digit(n, digit_in(10, *b)?)))
}

pub fn number(word: &[u8]) -> u64 {
    decimal(word).unwrap_or(0)
}

pub fn number_at(line: &[u8], place: usize) -> u64 {
    number(word(line, place))
}

pub fn spells_up_to(word: &[u8], most: u64) -> bool {
    decimal(word).is_some_and(|n| n <= most)
}

// Not saturating_mul and saturating_add: from 18446744073709551610 on each number counts as the largest, and what is written of it stays.
fn with_digit(n: u64, digit: u8) -> u64
    requires { digit < 16 }
{
    if n >= u64::MAX / 10 {
        return u64::MAX;
    }
    n * 10 + u64::from(digit)
}

// ---- steps

// What a word spells as a signed number of 32 bits.
fn step(word: &[u8]) -> Option<i32> {
    let n = match word.strip_prefix(b"-") {
        Some(digits) => -i64::try_from(decimal(digits)?).ok()?,
        None => i64::try_from(decimal(word)?).ok()?,
    };
    i32::try_from(n).ok()
}

// Whether a word spells a signed number of 32 bits.
pub fn spells_step(word: &[u8]) -> bool {
    step(word).is_some()
}

pub fn step_at(line: &[u8], place: usize) -> i32 {
    step(word(line, place)).unwrap_or(0)
}
