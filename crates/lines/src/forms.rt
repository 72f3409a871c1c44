// A line compared with the forms of lines, before anything is done: so what is done of a line asks no more.
ghost use Rattle.std.specs.Prelude.{map, IfSome};
ghost use Rattle.std.specs.List.{Contains};

use crate::{values, words};

// What stands beside the first of these forms that a line has. When it answers none is left open: no caller asks.
pub fn which_form<K: Copy>(line: &[u8], forms: &[(&[u8], K)]) -> Option<K>
    ensures { IfSome result (Contains (map (λ form. form.1) forms.now)) }
{
    forms
        .iter()
        .find(|(form, _)| fits(line, form))
        .map(|(_, kind)| *kind)
}

// Whether each word of a line is what the form has in its place, up to the end of both.
fn fits(line: &[u8], form: &[u8]) -> bool {
    (0..words::MOST).all(|place| is(words::word(line, place), words::word(form, place)))
}

// Whether a word, or that there is none, is what a word of a form says: N a number, S a signed step, V a value, L the length of
// a table that the buffer holds, C `compressed` or nothing, and else one of the words that it has `|` between. A match: a closure for each
// would be made and handed out.
fn is(word: &[u8], said: &[u8]) -> bool {
    match said {
        b"N" => words::spells(word, 10),
        b"S" => words::spells_step(word),
        b"V" => values::is_value(word),
        b"L" => words::spells_up_to(word, 98304),
        b"C" => matches!(word, b"" | b"compressed"),
        b"" => word.is_empty(),
        _ => words::which(word, said, b'|').is_some(),
    }
}
