// The effects of the calls: a record written, and a record freed. The header is the table's own, and the prefix is made of the key.
ghost use Rattle.std.specs.Prelude.{◌≡◌, false, ℕ, length};
ghost use mathlib.Core.List.{List, ◌++◌, head_d};
ghost use Rattle.definition.specs.Slots.{view, filled as filled_of, store};
ghost use Rattle.definition.specs.Parts.{prefix, pieces};
ghost use Rattle.definition.specs.Effect.{new_slots, effect};
ghost use Rattle.writes.specs.Steps.{clear_stores};
ghost use Rattle.writes.specs.Ready.{Writable, Freeable};

use crate::{clear_chain, overwrite_chain};
use definition::PREFIX_SIZE;
use slots::header::read_header;
use slots::keys::write_prefix;
use slots::layout::Layout;
use writer::Body;

// Writes a record with a count of 1 over the chain at `at`, a new one where that is 0, the link that leads nowhere. `same` says that it has
// as many parts as the chain. Answers its first slot.
#[tactic(auto, unfolding(definition::specs::Effect::filled_after))]
pub fn write_record(
    table: &mut [u8],
    layout: Layout,
    key: &[u8],
    content: &[u8],
    mark: bool,
    at: u64,
    same: bool,
) -> u64
    requires { (old : List ℕ) × (free : List ℕ) × Writable layout.settings same key.now content.now table.old old free at }
    ensures { (old free : List ℕ) → Writable layout.settings same key.now content.now table.old old free at
        → (table.new ≡ store layout.settings.size table.old (effect layout.settings mark (length content.now) (pieces layout.settings (prefix layout.settings key.now ++ content.now)) old free (filled_of (view layout.settings.size table.old))))
        × (result ≡ head_d (new_slots old free (filled_of (view layout.settings.size table.old)) (length (pieces layout.settings (prefix layout.settings key.now ++ content.now)))) 0) }
{
    let h = read_header(table, layout);
    let mut prefix = [0u8; PREFIX_SIZE];
    let n = write_prefix(&mut prefix, layout.settings, key);
    let body = Body {
        prefix: &prefix[..n],
        content,
    };
    overwrite_chain(table, layout, mark, &body, at, h, same)
}

// Frees the chain at `at`, head first, and stores the header.
pub fn free_record(table: &mut [u8], layout: Layout, at: u64)
    requires { (old : List ℕ) × (free : List ℕ) × Freeable layout.settings table.old old free at }
    ensures { (old free : List ℕ) → Freeable layout.settings table.old old free at
        → table.new ≡ store layout.settings.size table.old (clear_stores false old free (filled_of (view layout.settings.size table.old))) }
{
    let h = read_header(table, layout);
    clear_chain(table, layout, at, h, false);
}
