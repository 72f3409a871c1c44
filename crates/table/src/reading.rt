// The reads: the copying read for both kinds of table, the fixed read that hands back a part of the table, and its companion.
ghost use Rattle.std.specs.Prelude.{◌≡◌};
ghost use Rattle.definition.specs.Answers.{found_of};
ghost use Rattle.definition.specs.Calls.{read, part_start, read_fixed, find_fixed};
ghost use Rattle.slots.specs.Keys.{lent_key};
ghost use Rattle.table.specs.Places.{LiesAt};
ghost use Rattle.table.specs.Found.{FoundIs};

use checks::checked_key_bad;
use contents::copy_content;
use definition::{Record, Refusal, Settings};
use reader::{Table, read_compressed, read_count};
use walks::chain::check_chain;

// The tests of a read after the table's and before its output, and what is told of the record.
#[inline(always)]
#[tactic(auto, unfolding(definition::specs::Tests::refuse, definition::specs::Tests::first))]
fn find_record(table: &Table, slot: u64, key: Option<&[u8]>) -> Result<Record, Refusal>
    ensures { FoundIs result table.now.layout.settings table.now.bytes.now slot (lent_key key.entry) }
{
    let s = table.layout.settings;
    if checked_key_bad(s, key) {
        return Err(Refusal::Key);
    }
    let chain = check_chain(table, slot, key)?;
    let head = table.slot(slot).bytes;
    Ok(Record {
        len: (chain.bytes - s.prefix_len()) as u64,
        mark: read_compressed(head, s),
        count: read_count(head, s),
        visits: chain.parts,
    })
}

// The copying read: the content into the front of the output, whose bytes past it stay. With a key checked, or without.
pub fn read(
    table: &[u8],
    s: Settings,
    slot: u64,
    key: Option<&[u8]>,
    output: &mut [u8],
) -> Result<Record, Refusal>
    ensures { (found_of result, output.new) ≡ read s (lent_key key.entry) slot table.now output.old }
{
    let table = Table::open(table, s)?;
    let record = find_record(&table, slot, key)?;
    if record.len > output.len() as u64 {
        return Err(Refusal::Output);
    }
    copy_content(&table, slot, 0, record.len as usize, output);
    Ok(record)
}

// The fixed read's companion: the refusal, or the content's length, mark, count and visits. On a multipart table it gives 1.
pub fn find_fixed(
    table: &[u8],
    s: Settings,
    slot: u64,
    key: Option<&[u8]>,
) -> Result<Record, Refusal>
    ensures { found_of result ≡ find_fixed s (lent_key key.entry) slot table.now }
{
    if s.multipart {
        return Err(Refusal::Settings);
    }
    find_record(&Table::open(table, s)?, slot, key)
}

// The fixed read: the content bytes of the slot, a part of the lent table from their place on; empty where it is refused, as 01 asks: its
// companion has the refusal.
#[tactic(auto, using(crate::proofs::ReadLaws::fixed_inside))]
pub fn read_fixed<'a, 'b>(
    table: &'a [u8],
    s: Settings,
    slot: u64,
    key: Option<&'b [u8]>,
) -> &'a [u8]
    ensures { (result.now ≡ read_fixed s (lent_key key.entry) slot table.now)
        × LiesAt result table.entry (part_start s (lent_key key.entry) slot table.now) }
{
    match find_fixed(table, s, slot, key) {
        Err(_) => &table[..0],
        Ok(record) => {
            let start = s.content_start(slot);
            &table[start..start + record.len as usize]
        }
    }
}
