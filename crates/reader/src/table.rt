// A table with settings that passed test 1, its own header, and FILLED slots within it: what every look at it starts from. `open` makes one
// by tests 1, 2 and 3. What a read goes through is inlined: `Slot::parse_head` says why.
ghost use Rattle.std.specs.Prelude.{◌≡◌, ◌*◌, ◌≤◌, ◌<◌, length};
ghost use Rattle.definition.specs.Slots.{view, header_of};

use crate::slot::Slot;
use definition::{Header, Refusal, Settings};
use slots::header::{header_bad, read_header};
use slots::layout::Layout;

#[derive(Clone, Copy)]
pub struct Table<'a> {
    pub bytes: &'a [u8],
    pub layout: Layout,
    pub header: Header,
    pub ghost own: { header ≡ header_of (view layout.settings.size bytes.now) },
    pub ghost fits: { header.filled * layout.settings.size ≤ length bytes.now },
}

impl<'a> Table<'a> {
    ghost use Rattle.definition.specs.Calls.{capacity};
    ghost use Rattle.reader.specs.Opened.{slots_of, OpenedIs, SlotIs};

    // Tests 1, 2 and 3: settings, capacity, header.
    #[tactic(auto, unfolding(definition::specs::Calls::settings_test, definition::specs::Calls::buffer_test, definition::specs::Calls::header_test, definition::specs::Calls::capacity, definition::specs::Tests::first, definition::specs::Tests::refuse))]
    #[inline(always)]
    pub fn open(bytes: &'a [u8], settings: Settings) -> Result<Table<'a>, Refusal>
        ensures { OpenedIs result settings bytes.now }
    {
        let layout = Layout::new(settings)?;
        let capacity = bytes.len() / settings.size;
        if capacity == 0 {
            return Err(Refusal::Buffer);
        }
        let header = read_header(bytes, layout);
        if header_bad(header, capacity as u64) {
            return Err(Refusal::Header);
        }
        Ok(Table {
            bytes,
            layout,
            header,
        })
    }

    // The slots that fit.
    #[tactic(auto, unfolding(definition::specs::Calls::capacity))]
    pub fn capacity(&self) -> u64
        ensures { result ≡ capacity self.now.layout.settings self.now.bytes.now }
    {
        (self.bytes.len() / self.layout.settings.size) as u64
    }

    // Slot i, below FILLED.
    #[inline(always)]
    pub fn slot(&self, i: u64) -> Slot<'a>
        requires { i < self.now.header.filled }
        ensures { (result.bytes.now ≡ slots_of self.now i) × (result.layout ≡ self.now.layout) }
    {
        Slot::of(self.bytes, self.layout, i)
    }

    // Test 7, then the slot.
    #[tactic(auto, unfolding(definition::specs::Calls::slot_test, definition::specs::Tests::refuse))]
    #[inline(always)]
    pub fn record_slot(&self, i: u64) -> Result<Slot<'a>, Refusal>
        ensures { SlotIs result self.now i }
    {
        if i == 0 || i >= self.header.filled {
            return Err(Refusal::Slot);
        }
        Ok(self.slot(i))
    }
}
