// The types that every other crate shares: a table's settings, the refusals with their numbers, which kind of part a slot
// holds, and what a read tells. What the calls mean is defined over these types in specs/.
#![tactic(auto)]

ghost use Rattle.std.specs.Prelude.{◌≡◌, ◌<◌, ◌^◌};
ghost use Rattle.definition.specs.Tests.{number_of};
ghost use Rattle.definition.specs.Settings.{bad_settings, count_len, key_len, prefix_len, head_overhead, start_overhead};
ghost use Rattle.definition.specs.Calls.{content_start};

// The layout's lengths in bytes, once for all the code: a size word or mark, a slot number or link, a head's content length, a
// count, a partial key, a whole key, and how much of the whole key the partial one leaves out. specs/Settings.antt has the same.
pub const SIZE_SIZE: usize = 2;

pub const INDEX_SIZE: usize = 8;

pub const TOTAL_SIZE: usize = 8;

pub const REFS_SIZE: usize = 4;

pub const PARTIAL_SIZE: usize = 26;

pub const KEY_SIZE: usize = 32;

pub const KEY_SKIP: usize = 6;

// A continuation's bytes before its content: mark and link.
pub const LINK_OVERHEAD: usize = SIZE_SIZE + INDEX_SIZE;

// The longest prefix: a count and a partial key.
pub const PREFIX_SIZE: usize = 30;

// The size word's top bit: the compressed mark.
pub const COMPRESSED_MASK: u16 = 0x8000;

// The entry sizes: the least, the largest, and the one of a multipart table.
pub const MIN_ENTRY_SIZE: usize = 32;

pub const MAX_ENTRY_SIZE: usize = 32760;

pub const MULTIPART_ENTRY_SIZE: usize = 4096;

// A count that reached this is locked.
pub const LOCKED_REF: u32 = 0xffff_ffff;

// A table's settings: the entry size E in bytes, multipart or fixed, counted or not, keyed or not.
#[derive(Clone, Copy, Debug, Default, PartialEq, Eq)]
pub struct Settings {
    pub size: usize,
    pub multipart: bool,
    pub counted: bool,
    pub keyed: bool,
}

impl Settings {
    // Refusal 1: the entry size is out of range, or not 4,096 on a multipart table.
    #[tactic(auto, unfolding(crate::specs::Settings::bad_settings))]
    pub fn is_bad(self) -> bool
        ensures { result ≡ bad_settings self }
    {
        self.size < MIN_ENTRY_SIZE
            || self.size > MAX_ENTRY_SIZE
            || self.multipart && self.size != MULTIPART_ENTRY_SIZE
    }

    // The bytes of the prefix: the count's if counted, then the key's if keyed.
    #[tactic(auto, unfolding(crate::specs::Settings::prefix_len, crate::specs::Settings::count_len, crate::specs::Settings::key_len))]
    pub fn prefix_len(self) -> usize
        ensures { result ≡ prefix_len self }
    {
        self.count_len() + self.key_len()
    }

    // The bytes of the count. It and the key's are two functions, as the definition has two words.
    #[tactic(auto, unfolding(crate::specs::Settings::count_len))]
    pub fn count_len(self) -> usize
        ensures { result ≡ count_len self }
    {
        if self.counted { REFS_SIZE } else { 0 }
    }

    // The bytes of the partial key.
    #[tactic(auto, unfolding(crate::specs::Settings::key_len))]
    pub fn key_len(self) -> usize
        ensures { result ≡ key_len self }
    {
        if self.keyed { PARTIAL_SIZE } else { 0 }
    }

    // A head's bytes before its prefix.
    #[tactic(auto, unfolding(crate::specs::Settings::head_overhead))]
    pub fn head_overhead(self) -> usize
        ensures { result ≡ head_overhead self }
    {
        SIZE_SIZE + TOTAL_SIZE + INDEX_SIZE
    }

    // The bytes before the prefix in the slot where a chain starts.
    #[tactic(auto, unfolding(crate::specs::Settings::start_overhead))]
    pub fn start_overhead(self) -> usize
        ensures { result ≡ start_overhead self }
    {
        if self.multipart {
            self.head_overhead()
        } else {
            SIZE_SIZE
        }
    }

    // Where the content of a plain slot starts in its table: after the size word and the prefix.
    #[tactic(auto, unfolding(crate::specs::Calls::content_start))]
    pub fn content_start(self, slot: u64) -> usize
        requires { content_start self slot < 2 ^ 64 }
        ensures { result ≡ content_start self slot }
    {
        (slot as usize) * self.size + SIZE_SIZE + self.prefix_len()
    }
}

// The refusals, by document 01's names and with its numbers, 1 to 13.
#[derive(Clone, Copy, Debug, PartialEq, Eq)]
pub enum Refusal {
    Settings = 1,
    Buffer,
    Header,
    Key,
    Uncounted,
    Value,
    Slot,
    Absent,
    Size,
    Chain,
    FreeList,
    Room,
    Output,
}

impl Refusal {
    // 01's number, by the name that the documents have for it.
    pub fn number(self) -> u32
        ensures { result ≡ number_of self }
    {
        self as u32
    }
}

// LAST_REMOVED and FILLED, as slot 0 holds them. A stored FILLED of 0 has become 1.
#[derive(Clone, Copy, Debug, PartialEq, Eq)]
pub struct Header {
    pub removed: u64,
    pub filled: u64,
}

// Which kind of part a slot holds, each with its link, as document 01 asks. A last part, and a plain slot, store none: their link is 0.
#[derive(Clone, Copy, Debug, PartialEq, Eq)]
pub enum PartKind {
    Head(u64),
    Continuation(u64),
    Last(u64),
}

// What a look at a slot finds, if it is not refused: the kind of part, and the bytes of prefix and content that it holds.
#[derive(Clone, Copy, Debug, PartialEq, Eq)]
pub struct Part {
    pub kind: PartKind,
    pub bytes: usize,
}

// What a read tells of a record, its content aside: the content's length, the compressed mark, the count, the slots visited.
#[derive(Clone, Copy, Debug, PartialEq, Eq)]
pub struct Record {
    pub len: u64,
    pub mark: bool,
    pub count: u32,
    pub visits: u64,
}
