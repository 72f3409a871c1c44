// Settings that passed test 1, and where the slots of a table with them lie. Inlined, as all that a read goes through: reader's
// `Slot::parse_head` says why.
ghost use Rattle.std.specs.Prelude.{◌≡◌, false, ◌+◌, ◌*◌, ◌≤◌, ◌<◌, ◌^◌, IsErrOf, IsOkUnless, IfOk, true, ◌↔◌};
ghost use Rattle.definition.specs.Settings.{bad_settings, least_size, largest_size};

use definition::{Refusal, Settings};
use std::ops::Range;

#[derive(Clone, Copy)]
pub struct Layout {
    pub settings: Settings,
    pub ghost good: { bad_settings settings ≡ false },
    pub ghost least: { least_size ≤ settings.size },
    pub ghost largest: { settings.size ≤ largest_size },
}

impl Layout {
    // Test 1.
    #[tactic(auto, unfolding(definition::specs::Settings::bad_settings))]
    #[inline(always)]
    pub fn new(settings: Settings) -> Result<Layout, Refusal>
        ensures bad { IsErrOf result Refusal.Settings ↔ (bad_settings settings ≡ true) }
        ensures refusal { IsOkUnless result Refusal.Settings }
        ensures good { IfOk result (λ layout. layout.settings ≡ settings) }
    {
        if settings.is_bad() {
            return Err(Refusal::Settings);
        }
        Ok(Layout { settings })
    }

    // The places of slot i.
    #[inline(always)]
    pub fn slot(self, i: u64) -> Range<usize>
        requires { i * self.settings.size + self.settings.size < 2 ^ 64 }
        ensures start { result.start ≡ i * self.settings.size }
        ensures end { result.end ≡ i * self.settings.size + self.settings.size }
    {
        let start = (i as usize) * self.settings.size;
        start..start + self.settings.size
    }
}
