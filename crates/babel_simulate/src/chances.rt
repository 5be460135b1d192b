//! What is random.

ghost use Rattle.std.specs.Prelude.{◌≡◌, ◌<◌, ◌≤◌, false, IsTrue};

use rand_core::utils::NextWord;
use rand_pcg::Pcg32;

/// Random numbers of a seed.
#[derive(Drop)]
pub(crate) struct Chances {
    words: Pcg32,
}

impl Chances {
    pub(crate) fn new(seed: u64) -> Chances {
        Chances {
            words: Pcg32::new(seed, 0),
        }
    }

    /// Whether one of so many in 100 cases came up. Without a chance no random number is taken.
    pub(crate) fn is_hit(&mut self, percent: u16) -> bool
        ensures never { percent ≡ 0 → result ≡ false }
        ensures always { 100 ≤ percent → IsTrue result }
    {
        if percent == 0 {
            return false;
        }
        u32::from(percent) > self.words.next_word() % 100
    }

    /// A number below this one; 0 if it is 0.
    pub(crate) fn below(&mut self, end: u64) -> u64
        ensures below { 0 < end → result < end }
        ensures none { end ≡ 0 → result ≡ 0 }
    {
        if end == 0 {
            return 0;
        }
        u64::from(self.words.next_word()) % end
    }
}
