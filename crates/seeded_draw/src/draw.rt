//! What every draw offers.

ghost use Rattle.std.specs.Prelude.{◌≡◌, ℕ};
ghost use Rattle.store_model.specs.Labels as labels;
ghost use Rattle.store_model.specs.Labels.{IsLabel};
ghost use Rattle.store_model.specs.Draws as draws;

use crate::front::Front;
use store_base::{Key, Label};

/// A draw: two functions with bounds. The same label always has the same start, and the same key the same
/// level.
pub trait Draw {
    /// The draw of the definitions that this is.
    ghost drawn: { Self → draws.Draw };

    /// The digest of each label. It is one function of the label, and else nothing is promised of it.
    ghost digests: { Self → labels.Label → ℕ };

    /// The number of slots of the table, at least 1.
    fn slots(&self) -> u32
        ensures { result ≡ (drawn self.now).slots };

    /// The number of levels of the lists, at least 1.
    fn height(&self) -> u8
        ensures { result ≡ (drawn self.now).height };

    /// The slot at which the probe sequence of the label starts, below `slots`.
    fn start(&self, label: &Label) -> u32
        ensures value { result ≡ (drawn self.now).start label.now }
        ensures valid { IsLabel label.now };

    /// The highest level on which the key stands, below `height`.
    fn level(&self, key: &Key) -> u8
        ensures { result ≡ (drawn self.now).level key.now };

    /// As `start`, by what the front keeps of the label that was drawn for last. It helps where labels of one group
    /// follow each other: they begin alike, so from the second on less is digested. Any front gives the same start.
    fn start_from(&self, front: &mut Front, label: &Label) -> u32
        ensures value { result ≡ (drawn self.now).start label.now }
        ensures valid { IsLabel label.now }
    {
        let _ = front;
        self.start(label)
    }

    /// As `level`, by what the front keeps of the key that was drawn for last. It helps where keys of one file follow
    /// each other: they begin alike, so from the second on less is digested. Any front gives the same level.
    fn level_from(&self, front: &mut Front, key: &Key) -> u8
        ensures { result ≡ (drawn self.now).level key.now }
    {
        let _ = front;
        self.level(key)
    }

    /// The digest of the label, a number of 64 bits; the front helps as in `start_from`. Labels of one digest are
    /// hard to make, so that pages are found by it: it is taken from SHA-256 (FIPS 180-4).
    fn digest_from(&self, front: &mut Front, label: &Label) -> u64
        ensures value { result ≡ digests self.now label.now }
        ensures valid { IsLabel label.now };

    /// As `start`, where the label's digest is known: nothing is digested for it.
    fn start_by(&self, label: &Label, digest: u64) -> u32
        requires { digest ≡ digests self.now label.now }
        ensures { result ≡ (drawn self.now).start label.now };

    /// Starts lie in the table, and levels below the height.
    ghost lawful: { (d : Self) → draws.IsLawful (drawn d) };
}
