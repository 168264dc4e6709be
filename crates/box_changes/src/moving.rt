//! `mv`: moves what stands at a path.

ghost use Rattle.box_changes.specs.Changing.{ChangesImage};
ghost use Rattle.box_changes.specs.Meanings.{move_means, move_refuses};

use crate::change::{Change, Changed, change_image};
use box_calls::{Place, Reason};
use disk_model::Disk;
use image_changes::{Outcome, move_to};
use image_check::ApplyFault;
use path_keys::Path;
use script_lines::Sink;
use store_core::Store;

/// A move to a new path, where a file is replaced, or is in the way.
#[derive(Clone, Copy, Drop)]
struct Moving {
    from: Path,
    to: Path,
    is_forced: bool,
}

impl Change for Moving {
    ghost means = { λ moving. move_means moving.is_forced moving.from moving.to };

    ghost refuses = { λ moving. move_refuses moving.is_forced moving.from moving.to };

    fn make<D: Disk>(self, store: &mut Store<D>) -> Result<Outcome, ApplyFault> {
        move_to(store, &self.from, &self.to, self.is_forced)
    }
}

/// Moves what stands at a path of an image to a new path, with all below it. A file that stands there is replaced, or
/// is in the way.
pub fn move_path<D: Disk, E: Sink>(
    place: &Place<'_>,
    disk: D,
    from: &Path,
    to: &Path,
    is_forced: bool,
    say: E,
) -> Changed<D, E>
    ensures { ChangesImage place.now.sums_up (move_means is_forced from.now to.now)
        (move_refuses is_forced from.now to.now) (D.state disk) (D.state result.disk) (E.state say)
        (E.state result.say) result.status }
{
    let moving = Moving {
        from: *from,
        to: *to,
        is_forced,
    };
    change_image(place, disk, moving, Reason::Taken, say)
}
