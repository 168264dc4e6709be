//! `rm`: removes what stands at paths.

ghost use Rattle.box_changes.specs.Changing.{ChangesImage};
ghost use Rattle.box_changes.specs.Meanings.{removal_means, removal_refuses};

use crate::change::{Change, Changed, change_image};
use box_calls::{Place, Reason};
use disk_model::Disk;
use image_changes::{Outcome, Removal, remove};
use image_check::ApplyFault;
use path_keys::Path;
use script_lines::Sink;
use store_core::Store;

/// The removal of paths.
#[derive(Drop)]
struct Removing {
    paths: Vec<Path>,
    removal: Removal,
}

impl Change for Removing {
    ghost means = { λ removing. removal_means removing.removal removing.paths.items };

    ghost refuses = { λ removing. removal_refuses removing.removal removing.paths.items };

    fn make<D: Disk>(self, store: &mut Store<D>) -> Result<Outcome, ApplyFault> {
        let Removing { paths, removal } = self;
        remove(store, paths, removal)
    }
}

/// Removes what stands at paths of an image, all of it or nothing.
pub fn remove_paths<D: Disk, E: Sink>(
    place: &Place<'_>,
    disk: D,
    paths: Vec<Path>,
    removal: Removal,
    say: E,
) -> Changed<D, E>
    ensures { ChangesImage place.now.sums_up (removal_means removal paths.items)
        (removal_refuses removal paths.items) (D.state disk) (D.state result.disk) (E.state say)
        (E.state result.say) result.status }
{
    let removing = Removing { paths, removal };
    change_image(place, disk, removing, Reason::Made, say)
}
