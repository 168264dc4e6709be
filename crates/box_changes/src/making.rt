//! `mkdir`: makes folders.

ghost use Rattle.box_changes.specs.Changing.{ChangesImage};
ghost use Rattle.box_changes.specs.Meanings.{making_means, making_refuses};

use crate::change::{Change, Changed, change_image};
use box_calls::{Place, Reason};
use disk_model::Disk;
use image_changes::{Outcome, make_directories, make_with_parents};
use image_check::ApplyFault;
use path_keys::Path;
use script_lines::Sink;
use store_core::Store;

/// The making of folders, with those that lead there, or without.
#[derive(Drop)]
struct Making {
    paths: Vec<Path>,
    has_parents: bool,
}

impl Change for Making {
    ghost means = { λ making. making_means making.has_parents making.paths.items };

    ghost refuses = { λ making. making_refuses making.has_parents making.paths.items };

    fn make<D: Disk>(self, store: &mut Store<D>) -> Result<Outcome, ApplyFault> {
        let Making { paths, has_parents } = self;
        if has_parents {
            make_with_parents(store, paths)
        } else {
            make_directories(store, paths)
        }
    }
}

/// Makes folders in an image, one after another, all of them or none: with those that lead there, where folders that
/// are there stay, or without.
pub fn make_folders<D: Disk, E: Sink>(
    place: &Place<'_>,
    disk: D,
    paths: Vec<Path>,
    has_parents: bool,
    say: E,
) -> Changed<D, E>
    ensures { ChangesImage place.now.sums_up (making_means has_parents paths.items)
        (making_refuses has_parents paths.items) (D.state disk) (D.state result.disk) (E.state say)
        (E.state result.say) result.status }
{
    let there = if has_parents {
        Reason::FileThere
    } else {
        Reason::Made
    };
    let making = Making { paths, has_parents };
    change_image(place, disk, making, there, say)
}
