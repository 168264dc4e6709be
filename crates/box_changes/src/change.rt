//! A change of an image, and the call that opens an image for one.

ghost use Rattle.std.specs.Prelude.{false};
ghost use Rattle.box_changes.specs.Changing.{ChangesImage};

use crate::ending::{Fullness, about_of, change_done, end_change, open_trouble};
use crate::noted::NotedDisk;
use box_calls::{About, Place, Reason, ended};
use box_words::Status;
use disk_model::Disk;
use image_changes::Outcome;
use image_check::ApplyFault;
use script_lines::Sink;
use store_core::Store;

/// What a call hands back that changes an image, and how it ended.
#[derive(Drop)]
pub struct Changed<D, E> {
    /// How it ended.
    pub status: Status,
    /// The disk of the image.
    pub disk: D,
    /// The sink of what is said.
    pub say: E,
}

/// A change of an image, as words mean it.
pub(crate) trait Change: Drop {
    ghost use Rattle.image_changes.specs.Words.{Changes};
    ghost use Rattle.box_changes.specs.Changing.{Meaning, Refusing};

    /// To which tree a tree goes on.
    ghost means: { Self → Meaning };

    /// Why it is refused at a path.
    ghost refuses: { Self → Refusing };

    /// Makes it, by one commit, or not.
    fn make<D: Disk>(self, store: &mut Store<D>) -> Result<Outcome, ApplyFault>
        ensures { Changes D.state (means self store.old.params) (refuses self store.old.params) store.old store.new
            result };
}

/// Opens an image, and makes a change of it. Where something stands already that keeps it from being made, that is
/// said by this reason.
pub(crate) fn change_image<D: Disk, C: Change, E: Sink>(
    place: &Place<'_>,
    disk: D,
    change: C,
    there: Reason,
    say: E,
) -> Changed<D, E>
    ensures { ChangesImage place.now.sums_up (C.means change) (C.refuses change) (D.state disk)
        (D.state result.disk) (E.state say) (E.state result.say) result.status }
{
    let mut say = say;
    let mut store = match Store::attach(place.alloc, NotedDisk::new(disk)) {
        Ok(store) => store,
        Err((fault, disk)) => {
            let status = ended(place, Err(open_trouble(fault)), About::Image, &mut say);
            return Changed {
                status,
                disk: disk.into_disk(),
                say,
            };
        }
    };
    let recovered = store.disk().is_written();
    let done = change.make(&mut store);
    let full = Fullness::of(&store, recovered);
    let status = end_change(
        place,
        &full,
        change_done(there, &done),
        0,
        about_of(&done),
        &mut say,
    );
    Changed {
        status,
        disk: store.into_disk().into_disk(),
        say,
    }
}
