//! `attr`: sets attributes, and takes them away.

ghost use Rattle.std.specs.Prelude.{◌≤◌, length};
ghost use Rattle.box_changes.specs.Changing.{ChangesImage};
ghost use Rattle.box_changes.specs.Meanings.{set_means, set_refuses, unset_means, unset_refuses};

use crate::change::{Change, Changed, change_image};
use box_calls::{Place, Reason};
use disk_model::Disk;
use image_changes::{Outcome, set_attribute as set, unset_attribute as unset};
use image_check::ApplyFault;
use path_keys::{AttrName, Path};
use script_lines::Sink;
use store_base::Bytes;
use store_core::Store;

/// An attribute that is set.
#[derive(Drop)]
struct Setting {
    path: Path,
    name: AttrName,
    value: Bytes,
}

impl Change for Setting {
    ghost means = { λ setting. set_means setting.path setting.name setting.value };

    ghost refuses = { λ setting. set_refuses setting.path setting.name setting.value };

    fn make<D: Disk>(self, store: &mut Store<D>) -> Result<Outcome, ApplyFault> {
        set(store, &self.path, &self.name, self.value.as_slice())
    }
}

/// Gives a path of an image an attribute. One of the same name is replaced.
pub fn set_attribute<D: Disk, E: Sink>(
    place: &Place<'_>,
    disk: D,
    path: &Path,
    name: &AttrName,
    value: &Bytes,
    say: E,
) -> Changed<D, E>
    ensures { ChangesImage place.now.sums_up (set_means path.now name.now value.now)
        (set_refuses path.now name.now value.now) (D.state disk) (D.state result.disk) (E.state say)
        (E.state result.say) result.status }
{
    let setting = Setting {
        path: *path,
        name: *name,
        value: Bytes::new(value.as_slice()),
    };
    change_image(place, disk, setting, Reason::Made, say)
}

/// An attribute that is taken away.
#[derive(Clone, Copy, Drop)]
struct Unsetting {
    path: Path,
    name: AttrName,
}

impl Change for Unsetting {
    ghost means = { λ unsetting. unset_means unsetting.path unsetting.name };

    ghost refuses = { λ unsetting. unset_refuses unsetting.path unsetting.name };

    fn make<D: Disk>(self, store: &mut Store<D>) -> Result<Outcome, ApplyFault> {
        unset(store, &self.path, &self.name)
    }
}

/// Takes an attribute of a path of an image away.
pub fn unset_attribute<D: Disk, E: Sink>(
    place: &Place<'_>,
    disk: D,
    path: &Path,
    name: &AttrName,
    say: E,
) -> Changed<D, E>
    ensures { ChangesImage place.now.sums_up (unset_means path.now name.now) (unset_refuses path.now name.now)
        (D.state disk) (D.state result.disk) (E.state say) (E.state result.say) result.status }
{
    let unsetting = Unsetting {
        path: *path,
        name: *name,
    };
    change_image(place, disk, unsetting, Reason::Made, say)
}
