//! `create` and `pack`.

ghost use Rattle.std.specs.Prelude.{◌≡◌};
ghost use Rattle.store_model.specs.declared.version.Version.TheVariants.{Two};

use super::support::{folder_of, out_of, packed_of, place_in, say_of};
use box_calls::{
    Holds, Packed, Planned, create_empty_image, create_image, pack_listing, plan_image, print_plan,
    stored_of, sum_up_stored, unplanned,
};
use box_words::{Taken, Times};
use disk_model::{Disk, FailingDisk, MemDisk};
use host_folders::{Found, FoundKind, MemFolder};
use std::alloc::Global;
use std::process::Abort;
use store_base::{DrawKind, Params, image_len};
use store_model::Version;
use tests_tools::{NEVER, disk_of, fields, number, path_of};

/// The parameters of an image of so many slots. No key of the tree has a level above 0, so it is one page.
fn params_of(rt: &impl Abort, slots: u32) -> Params
    ensures { result.version ≡ Two }
{
    let params = Params::new(slots, 2, DrawKind::Ruler, [7; 32]).expect(rt, "parameters");
    params.with_version(Version::Two)
}

/// What image is made of what was found, where its slots are chosen.
fn plan_of(rt: &impl Abort, alloc: Global, found: &[Found]) -> Planned
    ensures version { result.plan.params.version ≡ Two }
    ensures levels { result.plan.levels ≡ result.plan.params }
{
    let planned = plan_image(alloc, &params_of(rt, 1), true, found);
    planned.ok().expect(rt, "a plan")
}

/// A disk of zeros for the planned image, of which this call fails.
fn disk_for(
    rt: &impl Abort,
    alloc: Global,
    planned: &Planned,
    failing: u64,
) -> FailingDisk<MemDisk> {
    let len = image_len(planned.plan.params.slots());
    let zeros = vec![in alloc; 0; len as usize].expect(rt, "memory");
    disk_of(alloc, &zeros, &[failing], None).expect(rt, "memory")
}

/// What the planned image will hold, of a folder of which so much is left out.
fn holds_of(planned: &Planned, left_out: u64) -> Holds {
    Holds {
        contents: planned.contents,
        links: planned.links,
        left_out,
    }
}

/// The images that are made: how many obstacles were met, whether they are skipped, how many bytes the file is told to
/// have, the call of the folder and that of the disk that fail, the status, and what is said.
static IMAGES: &str = "\
    0|no|2|-|-|0|hbox: x.img: made of 1 folders, 1 files, 1 links, 2 bytes, in 1 of 64 slots\n#\
    1|yes|2|-|-|1|hbox: x.img: made of 1 folders, 1 files, 1 links, 2 bytes, in 1 of 64 slots; left out 1 entries\n#\
    1|no|2|-|-|18|hbox: there: 1 entries cannot be in an image; --skip leaves them out\n#\
    0|no|3|-|-|18|hbox: there: /d/a.txt: it changed while it was read; try again while nobody changes the folder\n#\
    0|no|2|3|-|18|#\
    0|no|2|-|7|5|hbox: x.img: it could not be written; make room on its disk, and try again\n";

/// Looks how the making of an image ends.
fn expect_image(rt: &impl Abort, alloc: Global, row: &str, packed: Packed<MemFolder>) {
    let [_, _, _, _, failing, status, said, ..] = fields(row);
    let planned = plan_of(rt, alloc, &packed.found);
    let holds = holds_of(&planned, packed.left_out);
    let disk = disk_for(rt, alloc, &planned, number(failing));
    assert!(rt; disk.len() == image_len(planned.plan.params.slots()));
    let (place, say) = (place_in(alloc, true), say_of(rt, alloc));
    let mut came = create_image(&place, disk, packed, planned, say);
    sum_up_stored(&place, came.status, &holds, &mut came.say);
    assert!(rt; u64::from(came.status.code()) == number(status), "{row}");
    assert!(rt; came.say.written() == said.as_bytes(), "{row}");
    let disk = came.disk.into_disk();
    let is_image = disk.bytes().starts_with(b"HSTORE01");
    assert!(rt; is_image == (number(status) <= 1), "{row}");
}

#[test]
fn a_folder_is_stored(rt: HostRuntime) {
    let alloc = rt.alloc();
    for row in IMAGES.split('#') {
        let [obstacles, skip, told, failing, ..] = fields(row);
        let mut folder = folder_of(&rt, alloc, "hi", number(failing));
        folder.tell(told.parse::<u32>().unwrap_or(0));
        let packed = packed_of(&rt, alloc, folder, number(obstacles), skip == "yes");
        expect_image(&rt, alloc, row, packed);
    }
}

#[test]
fn an_empty_tree_is_stored(rt: HostRuntime) {
    let alloc = rt.alloc();
    let planned = plan_of(&rt, alloc, &[]);
    let disk = disk_for(&rt, alloc, &planned, NEVER);
    assert!(&rt; disk.len() == image_len(planned.plan.params.slots()));
    let (place, say) = (place_in(alloc, true), say_of(&rt, alloc));
    let holds = holds_of(&planned, 0);
    let mut came = create_empty_image(&place, disk, planned, say);
    sum_up_stored(&place, came.status, &holds, &mut came.say);
    let said = b"hbox: x.img: made of 0 folders, 0 files, 0 links, 0 bytes, in 0 of 64 slots\n";
    assert!(&rt; came.status.code() == 0 && came.say.written() == said.as_slice());
    let disk = came.disk.into_disk();
    assert!(&rt; disk.bytes().starts_with(b"HSTORE01"));
}

/// What `info` would print of the image of the folder.
static INFO: &[u8] = b"version: 2\nslots: 64\nused: 1\nheight: 2\ndraw: ruler\nseed: \
    0707070707070707070707070707070707070707070707070707070707070707\n\
    folders: 1\nfiles: 2\nbytes: 2\n";

#[test]
fn an_image_is_told_beforehand(rt: HostRuntime) {
    let alloc = rt.alloc();
    let folder = folder_of(&rt, alloc, "hi", NEVER);
    let packed = packed_of(&rt, alloc, folder, 0, false);
    let planned = plan_of(&rt, alloc, &packed.found);
    let (sink, say) = (out_of(&rt, alloc, NEVER), say_of(&rt, alloc));
    let came = print_plan(&place_in(alloc, false), &planned.contents, 1, sink, say);
    assert!(&rt; came.status.code() == 1 && came.say.written().is_empty());
    assert!(&rt; came.out.into_sink().written() == INFO);
}

#[test]
fn an_image_that_is_too_small_is_told(rt: HostRuntime) {
    let alloc = rt.alloc();
    let mut all = Vec::new(alloc);
    // A page has ten keys.
    for path in "/a /b /c /d /e /f /g /h /i /j /k".split_whitespace() {
        let found = Found {
            path: path_of(path),
            kind: FoundKind::Folder,
            is_executable: false,
            seconds: None,
        };
        all.push(found).expect(&rt, "memory");
    }
    let fault = plan_image(alloc, &params_of(&rt, 1), false, &all)
        .err()
        .expect(&rt, "a fault");
    let mut say = say_of(&rt, alloc);
    assert!(&rt; unplanned(&place_in(alloc, false), fault, &mut say).code() == 16);
    let said = b"hbox: x.img: needs 2 slots, has 1; give --slots 2 or more, or leave --slots out\n";
    assert!(&rt; say.written() == said.as_slice());
}

/// The listings of the folder: how many obstacles were met, the call of the folder that fails, and that of the sink,
/// the status, the lines, and what is said.
static LISTINGS: &str = "\
    0|-|-|0|make /d\nwrite /d/a.txt 0 6869\nwrite /l 0 -\nset /l link 642f612e747874\n|#\
    1|-|-|18|broken off\n|hbox: there: 1 entries cannot be in an image; --skip leaves them out\n#\
    0|2|-|18|make /d\nbroken off\n|#\
    0|-|0|4||hbox: standard output: it could not be written, so what was printed is a part; \
        look whether the disk is full, or the reader has ended\n";

#[test]
fn folders_are_listed(rt: HostRuntime) {
    let alloc = rt.alloc();
    for row in LISTINGS.split('#') {
        let [obstacles, call, put, status, lines, said, ..] = fields(row);
        let folder = folder_of(&rt, alloc, "hi", number(call));
        let packed = packed_of(&rt, alloc, folder, number(obstacles), false);
        let (sink, say) = (out_of(&rt, alloc, number(put)), say_of(&rt, alloc));
        let came = pack_listing(&place_in(alloc, false), packed, sink, say);
        assert!(&rt; u64::from(came.status.code()) == number(status), "{row}");
        assert!(&rt; came.out.into_sink().written() == lines.as_bytes(), "{row}");
        assert!(&rt; came.say.written() == said.as_bytes(), "{row}");
    }
}

#[test]
fn times_are_stored_where_they_are_asked_for(rt: HostRuntime) {
    for (times, wanted) in [
        (Times::AsImage, false),
        (Times::Kept, true),
        (Times::LeftOut, false),
    ] {
        let taken = Taken {
            skip: false,
            no_mode: true,
            no_links: false,
            times,
        };
        let stored = stored_of(taken);
        assert!(&rt; stored.mtime == wanted && !stored.mode);
    }
}
