//! `extract` and `unpack`.

ghost use Rattle.std.specs.Prelude.{◌≡◌, false};
ghost use Rattle.host_builder.specs.Memory.{memory_state};

use super::support::{TREE, image_of, place_in, say_of};
use box_calls::{extract_paths, unpack_listing};
use box_words::{Taken, Times};
use dump_streams::ListingStream;
use host_builder::MemBuilder;
use std::alloc::Global;
use std::process::Abort;
use store_base::Version;
use tests_tools::{NEVER, fields, number, path_of, source_of};

/// All is taken.
const ALL: Taken = Taken {
    skip: false,
    no_mode: false,
    no_links: false,
    times: Times::AsImage,
};

/// A builder in memory of which this call fails.
fn builder_of(rt: &impl Abort, alloc: Global, failing: u64) -> MemBuilder
    ensures { (memory_state result).has_links ≡ false }
{
    MemBuilder::new(
        alloc,
        Vec::from_slice(alloc, &[failing]).expect(rt, "memory"),
    )
}

/// What is extracted: a path, whether links are left out, the call of the builder that fails, the status, and what is
/// said.
static PARTS: &str = "/|no|-|0|hbox: there: made 1 folders, 1 files, 1 links, 2 bytes\n#\
    /d/a.txt|no|-|0|hbox: there: made 1 folders, 1 files, 0 links, 2 bytes\n#\
    /l|yes|-|1|hbox: there: made 0 folders, 0 files, 0 links, 0 bytes; left out 1 entries\n#\
    /e|no|-|17|hbox: x.img: /e: no such file or folder; hbox ls -R x.img lists all that is there\n#\
    /|no|0|18|";

#[test]
fn paths_are_extracted(rt: HostRuntime) {
    let alloc = rt.alloc();
    for row in PARTS.split('#') {
        let [path, no_links, failing, status, said, ..] = fields(row);
        let taken = Taken {
            no_links: no_links == "yes",
            ..ALL
        };
        let disk = image_of(&rt, alloc, 7, TREE);
        let builder = builder_of(&rt, alloc, number(failing));
        let (place, say) = (place_in(alloc, true), say_of(&rt, alloc));
        let came = extract_paths(&place, disk, builder, taken, &[path_of(path)], say);
        assert!(&rt; u64::from(came.status.code()) == number(status), "{row}");
        assert!(&rt; came.say.written() == said.as_bytes(), "{row}");
    }
}

/// The listings that are unpacked: the lines, the take of the source that fails, the status, and what is said.
static LISTINGS: &str = "make /d\nwrite /d/a 0 6869\n|-|0|#\
    make /d\nnonsense\n|-|15|hbox: x.img: line 2 is not part of a listing; hstore IMAGE dump prints a listing\n#\
    make /d\n|0|3|hbox: x.img: it could not be read; give a listing on standard input\n#\
    make /%41\n|-|18|";

#[test]
fn listings_are_unpacked(rt: HostRuntime) {
    let alloc = rt.alloc();
    for row in LISTINGS.split('#') {
        let [lines, failing, status, said, ..] = fields(row);
        let source = source_of(alloc, lines.as_bytes(), &[4096], &[number(failing)]);
        let source = source.expect(&rt, "memory");
        let listing = ListingStream::new(alloc, source, Version::Two);
        let listing = listing.ok().expect(&rt, "memory");
        let (builder, say) = (builder_of(&rt, alloc, NEVER), say_of(&rt, alloc));
        let came = unpack_listing(&place_in(alloc, false), listing, builder, ALL, say);
        assert!(&rt; u64::from(came.status.code()) == number(status), "{row}");
        assert!(&rt; came.say.written() == said.as_bytes(), "{row}");
    }
}
