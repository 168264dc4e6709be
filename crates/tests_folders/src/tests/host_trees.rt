//! A dump that is carried out on the host, by a builder in memory: its steps were written by hand.

ghost use Rattle.std.specs.Prelude.{◌≡◌, false};
ghost use Rattle.host_builder.specs.Memory.{memory_state};

use dump_streams::{StreamFault, TakerFault};
use host_builder::{
    BuildFault, Builder, Built, BuiltStep, LeftOut, Links, MemBuilder, Wanted, build,
};
use std::alloc::Global;
use std::process::Abort;
use tests_tools::{NEVER, listing_of, long_listing, path_of};

/// A folder with a time, in it an executable file and a link, and attributes that say nothing of the host.
static TREE: &[u8] = b"make /a\nset /a mode 78\nset /a mtime 31303030\nset /a note 61\n\
    write /a/b 0 6869\nset /a/b mode 78\nset /a/b mtime 30\n\
    write /a/l 0 -\nset /a/l link 2e2e2f63\nset /a/l mtime 35\n\
    make /c\nset /c mtime 3031\n";

/// Names that spell none of the host, and one that does.
static UNNAMED: &[u8] = b"make /!\nwrite /!/%41 0 61\nmake /%\nwrite /%/a 0 -\nmake /z\n";

/// A file below one that would become a link.
static BELOW_A_LINK: &[u8] = b"write /l 0 -\nset /l link 2f\nwrite /l/x 0 61\n";

/// All attributes that a host can have.
const ALL: Wanted = Wanted {
    mode: true,
    mtime: true,
    links: Links::Made,
    skips: false,
};

/// None of them.
const NONE: Wanted = Wanted {
    mode: false,
    mtime: false,
    links: Links::Data,
    skips: false,
};

/// A builder in memory whose calls of these numbers fail.
fn builder_of(rt: &impl Abort, alloc: Global, failing: &[u64]) -> MemBuilder
    ensures { (memory_state result).has_links ≡ false }
{
    MemBuilder::new(alloc, Vec::from_slice(alloc, failing).expect(rt, "memory"))
}

/// Whether the step is what the text says.
fn is_step(step: &BuiltStep, text: &str) -> bool {
    let mut words = text.split(' ');
    let word = words.next().unwrap_or("");
    let wanted = path_of(words.next().unwrap_or(""));
    let rest = words.next().unwrap_or("");
    match step {
        BuiltStep::Folder(path) => word == "folder" && *path == wanted,
        BuiltStep::Bytes(path, at, bytes) => {
            word == "bytes" && *path == wanted && *at == 0 && bytes.as_slice() == rest.as_bytes()
        }
        BuiltStep::Ended(path) => word == "ended" && *path == wanted,
        BuiltStep::Executes(path) => word == "executes" && *path == wanted,
        BuiltStep::Time(path, seconds) => {
            word == "time" && *path == wanted && rest.parse::<u64>() == Ok(*seconds)
        }
        BuiltStep::Link(path, target) => {
            word == "link" && *path == wanted && target.as_slice() == rest.as_bytes()
        }
        BuiltStep::Removed(path) => word == "removed" && *path == wanted,
        BuiltStep::RemovedRoot => word == "removed" && wanted.is_root(),
        BuiltStep::LeftOut(path, LeftOut::NoName) => word == "unnamed" && *path == wanted,
        BuiltStep::LeftOut(path, LeftOut::Link) => word == "unlinked" && *path == wanted,
    }
}

/// Whether just these steps were carried out, which are parted by `#`.
fn are_steps(steps: &[BuiltStep], texts: &str) -> bool {
    let mut count: usize = 0;
    for text in texts.split('#') {
        let Some(step) = steps.get(count) else {
            return false;
        };
        if !is_step(step, text) {
            return false;
        }
        count = count.saturating_add(1);
    }
    count == steps.len()
}

/// What becomes of a listing whose builder fails at these calls.
fn built(
    rt: &impl Abort,
    alloc: Global,
    listing: &[u8],
    failing: &[u64],
    wanted: Wanted,
) -> Built<MemBuilder> {
    let mut stream = listing_of(alloc, listing, 4096, NEVER).expect(rt, "memory");
    build(alloc, &mut stream, builder_of(rt, alloc, failing), wanted)
}

/// Whether the tree is made by just these steps.
fn is_made(rt: &impl Abort, alloc: Global, wanted: Wanted, texts: &str) -> bool {
    let Built {
        builder,
        stays,
        done,
    } = built(rt, alloc, TREE, &[], wanted);
    done.is_ok() && stays == 0 && are_steps(builder.steps(), texts)
}

#[test]
fn a_tree_is_made_with_its_attributes(rt: HostRuntime) {
    let steps =
        "folder /a#bytes /a/b hi#executes /a/b#time /a/b 0#ended /a/b#bytes /a/l #ended /a/l#\
        folder /c#link /a/l ../c#time /a 1000";
    assert!(rt; is_made(&rt, rt.alloc(), ALL, steps));
}

#[test]
fn a_tree_is_made_without_them(rt: HostRuntime) {
    let steps = "folder /a#bytes /a/b hi#ended /a/b#bytes /a/l #ended /a/l#folder /c";
    assert!(rt; is_made(&rt, rt.alloc(), NONE, steps));
}

#[test]
fn links_are_left_out(rt: HostRuntime) {
    let steps = "folder /a#bytes /a/b hi#ended /a/b#bytes /a/l #ended /a/l#folder /c#removed /a/l#\
        unlinked /a/l";
    let wanted = Wanted {
        links: Links::LeftOut,
        ..NONE
    };
    assert!(rt; is_made(&rt, rt.alloc(), wanted, steps));
}

/// Whether the step writes so many bytes from there on.
fn is_piece(steps: &[BuiltStep], number: usize, from: u32, len: usize) -> bool {
    match steps.get(number) {
        Some(BuiltStep::Bytes(_, at, bytes)) => *at == from && bytes.len() == len,
        _ => false,
    }
}

#[test]
fn a_long_file_is_made_piece_by_piece(rt: HostRuntime) {
    let long = long_listing(rt.alloc()).expect(&rt, "memory");
    let Built {
        builder,
        stays: _,
        done,
    } = built(&rt, rt.alloc(), &long, &[], ALL);
    assert!(rt; done.is_ok() && builder.steps().len() == 3);
    assert!(rt; is_piece(builder.steps(), 0, 0, 2048) && is_piece(builder.steps(), 1, 2048, 1));
}

/// Whether the builder is blamed that fails at these calls, and carried out just these steps; so much stays.
fn is_blamed(rt: &impl Abort, alloc: Global, failing: &[u64], count: u64, texts: &str) -> bool {
    let Built {
        builder,
        stays,
        done,
    } = built(rt, alloc, TREE, failing, ALL);
    matches!(&done, Err(BuildFault::Builder(TakerFault::Failed)))
        && stays == count
        && are_steps(builder.steps(), texts)
}

#[test]
fn what_was_made_goes_again(rt: HostRuntime) {
    let alloc = rt.alloc();
    assert!(rt; is_blamed(&rt, alloc, &[0], 0, "removed /"));
    assert!(rt; is_blamed(&rt, alloc, &[1], 0, "folder /a#removed /a#removed /"));
    assert!(rt;
        is_blamed(
            &rt,
            alloc,
            &[2],
            0,
            "folder /a#bytes /a/b hi#removed /a/b#removed /a#removed /"
        )
    );
    let stays = "folder /a#bytes /a/b hi#removed /a#removed /";
    assert!(rt; is_blamed(&rt, alloc, &[2, 3], 1, stays));
    let linked =
        "folder /a#bytes /a/b hi#executes /a/b#time /a/b 0#ended /a/b#bytes /a/l #ended /a/l#\
        folder /c#link /a/l ../c#removed /c#removed /a/l#removed /a/b#removed /a#removed /";
    assert!(rt; is_blamed(&rt, alloc, &[9], 0, linked));
}

#[test]
fn a_name_that_none_can_have_ends_it(rt: HostRuntime) {
    let Built {
        builder,
        stays,
        done,
    } = built(&rt, rt.alloc(), UNNAMED, &[], ALL);
    assert!(rt; matches!(&done, Err(BuildFault::NoName(path)) if *path == path_of("/!/%41")));
    assert!(rt; stays == 0);
    assert!(rt;
        are_steps(
            builder.steps(),
            "folder /!#unnamed /!/%41#removed /!#removed /"
        )
    );
}

#[test]
fn a_name_that_none_can_have_is_skipped(rt: HostRuntime) {
    let wanted = Wanted { skips: true, ..ALL };
    let Built {
        builder,
        stays: _,
        done,
    } = built(&rt, rt.alloc(), UNNAMED, &[], wanted);
    assert!(rt; done.is_ok());
    let steps = "folder /!#unnamed /!/%41#unnamed /%#unnamed /%/a#folder /z";
    assert!(rt; are_steps(builder.steps(), steps));
}

#[test]
fn nothing_is_made_below_a_link(rt: HostRuntime) {
    let Built {
        builder,
        stays,
        done,
    } = built(&rt, rt.alloc(), BELOW_A_LINK, &[], ALL);
    assert!(rt; matches!(&done, Err(BuildFault::Stream(StreamFault::NoDump))) && stays == 0);
    assert!(rt; are_steps(builder.steps(), "bytes /l #removed /l#removed /"));
}
