//! Folders of the host that are made of a listing: links, and what anybody could write into an image. All else is tried
//! by `.ci/box`.

use super::support::Silent;
use host_builder::{Built, build};
use host_files::{HostBuilder, Links, Wanted};
use std::alloc::Alloc;
use std::fs::{self, Files};
use std::process::Abort;
use tests_tools::{NEVER, listing_of};

/// Links to nowhere and out of the folder, one of which may be executed; a file with bytes that says that it is one,
/// and empty files whose targets are none.
static HOSTILE: &[u8] = b"make /d\nset /d link 2f\nwrite /l 0 -\nset /l link 6e6f\n\
    write /o 0 -\nset /o link 2e2e2f2e2e\nset /o mode 78\nset /o mtime 31\n\
    write /p 0 61\nset /p link 6c\nwrite /y 0 -\nset /y link ff\nwrite /z 0 -\nset /z link 6100\n";

/// All that a host can have.
const ALL: Wanted = Wanted {
    mode: true,
    mtime: true,
    links: Links::Made,
    skips: false,
};

/// Whether a listing is made in a folder of that name, and how many calls failed.
fn is_made(rt: &impl Abort, host: HostRuntime, name: &str, listing: &[u8], faults: u64) -> bool {
    let alloc = host.alloc();
    let text = String::from_str(alloc, name).expect(rt, "memory");
    let Ok(builder) = HostBuilder::new(host, text, Silent) else {
        return false;
    };
    let mut stream = listing_of(alloc, listing, 4096, NEVER).expect(rt, "memory");
    let Built {
        builder,
        stays,
        done,
    } = build(alloc, &mut stream, builder, ALL);
    done.is_ok() && stays == 0 && builder.faults() == faults
}

/// Whether a link stands at a path that leads there.
fn leads(rt: &(impl Files + Alloc), path: &str, target: &str) -> bool {
    match fs::read_link(rt, path) {
        Ok(text) => text.as_str() == target,
        Err(_) => false,
    }
}

/// Whether a plain file of so many bytes stands at a path.
fn is_plain(rt: &impl Files, path: &str, len: u64) -> bool {
    match fs::symlink_metadata(rt, path) {
        Ok(found) => found.is_file() && found.len() == len,
        Err(_) => false,
    }
}

/// Looks at what was made of the hostile listing.
fn expect_links(rt: &(impl Abort + Files + Alloc)) {
    assert!(rt; leads(rt, "links_made/l", "no") && leads(rt, "links_made/o", "../.."));
    assert!(rt; fs::symlink_metadata(rt, "links_made/d").is_ok_and(|found| found.is_dir()));
    for (path, len) in [
        ("links_made/p", 1),
        ("links_made/y", 0),
        ("links_made/z", 0),
    ] {
        assert!(rt; is_plain(rt, path, len), "{path}");
    }
}

#[test]
fn links_are_made_as_they_stand(rt: HostRuntime) {
    assert!(rt; is_made(&rt, rt, "links_made", HOSTILE, 0));
    expect_links(&rt);
    assert!(rt; !is_made(&rt, rt, "links_made", HOSTILE, 0));
    assert!(rt; !is_made(&rt, rt, "links_made/l", HOSTILE, 0));
    expect_links(&rt);
    fs::remove_dir_all(&rt, "links_made").expect(&rt, "a folder");
}
