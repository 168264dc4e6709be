//! `compare`.

use super::support::{TREE, folder_of, image_of, out_of, packed_of, place_in, say_of};
use box_calls::{MarkForm, PackFault, compare_with_folder, compare_with_image, unpacked};
use box_words::Spelling;
use tests_tools::{NEVER, fields, number};

/// Lines as they stand.
const FORM: MarkForm = MarkForm {
    is_zero: false,
    is_visible: false,
    spelling: Spelling::Host,
};

/// The second images: the seed, commands behind those of the tree, the status, the lines, and what is said.
static IMAGES: &str = "7||0||#7|write /z 0 61\nwrite /d/a.txt 0 62|1|M /d/a.txt\nA /z\n|#\
    7|remove /l|1|D /l\n|#\
    8||0||hbox: x.img: there: the images differ in seed; hbox info prints what each has\n";

#[test]
fn images_are_compared(rt: HostRuntime) {
    let alloc = rt.alloc();
    for row in IMAGES.split('#') {
        let [seed, script, status, lines, said, ..] = fields(row);
        let script = format!(in alloc; "{TREE}\n{script}").expect(&rt, "memory");
        let first = image_of(&rt, alloc, 7, TREE);
        let second = image_of(&rt, alloc, seed.parse::<u8>().unwrap_or(0), script.as_str());
        let (sink, say) = (out_of(&rt, alloc, NEVER), say_of(&rt, alloc));
        let came = compare_with_image(&place_in(alloc, false), FORM, (first, second), sink, say);
        assert!(&rt; u64::from(came.status.code()) == number(status), "{row}");
        assert!(&rt; came.out.into_sink().written() == lines.as_bytes(), "{row}");
        assert!(&rt; came.say.written() == said.as_bytes(), "{row}");
    }
}

/// The folders: the bytes of the file, how many obstacles were met, whether they are skipped, the status, the lines,
/// and what is said.
static FOLDERS: &str = "hi|0|no|0||#ho|0|no|1|M /d/a.txt\n|#hi|1|yes|1||#\
    hi|1|no|18||hbox: there: 1 entries cannot be in an image; --skip leaves them out\n";

#[test]
fn folders_are_compared(rt: HostRuntime) {
    let alloc = rt.alloc();
    for row in FOLDERS.split('#') {
        let [bytes, obstacles, skip, status, lines, said, ..] = fields(row);
        let folder = folder_of(&rt, alloc, bytes, NEVER);
        let packed = packed_of(&rt, alloc, folder, number(obstacles), skip == "yes");
        let disk = image_of(&rt, alloc, 7, TREE);
        let (sink, say) = (out_of(&rt, alloc, NEVER), say_of(&rt, alloc));
        let came = compare_with_folder(&place_in(alloc, false), FORM, disk, packed, sink, say);
        assert!(&rt; u64::from(came.status.code()) == number(status), "{row}");
        assert!(&rt; came.out.into_sink().written() == lines.as_bytes(), "{row}");
        assert!(&rt; came.say.written() == said.as_bytes(), "{row}");
    }
}

#[test]
fn a_folder_that_is_not_compared_is_told(rt: HostRuntime) {
    let alloc = rt.alloc();
    let mut say = say_of(&rt, alloc);
    let place = place_in(alloc, false);
    assert!(&rt; unpacked(&place, PackFault::Unreadable, &mut say).code() == 18);
    assert!(&rt; say.written().is_empty());
    assert!(&rt; unpacked(&place, PackFault::Obstacles(3), &mut say).code() == 18);
    let said = b"hbox: there: 3 entries cannot be in an image; --skip leaves them out\n";
    assert!(&rt; say.written() == said.as_slice());
}
