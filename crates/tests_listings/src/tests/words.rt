//! What the words of `hbox` ask for, by rows that were written by hand.

use box_words::{Asked, Call, Common, Seed, Shape, Taken, Times, WordsFault, read};
use std::alloc::Global;
use std::process::Abort;
use store_model::DrawKind;

/// The words of a line, which are parted by spaces.
pub fn words_of(rt: &impl Abort, alloc: Global, line: &str) -> Vec<String> {
    let mut words = Vec::new(alloc);
    for word in line.split(' ') {
        let word = String::from_str(alloc, word).expect(rt, "memory");
        words.push(word).expect(rt, "memory");
    }
    words
}

/// How a folder is read where no option says it.
const PLAIN_TAKEN: Taken = Taken {
    skip: false,
    no_mode: false,
    no_links: false,
    times: Times::AsImage,
};

/// The options of each subcommand, where none is given.
const PLAIN_COMMON: Common = Common {
    escaped: false,
    quiet: false,
    verbose: false,
    wait: None,
};

/// The shape of an image with this seed, where nothing else is said.
fn plain_shape(seed: Seed) -> Shape {
    Shape {
        slots: None,
        height: 4,
        draw: DrawKind::Sha256,
        seed,
    }
}

/// Looks whether a line asks for an image of this shape, in `x.img`.
fn expect_shape(rt: &impl Abort, alloc: Global, line: &str, wanted: Shape) {
    let words = words_of(rt, alloc, line);
    match read(alloc, words.as_slice()) {
        Ok(Asked::Call(Call::Create { image, shape, .. }, _)) => {
            assert!(rt; image == "x.img", "{line}");
            assert!(rt; shape == wanted, "{line}");
        }
        _ => panic!(rt; "no image is asked for: {line}"),
    }
}

#[test]
fn what_is_not_said_is_plain(rt: HostRuntime) {
    let words = words_of(&rt, rt.alloc(), "create x.img d");
    let asked = read(rt.alloc(), words.as_slice()).ok();
    let Some(
        Asked::Call(
            Call::Create {
                dir,
                is_dry,
                taken,
                shape,
                ..
            },
            common,
        ),
    ) = asked
    else {
        panic!(rt; "no image is asked for");
    };
    assert!(rt; dir == Some("d"));
    assert!(rt; !is_dry);
    assert!(rt; taken == PLAIN_TAKEN);
    assert!(rt; shape == plain_shape(Seed::Given([0; 32])));
    assert!(rt; common == PLAIN_COMMON);
}

#[test]
fn all_options_are_read(rt: HostRuntime) {
    let line =
        "create --skip --slots 65536 --no-mode x.img --dry-run --draw ruler --empty --no-links --height 8 \
        --mtime --seed random -q --wait=3";
    let words = words_of(&rt, rt.alloc(), line);
    let asked = read(rt.alloc(), words.as_slice()).ok();
    let Some(
        Asked::Call(
            Call::Create {
                image,
                dir,
                is_dry,
                taken,
                shape,
            },
            common,
        ),
    ) = asked
    else {
        panic!(rt; "no image is asked for");
    };
    assert!(rt; image == "x.img");
    assert!(rt; dir == None);
    assert!(rt; is_dry);
    let all = Taken {
        skip: true,
        no_mode: true,
        no_links: true,
        times: Times::Kept,
    };
    assert!(rt; taken == all);
    let wanted = Shape {
        slots: Some(65536),
        height: 8,
        draw: DrawKind::Ruler,
        seed: Seed::Random,
    };
    assert!(rt; shape == wanted);
    assert!(rt; common.quiet && common.wait == Some(3));
}

#[test]
fn seeds_are_digits_or_come_from_elsewhere(rt: HostRuntime) {
    let alloc = rt.alloc();
    let mut seed = [0; 32];
    seed[0] = 0xab;
    seed[31] = 0xcd;
    let wanted = plain_shape(Seed::Given(seed));
    let line =
        "create x.img d --seed aB000000000000000000000000000000000000000000000000000000000000Cd";
    expect_shape(&rt, alloc, line, wanted);
    let wanted = plain_shape(Seed::Input);
    expect_shape(&rt, alloc, "create --seed - x.img d", wanted);
    let mut wanted = plain_shape(Seed::Given([0; 32]));
    wanted.slots = Some(1);
    wanted.height = 1;
    expect_shape(
        &rt,
        alloc,
        "create x.img --slots=1 --height 1 --no-mtime -- --d",
        wanted,
    );
}

/// Rows parted by `#`: words that ask for nothing, and what is wrong with them.
const REFUSED: &str = "create x.img|neither DIR nor --empty is given#\
    create x.img d --empty|DIR 'd' is given beside --empty#\
    create --slots 0 x.img d|--slots '0' is not a number from 1 to 65536#\
    create --slots 65537 x.img d|--slots '65537' is not a number from 1 to 65536#\
    create --slots 4294967297 x.img d|--slots '4294967297' is not a number from 1 to 65536#\
    create --slots +1 x.img d|--slots '+1' is not a number from 1 to 65536#\
    create --height 0 x.img d|--height '0' is not a number from 1 to 8#\
    create --height 257 x.img --empty|--height '257' is not a number from 1 to 8#\
    create --draw Ruler x.img d|--draw 'Ruler' is neither ruler nor sha256#\
    create --seed 00 x.img d|--seed '00' is not 64 hexadecimal digits, `random` or `-`#\
    create --seed Random x.img d|--seed 'Random' is not 64 hexadecimal digits, `random` or `-`#\
    check x.img --digest 0|--digest '0' is not 64 hexadecimal digits#\
    rm x.img -r|neither PATH nor --paths0-from is given#\
    get x.img|neither PATH nor --paths0-from is given#\
    get x.img a b --paths0-from l|PATH 'a' is given beside --paths0-from#\
    attr x.img a --hex|--hex is given without NAME#\
    attr x.img a -d b --hex|--hex is given without NAME#\
    attr x.img a b -d c|NAME 'b' is given beside -d#\
    attr x.img a b/c d|no attribute can have the name 'b/c'#\
    attr x.img a b 000 --hex|no attribute can have the value '000'";

/// Looks whether the words of a row are refused with its text.
fn expect_refused(rt: &impl Abort, alloc: Global, row: &str) {
    let (line, text) = row.split_once('|').expect(rt, "two fields");
    let words = words_of(rt, alloc, line);
    match read(alloc, words.as_slice()) {
        Err(WordsFault::Words { wrong, .. }) => assert!(rt; wrong.as_str() == text, "{row}"),
        _ => panic!(rt; "words are taken: {row}"),
    }
}

#[test]
fn what_is_wrong_is_said(rt: HostRuntime) {
    for row in REFUSED.split('#') {
        expect_refused(&rt, rt.alloc(), row);
    }
}

#[test]
fn a_folder_is_packed_as_it_is_stored(rt: HostRuntime) {
    let words = words_of(&rt, rt.alloc(), "pack --no-links d --mtime");
    let asked = read(rt.alloc(), words.as_slice()).ok();
    let Some(Asked::Call(Call::Pack { dir, taken }, _)) = asked else {
        panic!(rt; "no listing is asked for");
    };
    assert!(rt; dir == "d");
    let wanted = Taken {
        skip: false,
        no_mode: false,
        no_links: true,
        times: Times::Kept,
    };
    assert!(rt; taken == wanted);
}
