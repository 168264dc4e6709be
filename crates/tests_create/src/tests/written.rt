//! An image that is written in one pass, beside that of a store that made the same folders one by one, the last one
//! first.

ghost use Rattle.std.specs.Prelude.{◌≡◌, ◌<◌};
ghost use Rattle.std.specs.List.{list_all};
ghost use Rattle.std.specs.Ordering.{is_lt};
ghost use Rattle.store_model.specs.Paths.{key_cmp};
ghost use Rattle.store_model.specs.Pairs.{IsPairs};

use super::support::formatted;
use disk_model::{Disk, MemDisk};
use image_writer::{WriteFault, write_pairs};
use node_pages::{PairList, reveal_pair};
use path_keys::Path;
use script_lines::Command;
use std::alloc::Global;
use std::process::Abort;
use store_base::{DrawKind, Key, NoMemory, Params, Value, image_len};
use store_core::Store;
use tests_tools::zero_disk;

/// The number of folders. Their keys have 8 pages: on level 0 groups of 11, 11 and 8, which are five pages, on level 1
/// two groups of a page each, and a page on level 2.
const FOLDERS: u8 = 30;

/// The path of the folder of a number. Under `ruler` its key stands on level 1 where 11 divides the number, and on
/// level 2 where 22 does.
fn folder(rt: &impl Abort, number: u8) -> Path
    requires { number < FOLDERS }
{
    let text = [b'/', b'a' + number, b'U', b'U'];
    let raised = usize::from(number % 11 == 0) + usize::from(number % 22 == 0);
    Path::parse(&text[..2 + raised]).expect(rt, "a path")
}

/// The image of 8 slots that a store makes of the folders.
fn stored(rt: &impl Abort, alloc: Global, params: &Params) -> MemDisk {
    let mut store = Store::attach(alloc, formatted(rt, alloc, params))
        .ok()
        .expect(rt, "a store");
    for number in (0..FOLDERS).rev() {
        let made = store.apply(&Command::Make(folder(rt, number)));
        made.expect(rt, "a reply");
    }
    store.into_disk()
}

/// Whether the key stands behind those of all pairs.
fn is_behind(pairs: &PairList, key: &Key) -> bool
    ensures { result ≡ list_all (λ pair. is_lt (key_cmp pair.0 key.now)) pairs.now }
{
    pairs.as_slice().iter().all(|pair| pair.0.cmp(key).is_lt())
}

/// Adds the pair of a folder, and says so. It is not added where its key does not stand behind the others.
fn add(pairs: &mut PairList, key: Key) -> Result<bool, NoMemory>
    requires { IsPairs pairs.old }
    ensures { IsPairs pairs.new }
{
    if !is_behind(pairs, &key) {
        return Ok(false);
    }
    let value = Value::new(&[1]);
    reveal_pair(&key, &value);
    pairs.push((key, value))?;
    Ok(true)
}

/// The pairs of the folders.
fn pairs(rt: &impl Abort, alloc: Global) -> PairList
    ensures { IsPairs result }
{
    let mut pairs = PairList::new(alloc);
    for number in 0..FOLDERS {
        let key = folder(rt, number).key(0);
        assert!(rt; add(&mut pairs, key) == Ok(true));
    }
    pairs
}

/// Writes the image of the folders to a disk of zeros.
fn write(
    rt: &impl Abort,
    alloc: Global,
    params: &Params,
    disk: &mut MemDisk,
) -> Result<(), WriteFault> {
    let pairs = pairs(rt, alloc);
    assert!(rt; disk.len() == image_len(params.slots()) && pairs.len() == 30);
    write_pairs(alloc, disk, params, &pairs)
}

#[test]
fn a_full_table_is_written_as_a_store_does(rt: HostRuntime) {
    let params = Params::new(8, 3, DrawKind::Ruler, [7; 32]).expect(&rt, "parameters");
    let mut disk = zero_disk(rt.alloc(), 77_824).expect(&rt, "memory");
    assert!(&rt; write(&rt, rt.alloc(), &params, &mut disk) == Ok(()));
    // Each block once, and the first byte by itself.
    assert!(&rt; disk.write_count() == 20 && disk.sync_count() == 2);
    let wanted = stored(&rt, rt.alloc(), &params);
    assert!(&rt; disk.bytes() == wanted.bytes());
}

#[test]
fn more_pages_than_slots_are_counted(rt: HostRuntime) {
    let params = Params::new(7, 3, DrawKind::Ruler, [7; 32]).expect(&rt, "parameters");
    let mut disk = zero_disk(rt.alloc(), 69_632).expect(&rt, "memory");
    let fault = write(&rt, rt.alloc(), &params, &mut disk).err();
    assert!(&rt; fault == Some(WriteFault::Full { need: 8, slots: 7 }));
    assert!(&rt; disk.bytes().first() == Some(&0) && disk.sync_count() == 0);
}
