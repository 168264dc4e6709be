//! A file that is shorter than the disk that it is taken for.

ghost use Rattle.std.specs.Prelude.{◌≤◌};
ghost use Rattle.disk_model.specs.FileDisk.{file_state};

use disk_model::{Disk, FileDisk};
use std::fs::{self, File};

/// The name of a file.
const PATH: &str = "disk_model_test.img";

/// Whether a read of bytes 5 to 8 fails.
fn ends_before(mut disk: FileDisk) -> bool
    requires { 9 ≤ (file_state disk).size }
{
    disk.read_at(5, &mut [0; 4]).is_err()
}

// The file has eight bytes, and not nine. The program takes the length from the system, so no call of it comes to this.
#[test]
fn a_part_of_a_read_fails(rt: HostRuntime) {
    fs::write(&rt, PATH, b"abcdefgh").expect(&rt, "a file");
    let file = File::open(&rt, PATH).expect(&rt, "a file");
    assert!(rt; ends_before(FileDisk::new(file, 9)));
    fs::remove_file(&rt, PATH).expect(&rt, "a file");
}
