//! How much of the image commands read.

use super::support::Machine;
use std::process::Abort;

/// How many bytes are read where this script is run on the image.
fn read_by(rt: &impl Abort, machine: &mut Machine, image: &[u8], script: &str) -> u64 {
    machine.load(rt, image);
    machine.call(rt, "run", script);
    machine.ended.fetched
}

/// Looks whether opening an image of so many bytes reads all of it, a digest all of it once more, and four commands at
/// most so many bytes.
fn expect_reads(rt: &impl Abort, machine: &mut Machine, format: &str, len: u64, most: u64) {
    machine.make(rt, format, "");
    let image = machine.copy(rt);
    let opened = read_by(rt, machine, &image, "");
    let digested = read_by(rt, machine, &image, "digest\n");
    assert!(rt; len <= opened && opened <= digested && digested - opened == len);
    let script = "make /a\nmake /b\nrename /a /c\nremove /b\n";
    let ran = read_by(rt, machine, &image, script);
    assert!(rt; machine.written.as_slice() == b"ok\nok\nok\nok\n".as_slice());
    assert!(rt; opened <= ran && ran - opened <= most);
}

#[test]
fn commands_read_a_part_of_the_table(rt: HostRuntime) {
    let mut machine = Machine::new(rt.alloc());
    // A slot that was read is not read again. Of 536,576 bytes the table has 262,144, and a quarter is read at most.
    expect_reads(&rt, &mut machine, "format 1 1 ruler zeros", 20_480, 4_096);
    expect_reads(
        &rt,
        &mut machine,
        "format 64 1 ruler zeros",
        536_576,
        65_536,
    );
}
