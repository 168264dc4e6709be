//! The bytes of one file of a listing, and a sink that fails.

use dump_streams::{DumpStep, Taker, TakerFault, read_step};
use dump_views::ContentTaker;
use script_lines::MAX_LINE;
use std::process::Abort;
use tests_tools::{path_of, sink_of};

/// A file of three bytes, in two pieces, behind another one.
const DUMP: &str = "write /a 0 7a7a\nwrite /b 0 6162\nset /b mtime 30\nwrite /b 2048 63\n";

/// Has the taker take the steps of these lines; the fault with which it ends, if it does.
fn fault_of<T: Taker>(rt: &impl Abort, taker: &mut T, lines: &str) -> Option<TakerFault> {
    let mut step = DumpStep::new();
    for line in lines.lines() {
        assert!(rt; line.len() <= MAX_LINE, "a line");
        assert!(rt; read_step(line.as_bytes(), &mut step), "a step");
        if let Err(fault) = taker.take(&step) {
            return Some(fault);
        }
    }
    None
}

#[test]
fn a_put_that_fails_is_told(rt: HostRuntime) {
    let sink = sink_of(rt.alloc(), &[1]).expect(&rt, "memory");
    let mut taker = ContentTaker::new(path_of("/b"), sink);
    assert!(rt; fault_of(&rt, &mut taker, DUMP) == Some(TakerFault::Failed));
    assert!(rt; taker.into_sink().written() == b"ab".as_slice());
}
