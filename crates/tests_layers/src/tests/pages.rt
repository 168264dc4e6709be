//! The pages in memory, over which no other code works.

use super::samples::{key, start_label};
use node_pages::{Cell, MapPages, Page, Pages};
use std::process::Abort;
use store_base::{Fault, Value};

/// Whether the page is found, and no more once it was dropped.
fn is_kept(pages: &mut MapPages, page: &Page) -> Result<bool, Fault> {
    let label = page.label();
    let found = pages.get(&label)?;
    pages.drop_page(&label)?;
    Ok(found == Some(*page) && pages.get(&label)?.is_none())
}

#[test]
fn pages_in_memory(rt: HostRuntime) {
    let cell = Cell::with_value(key(b"b"), Value::new(&[2]));
    let page = Page::new(start_label(0, 1), cell);
    let mut pages = MapPages::new(rt.alloc());
    pages.put(page).expect(&rt, "memory");
    assert!(rt; is_kept(&mut pages, &page) == Ok(true));
}
