use crate::told::design_of;
use lid_check_names::{NameSet, find_twice};
use lid_check_table::Table;
use lid_design::Design;
use std::alloc::{AllocError, Global};
use std::test::Fail;

/// Whether a set is that of b, a and c, in this order.
fn is_kept(set: &NameSet<'_>) -> bool {
    set.len() == 3
        && set.name_at(0) == Some("b".as_bytes())
        && set.place_of(b"c") == Some(2)
        && set.place_of(b"d").is_none()
        && set.has(b"a")
        && !set.has(b"")
}

#[test]
fn each_name_is_kept_where_it_first_came(rt: HostRuntime) -> Result<(), Fail> {
    let names: [&[u8]; 5] = [b"b", b"a", b"b", b"c", b"a"];
    let set = NameSet::collect(rt.alloc(), &names)?;
    assert!(rt; is_kept(&set));
    Ok(())
}

/// Whether a set is that of a and b.
fn is_pair(set: &NameSet<'_>) -> bool {
    set.len() == 2 && set.has(b"a") && set.has(b"b") && !set.has(b"c")
}

#[test]
fn names_that_come_again_are_found(rt: HostRuntime) -> Result<(), Fail> {
    let names: [&[u8]; 6] = [b"b", b"a", b"b", b"c", b"a", b"b"];
    let twice = find_twice(rt.alloc(), &names)?;
    assert!(rt; is_pair(&twice));
    Ok(())
}

/// What a text begins with, from nothing on, but not the whole text.
fn beginnings(alloc: Global, text: &[u8]) -> Result<Vec<&[u8]>, AllocError> {
    let mut names = Vec::new(alloc);
    for count in 0..text.len() {
        names.push(&text[..count])?;
    }
    Ok(names)
}

/// Whether a set has what a text begins with, each beginning at the place of its length, and not the whole text.
fn has_beginnings(set: &NameSet<'_>, text: &[u8]) -> bool {
    for count in 0..text.len() {
        if set.place_of(&text[..count]) != Some(count) {
            return false;
        }
    }
    set.len() == text.len() && !set.has(text)
}

/// So many names hash by a number of their own.
#[test]
fn of_many_names_each_is_kept_where_it_first_came(rt: HostRuntime) -> Result<(), Fail> {
    let text = Vec::from_elem(rt.alloc(), b'a', 300)?;
    let names = beginnings(rt.alloc(), text.as_slice())?;
    let set = NameSet::collect(rt.alloc(), names.as_slice())?;
    assert!(rt; has_beginnings(&set, text.as_slice()));
    Ok(())
}

/// `a` comes four times, and `n` is read before it is driven.
const NUMBERED: &str = ".model m\n.inputs a b a\n.outputs y\n.clock c\n.names a n y\n11 1\n\
.latch b n re c 0\n.subckt s p=n q=a r=z\n.end\n";

/// Whether a table has the names `a`, `b`, `y`, `c`, `n` and `z`, in this order, and their numbers.
fn is_numbered(table: &Table<'_>) -> bool {
    table.len() == 6
        && table.name_at(4) == Some("n".as_bytes())
        && table.number_of(b"z") == Some(5)
        && table.number_of(b"p").is_none()
        && table.inputs() == [0, 1, 0].as_slice()
        && table.outputs() == [2].as_slice()
        && table.clocks() == [3].as_slice()
        && table.reads() == [0, 4, 1].as_slice()
        && table.outs() == [2, 4].as_slice()
        && table.actuals() == [4, 0, 5].as_slice()
}

/// Whether the names of the first model of a design are numbered so.
fn has_numbers(alloc: Global, design: &Design) -> Result<bool, AllocError> {
    match design.models.as_slice().first() {
        Some(model) => Ok(is_numbered(&Table::collect(alloc, model)?)),
        None => Ok(false),
    }
}

#[test]
fn each_place_has_the_number_of_its_name(rt: HostRuntime) -> Result<(), Fail> {
    let design = design_of(&rt, rt.alloc(), NUMBERED);
    let numbered = has_numbers(rt.alloc(), &design)?;
    assert!(rt; numbered);
    Ok(())
}
