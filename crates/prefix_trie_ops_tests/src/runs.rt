//! The examples, run on small tables.
use crate::examples::overlap::shared;
use crate::examples::preference::preferring;
use crate::examples::reduction::reduce;
use crate::examples::selection::at_least;
use crate::examples::updates::updates;
use prefix_trie::{Ipv4Prefix, Prefix, PrefixMap, PrefixSet, Refusal};
use prefix_trie_ops::map::covering_union;
use std::alloc::Global;

type Table = PrefixMap<(u32, u8), u32, Global>;

/// Returns the table of these routes.
fn table(routes: &[((u32, u8), u32)], alloc: Global) -> Result<Table, Refusal> {
    let mut table = PrefixMap::new(alloc)?;
    for (route, hop) in routes {
        let route = *route;
        if route.fits() {
            table.insert(route, *hop)?;
        }
    }
    Ok(table)
}

static FIRST: [((u32, u8), u32); 3] = [
    ((0x0a00_0000, 8), 1),
    ((0x0a01_0000, 16), 2),
    ((0x0a02_0000, 16), 3),
];

static SECOND: [((u32, u8), u32); 3] = [
    ((0x0a00_0000, 8), 1),
    ((0x0a01_0000, 16), 4),
    ((0x0b00_0000, 8), 5),
];

/// Returns whether the first table becomes the second one by a change, a withdrawal and an announcement.
fn are_updated(alloc: Global) -> Result<bool, Refusal> {
    let (old, new) = (table(&FIRST, alloc)?, table(&SECOND, alloc)?);
    match updates(&old, &new, alloc) {
        Ok(messages) => Ok(
            messages.as_slice()
                == [
                    ((0x0a01_0000, 16), Some(4)),
                    ((0x0a02_0000, 16), None),
                    ((0x0b00_0000, 8), Some(5)),
                ]
                .as_slice(),
        ),
        Err(_) => Err(Refusal::Memory),
    }
}

/// Returns whether a table has the routes of both tables, and prefers those of the first one.
fn prefers_first(both: &Table) -> bool {
    (both.len() == 4)
        & (both.get(&(0x0a01_0000, 16)) == Some(&2))
        & (both.get(&(0x0b00_0000, 8)) == Some(&5))
}

/// Returns whether the first table's routes are preferred, and the second table's are there too.
fn are_preferred(alloc: Global) -> Result<bool, Refusal> {
    let (first, second) = (table(&FIRST, alloc)?, table(&SECOND, alloc)?);
    Ok(prefers_first(&preferring(&first, &second, alloc)?))
}

/// Returns whether a network within another one is left out.
fn is_reduced(alloc: Global) -> Result<bool, Refusal> {
    let mut list = PrefixSet::new(alloc)?;
    list.insert(Ipv4Prefix::new(0x0a00_0000, 8).unwrap())?;
    list.insert(Ipv4Prefix::new(0x0a01_0000, 16).unwrap())?;
    list.insert(Ipv4Prefix::new(0x0b00_0000, 8).unwrap())?;
    let is_done = reduce(&mut list, alloc).is_ok();
    Ok(
        is_done
            & (list.len() == 2)
            & !list.contains(&Ipv4Prefix::new(0x0a01_0000, 16).unwrap())
            & list.is_covered(&Ipv4Prefix::new(0x0a01_0000, 16).unwrap()),
    )
}

/// Returns whether two networks are shared, and two of the first table are longer than 8 bits.
fn are_counted(alloc: Global) -> Result<bool, Refusal> {
    let (first, second) = (table(&FIRST, alloc)?, table(&SECOND, alloc)?);
    let long: Vec<_> = at_least(&first, 9).collect(alloc)?;
    Ok((shared(&first, &second) == 2) & (long.len() == 2))
}

/// Returns whether a network of one table comes with its longest match in the other, if there is one.
fn have_matches(alloc: Global) -> Result<bool, Refusal> {
    let (first, second) = (table(&FIRST, alloc)?, table(&SECOND, alloc)?);
    let mut walk = covering_union(&first, &second);
    walk.next();
    walk.next();
    let of_first = Some(((0x0a02_0000, 16), &3));
    let around = Some(((0x0a00_0000, 8), &1));
    let of_second = Some(((0x0b00_0000, 8), &5));
    Ok(
        (walk.next() == Some(((0x0a02_0000, 16), of_first, around)))
            & (walk.next() == Some(((0x0b00_0000, 8), None, of_second)))
            & walk.next().is_none(),
    )
}

#[test]
fn examples_run(rt: HostRuntime) {
    let alloc = rt.alloc();
    assert!(rt; are_updated(alloc) == Ok(true));
    assert!(rt; are_preferred(alloc) == Ok(true));
    assert!(rt; is_reduced(alloc) == Ok(true));
    assert!(rt; are_counted(alloc) == Ok(true));
    assert!(rt; have_matches(alloc) == Ok(true));
}
