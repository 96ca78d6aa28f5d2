// Ranges at their edges, and edits of a small table.
use crate::cuttable::Cuttable;
use crate::tagged::{Retag, Tagged};
use ranges::{Element, Range, Refused, Table, change, covers, cut, find, insert, remove};
use std::test::Fail;

fn numbers(r: Option<Range>) -> Option<(u16, u16, u16)> {
    r.map(|x| (x.first(), x.pages(), x.end()))
}

#[test]
fn edges(rt: HostRuntime) {
    assert_eq!(rt; numbers(Range::new(4095, 1)), Some((4095, 1, 4096)));
    assert_eq!(rt; numbers(Range::new(4095, 2)), None);
    assert_eq!(rt; numbers(Range::new(0, 0)), None);
    assert_eq!(rt; numbers(Range::new(0, 4096)), Some((0, 4096, 4096)));
    assert_eq!(rt; numbers(Range::new(1, 4096)), None);
    assert_eq!(rt; numbers(Range::new(65535, 65535)), None);
}

#[test]
fn fills(rt: HostRuntime) -> Result<(), Fail> {
    let mut rows = [Tagged::new(0, 0, 0); 2];
    let n = insert(&mut rows, 0, Tagged::new(10, 5, 1)).ok_or("no room")?;
    assert_eq!(rt; n, 1);
    let n = insert(&mut rows, n, Tagged::new(2, 8, 2)).ok_or("no room")?;
    assert_eq!(rt; n, 2);
    assert_eq!(rt; rows[0].tag, 2);
    assert_eq!(rt; rows[1].tag, 1);
    assert_eq!(rt; insert(&mut rows, n, Tagged::new(100, 1, 3)), None);
    assert_eq!(rt; rows[0].tag, 2);
    Ok(())
}

#[test]
fn neighbours(rt: HostRuntime) -> Result<(), Fail> {
    let mut rows = [Tagged::new(0, 0, 0); 4];
    let n = insert(&mut rows, 0, Tagged::new(10, 5, 1)).ok_or("no room")?;
    assert!(rt; insert(&mut rows, n, Tagged::new(14, 1, 2)).is_none());
    assert_eq!(rt; insert(&mut rows, n, Tagged::new(15, 1, 2)), Some(2));
    Ok(())
}

#[test]
fn cuts(rt: HostRuntime) -> Result<(), Fail> {
    let mut rows = [Tagged::new(0, 0, 0); 2];
    let n = insert(&mut rows, 0, Tagged::new(10, 5, 1)).ok_or("no room")?;
    let n = cut(&mut rows, n, 10).ok_or("no room")?;
    assert_eq!(rt; n, 1);
    let n = cut(&mut rows, n, 12).ok_or("no room")?;
    assert_eq!(rt; n, 2);
    assert_eq!(rt; (rows[0].first, rows[0].pages), (10, 2));
    assert_eq!(rt; (rows[1].first, rows[1].pages), (12, 3));
    assert_eq!(rt; cut(&mut rows, n, 11), None);
    assert_eq!(rt; (rows[0].first, rows[0].pages), (10, 2));
    Ok(())
}

#[test]
fn removes(rt: HostRuntime) -> Result<(), Fail> {
    let mut rows = [Tagged::new(0, 0, 0); 1];
    let n = insert(&mut rows, 0, Tagged::new(10, 5, 1)).ok_or("no room")?;
    let middle = Range::new(12, 1).ok_or("no range")?;
    let last = Range::new(14, 100).ok_or("no range")?;
    assert_eq!(rt; remove(&mut rows, n, middle), None);
    assert_eq!(rt; (rows[0].first, rows[0].pages), (10, 5));
    assert_eq!(rt; remove(&mut rows, n, last), Some(1));
    assert_eq!(rt; (rows[0].first, rows[0].pages), (10, 4));
    Ok(())
}

#[test]
fn divides(rt: HostRuntime) -> Result<(), Fail> {
    let mut rows = [Tagged::new(0, 0, 0); 2];
    let n = insert(&mut rows, 0, Tagged::new(10, 5, 1)).ok_or("no room")?;
    let middle = Range::new(12, 1).ok_or("no range")?;
    assert_eq!(rt; remove(&mut rows, n, middle), Some(2));
    assert_eq!(rt; (rows[0].first, rows[0].pages), (10, 2));
    assert_eq!(rt; (rows[1].first, rows[1].pages), (13, 2));
    Ok(())
}

#[test]
fn changes(rt: HostRuntime) -> Result<(), Fail> {
    let mut rows = [Tagged::new(0, 0, 0); 3];
    let n = insert(&mut rows, 0, Tagged::new(10, 5, 1)).ok_or("no room")?;
    let middle = Range::new(12, 1).ok_or("no range")?;
    let n = change(&mut rows, n, middle, &Retag { tag: 7 }).ok_or("no room")?;
    assert_eq!(rt; n, 3);
    assert_eq!(rt; (rows[0].tag, rows[1].tag, rows[2].tag), (1, 7, 1));
    assert_eq!(rt; (rows[1].first, rows[1].pages), (12, 1));
    Ok(())
}

#[test]
fn finds(rt: HostRuntime) -> Result<(), Fail> {
    let mut rows = [Tagged::new(0, 0, 0); 1];
    let n = insert(&mut rows, 0, Tagged::new(10, 5, 1)).ok_or("no room")?;
    assert_eq!(rt; n, 1);
    assert!(rt; find(&rows[0..n], 15).is_none());
    assert!(rt; find(&rows[0..n], 14).is_some());
    let inside = Range::new(11, 4).ok_or("no range")?;
    let past = Range::new(11, 5).ok_or("no range")?;
    assert!(rt; covers(&rows[0..n], inside));
    assert!(rt; !covers(&rows[0..n], past));
    Ok(())
}

#[test]
fn tables(rt: HostRuntime) -> Result<(), Fail> {
    let mut table = Table::<Tagged, 3>::new(Tagged::new(0, 0, 0));
    let middle = Range::new(12, 1).ok_or("no range")?;
    let all = Range::new(0, 4096).ok_or("no range")?;
    assert_eq!(rt; table.len(), 0);
    assert_eq!(rt; table.insert(Tagged::new(10, 5, 1)), Ok(()));
    assert_eq!(rt; table.insert(Tagged::new(14, 1, 2)), Err(Refused));
    assert!(rt; table.meets(&Tagged::new(14, 1, 2)));
    assert_eq!(rt; table.change(middle, &Retag { tag: 7 }), Ok(()));
    assert_eq!(rt; table.len(), 3);
    assert_eq!(rt; table.find(12), Some(Tagged::new(12, 1, 7)));
    assert_eq!(rt; table.insert(Tagged::new(100, 1, 3)), Err(Refused));
    assert_eq!(rt; table.remove(middle), Ok(()));
    assert_eq!(rt; table.find(12), None);
    assert!(rt; !table.covers(middle));
    assert_eq!(rt; table.insert(Tagged::new(100, 3, 3)), Ok(()));
    let inside = Range::new(101, 1).ok_or("no range")?;
    assert_eq!(rt; table.remove(inside), Err(Refused));
    assert_eq!(rt; table.change(inside, &Retag { tag: 9 }), Err(Refused));
    assert_eq!(rt; table.rows().get(2), Some(&Tagged::new(100, 3, 3)));
    assert_eq!(rt; table.remove(all), Ok(()));
    assert_eq!(rt; table.len(), 0);
    Ok(())
}

#[test]
fn pushes(rt: HostRuntime) {
    let mut table = Table::<Tagged, 1>::new(Tagged::new(0, 0, 0));
    table.push(Tagged::new(7, 2, 4));
    assert_eq!(rt; table.len(), 1);
    assert_eq!(rt; table.find(8), Some(Tagged::new(8, 1, 4)));
}

#[test]
fn parts_of_one_page(rt: HostRuntime) -> Result<(), Fail> {
    let mut rows = [Cuttable::whole(0, 0); 2];
    let n = insert(&mut rows, 0, Cuttable::whole(10, 2)).ok_or("no room")?;
    let n = cut(&mut rows, n, 11).ok_or("no room")?;
    assert_eq!(rt; n, 2);
    assert_eq!(rt; (rows[1].first, rows[1].pages, rows[1].cut), (11, 1, true));
    assert_eq!(rt; find(&rows[0..n], 11), Some(Cuttable::whole(11, 1)));
    Ok(())
}
