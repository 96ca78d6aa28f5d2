// The pattern, no pages at all, and piles of pairs.
use crate::files::*;
use pagers::{BadImage, Empty, Image, Pager, Pair, Pattern};

#[test]
fn pattern_edges(rt: HostRuntime) {
    let mut pattern = Pattern;
    let mut page = [7; 256];
    assert_eq!(rt; pattern.count(0), 64);
    assert_eq!(rt; pattern.count(1), 0);
    assert_eq!(rt; pattern.fetch(0, 64, &mut page), fault(0, 0, 64));
    assert_eq!(rt; pattern.fetch(1, 0, &mut page), fault(0, 1, 0));
    assert_eq!(rt; page, [7; 256]);
    assert_eq!(rt; pattern.fetch(0, 0, &mut page), Ok(()));
    assert!(rt; page[0] == 0 && page[255] == 255);
    assert_eq!(rt; pattern.fetch(0, 63, &mut page), Ok(()));
    assert!(rt; page[0] == 161 && page[95] == 0 && page[255] == 160);
}

#[test]
fn nothing_there(rt: HostRuntime) {
    let mut empty = Empty;
    let mut page = [7; 256];
    assert_eq!(rt; empty.count(0), 0);
    assert_eq!(rt;
        empty.fetch(65535, 65535, &mut page),
        fault(0, 65535, 65535)
    );
    assert_eq!(rt; page, [7; 256]);
}

#[test]
fn split_edges(rt: HostRuntime) {
    let mut page = [7; 256];
    let mut zero = Pair::new(Empty, Pattern, 0);
    assert_eq!(rt; zero.count(0), 64);
    assert_eq!(rt; zero.fetch(0, 64, &mut page), fault(0, 0, 64));
    let mut one = Pair::new(Empty, Pattern, 1);
    assert_eq!(rt; one.count(0), 0);
    assert_eq!(rt; one.count(1), 64);
    assert_eq!(rt; one.fetch(1, 64, &mut page), fault(0, 1, 64));
    assert_eq!(rt; one.fetch(2, 3, &mut page), fault(0, 2, 3));
    let mut last = Pair::new(Pattern, Pattern, 65535);
    assert_eq!(rt; last.count(0), 64);
    assert_eq!(rt; last.count(65534), 0);
    assert_eq!(rt; last.count(65535), 64);
    assert_eq!(rt; last.fetch(65535, 1, &mut page), Ok(()));
    assert!(rt; page[0] == 31);
}

// Objects 0 and 1 are the pattern's, object 2 is the image's, 3 to 5 have no pages, and 6 is the pattern's.
#[test]
fn pile_of_three(rt: HostRuntime) -> Result<(), BadImage> {
    let mut file = [0; 267];
    head(&mut file, 2, 1);
    extent(&mut file, 0, 0, 2, 0);
    fill(&mut file, 11);
    let below = Pair::new(Pattern, Image::open(&file)?, 2);
    let mut pile = Pair::new(below, Pair::new(Empty, Pattern, 3), 3);
    let mut page = [7; 256];
    assert!(rt; pile.count(0) == 64 && pile.count(1) == 0 && pile.count(2) == 2);
    assert!(rt; pile.count(3) == 0 && pile.count(5) == 0 && pile.count(6) == 64);
    assert_eq!(rt; pile.fetch(2, 1, &mut page), fault(2, 0, 1));
    assert_eq!(rt; pile.fetch(2, 2, &mut page), fault(0, 2, 2));
    assert_eq!(rt; pile.fetch(4, 0, &mut page), fault(0, 4, 0));
    assert_eq!(rt; pile.fetch(6, 64, &mut page), fault(0, 6, 64));
    assert_eq!(rt; page, [7; 256]);
    assert_eq!(rt; pile.fetch(2, 0, &mut page), Ok(()));
    assert_eq!(rt; page, filling(0));
    assert_eq!(rt; pile.fetch(6, 2, &mut page), Ok(()));
    assert!(rt; page[0] == 62);
    Ok(())
}
