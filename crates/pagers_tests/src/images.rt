// Images: which files are refused, and what the pages of the others hold.
use crate::files::*;
use pagers::{BadImage, Image, Pager};

// Four pages; page 2 at position 0 and page 0 at position 256, in this order; 512 bytes of data.
fn two_pages() -> [u8; 531] {
    let mut file = [0; 531];
    head(&mut file, 4, 2);
    extent(&mut file, 0, 2, 1, 0);
    extent(&mut file, 1, 0, 1, 256);
    fill(&mut file, 19);
    file
}

#[test]
fn short_files(rt: HostRuntime) {
    assert!(rt; !opens(&[]));
    assert!(rt; !opens(&[0]));
    assert!(rt; !opens(&[0, 4]));
    assert!(rt; opens(&[0, 4, 0]));
    let file = two_pages();
    for len in 0..19 {
        assert!(rt; !opens(&file[0..len]));
    }
    assert!(rt; opens(&file[0..19]));
}

#[test]
fn counts(rt: HostRuntime) -> Result<(), BadImage> {
    let mut most = Image::open(&[16, 0, 0])?;
    assert_eq!(rt; most.count(0), 4096);
    assert_eq!(rt; most.count(1), 0);
    let mut none = Image::open(&[0, 0, 0])?;
    assert_eq!(rt; none.count(0), 0);
    assert!(rt; !opens(&[16, 1, 0]));
    assert!(rt; !opens(&[255, 255, 0]));
    let mut page = [7; 256];
    assert_eq!(rt; most.fetch(0, 4095, &mut page), Ok(()));
    assert_eq!(rt; page, [0; 256]);
    assert_eq!(rt; most.fetch(0, 4096, &mut page), fault(0, 0, 4096));
    Ok(())
}

#[test]
fn extents_out_of_order(rt: HostRuntime) -> Result<(), BadImage> {
    let file = two_pages();
    let mut image = Image::open(&file)?;
    let mut page = [7; 256];
    assert_eq!(rt; image.fetch(0, 2, &mut page), Ok(()));
    assert_eq!(rt; page, filling(0));
    assert_eq!(rt; image.fetch(0, 0, &mut page), Ok(()));
    assert_eq!(rt; page, filling(256));
    assert_eq!(rt; image.fetch(0, 3, &mut page), Ok(()));
    assert_eq!(rt; page, [0; 256]);
    let mut other = [7; 256];
    assert_eq!(rt; image.fetch(0, 4, &mut other), fault(0, 0, 4));
    assert_eq!(rt; image.fetch(1, 0, &mut other), fault(0, 1, 0));
    assert_eq!(rt; other, [7; 256]);
    Ok(())
}

#[test]
fn ends_of_the_data(rt: HostRuntime) -> Result<(), BadImage> {
    let mut file = two_pages();
    let mut page = [7; 256];
    let mut short = Image::open(&file[0..530])?;
    assert_eq!(rt; short.fetch(0, 0, &mut page), fault(2, 0, 0));
    assert_eq!(rt; page, [7; 256]);
    assert_eq!(rt; short.fetch(0, 2, &mut page), Ok(()));
    extent(&mut file, 1, 0, 1, 257);
    assert_eq!(rt; Image::open(&file)?.fetch(0, 0, &mut page), fault(2, 0, 0));
    extent(&mut file, 1, 0, 1, 0xffff_ffff);
    assert_eq!(rt; Image::open(&file)?.fetch(0, 0, &mut page), fault(2, 0, 0));
    extent(&mut file, 1, 0, 2, 0xffff_ff00);
    assert_eq!(rt; Image::open(&file)?.fetch(0, 1, &mut page), fault(2, 0, 1));
    assert_eq!(rt; page, filling(0));
    Ok(())
}

#[test]
fn pages_in_a_row(rt: HostRuntime) -> Result<(), BadImage> {
    let mut file = two_pages();
    head(&mut file, 4, 1);
    extent(&mut file, 0, 1, 2, 3);
    fill(&mut file, 11);
    let mut page = [7; 256];
    let mut image = Image::open(&file)?;
    assert_eq!(rt; image.fetch(0, 1, &mut page), Ok(()));
    assert_eq!(rt; page, filling(3));
    assert_eq!(rt; image.fetch(0, 2, &mut page), Ok(()));
    assert_eq!(rt; page, filling(259));
    extent(&mut file, 0, 1, 3, 3);
    assert_eq!(rt; Image::open(&file)?.fetch(0, 3, &mut page), fault(2, 0, 3));
    Ok(())
}

#[test]
fn bad_extents(rt: HostRuntime) {
    let mut file = two_pages();
    extent(&mut file, 0, 0, 0, 0);
    assert!(rt; !opens(&file), "empty");
    extent(&mut file, 0, 1, 3, 0);
    assert!(rt; opens(&file), "up to the page count");
    extent(&mut file, 0, 1, 4, 0);
    assert!(rt; !opens(&file), "past the page count");
    extent(&mut file, 0, 65535, 65535, 0);
    assert!(rt; !opens(&file), "far past it");
    extent(&mut file, 0, 0, 1, 0);
    assert!(rt; !opens(&file), "the same page twice");
    extent(&mut file, 0, 0, 4, 0);
    assert!(rt; !opens(&file), "one around the other");
}

// Writes 33 extents of one page, from page 4,095 down, every other page.
fn single_pages(file: &mut [u8]) {
    for i in 0..33 {
        extent(file, i, 4095 - 2 * u16::from(i), 1, 0);
    }
}

#[test]
fn many_extents(rt: HostRuntime) {
    let mut file = [0; 267];
    head(&mut file, 4096, 32);
    single_pages(&mut file);
    assert!(rt; opens(&file[0..259]));
    assert!(rt; !opens(&file[0..258]));
    head(&mut file, 4096, 33);
    assert!(rt; !opens(&file));
    head(&mut file, 4096, 32);
    extent(&mut file, 31, 4095, 1, 0);
    assert!(rt; !opens(&file));
}
