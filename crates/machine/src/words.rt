// Protections, inheritances and map entries.
ghost use Rattle.std.specs.Prelude.{◌≡◌};
ghost use Rattle.machine.specs.Words.{protection_at, inheritance_at, numbered, rank};

// What a task may do with the pages of an entry.
#[derive(Clone, Copy, Default, PartialEq, Eq, Debug)]
pub enum Protection {
    #[default]
    None,
    Read,
    ReadWrite,
}

// What a fork gives the child of an entry.
#[derive(Clone, Copy, Default, PartialEq, Eq, Debug)]
pub enum Inheritance {
    #[default]
    None,
    Share,
    Copy,
}

// A number that stands for no protection and no inheritance.
#[derive(Clone, Copy, PartialEq, Eq, Debug)]
pub struct UnknownNumber(pub u8);

// The protection that a caller's number stands for: 0, 1 or 2.
impl TryFrom<u8> for Protection {
    type Error = UnknownNumber;

    ghost try_from_gives = { λ number r. r ≡ numbered protection_at number };

    fn try_from(number: u8) -> Result<Protection, UnknownNumber> {
        match number {
            0 => Ok(Protection::None),
            1 => Ok(Protection::Read),
            2 => Ok(Protection::ReadWrite),
            _ => Err(UnknownNumber(number)),
        }
    }
}

// The number that stands for a protection.
impl From<Protection> for u8 {
    ghost from_gives = { λ protection number. number ≡ rank protection };

    fn from(protection: Protection) -> u8 {
        match protection {
            Protection::None => 0,
            Protection::Read => 1,
            Protection::ReadWrite => 2,
        }
    }
}

// The inheritance that a caller's number stands for: 0, 1 or 2.
impl TryFrom<u8> for Inheritance {
    type Error = UnknownNumber;

    ghost try_from_gives = { λ number r. r ≡ numbered inheritance_at number };

    fn try_from(number: u8) -> Result<Inheritance, UnknownNumber> {
        match number {
            0 => Ok(Inheritance::None),
            1 => Ok(Inheritance::Share),
            2 => Ok(Inheritance::Copy),
            _ => Err(UnknownNumber(number)),
        }
    }
}

// A map entry: a row of pages, and for each of them the cell that it names. The first page names the cell
// `index` of the sharing record, and the index rises by one a page.
#[derive(Clone, Copy, Default, PartialEq, Eq, Debug)]
pub struct Entry {
    pub first: u16,
    pub pages: u16,
    pub protection: Protection,
    pub inheritance: Inheritance,
    pub sharing: u8,
    pub index: u16,
}
