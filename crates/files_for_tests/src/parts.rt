//! What a file is to hold: columns, pages and what is told of them, as constants can say it.

/// What a column stores.
#[derive(Clone, Copy)]
pub enum Stored {
    /// Numbers of 32 bits.
    Numbers,
    /// Numbers of 64 bits.
    Longs,
    /// Times in milliseconds, of 64 bits each.
    Times,
    /// Times of 96 bits: nanoseconds, and the day.
    Words,
    /// Byte strings.
    Strings,
    /// Byte strings of so many bytes.
    Fixed(usize),
}

/// A column of a file.
#[derive(Clone, Copy)]
pub struct Column {
    /// At most 127 bytes.
    pub name: &'static str,
    pub stored: Stored,
    pub is_optional: bool,
}

/// A required column of numbers.
pub const NUMBERS: Column = Column {
    name: "a",
    stored: Stored::Numbers,
    is_optional: false,
};

/// A required column of byte strings.
pub const STRINGS: Column = Column {
    name: "s",
    stored: Stored::Strings,
    is_optional: false,
};

/// The definition levels of a page.
#[derive(Clone, Copy)]
pub enum Levels<'a> {
    /// None, in a page of the first form.
    Absent,
    /// Behind their length, in a page of the first form.
    First(&'a [u8]),
    /// In a page of the second form.
    Second(&'a [u8]),
    /// None, since the page is a dictionary.
    Entries,
}

/// The stored values of a page.
#[derive(Clone, Copy)]
pub enum Values<'a> {
    /// Plain numbers of 32 bits.
    Numbers(&'a [i64]),
    /// Plain numbers of 64 bits.
    Longs(&'a [i64]),
    /// Plain times of 96 bits: nanoseconds of the first day of 1970.
    Words(&'a [i64]),
    /// Plain byte strings.
    Strings(&'a [&'a [u8]]),
    /// The width of 8 bits, and a run of one copy of each key.
    Keys(&'a [u8]),
    /// The number of an encoding, and the bytes.
    Bytes(usize, &'a [u8]),
}

/// A page: how many rows or entries it has, its levels and its values.
#[derive(Clone, Copy)]
pub struct Page<'a>(pub usize, pub Levels<'a>, pub Values<'a>);

/// What is told of the rows of a page or a chunk.
#[derive(Clone, Copy)]
pub enum Told<'a> {
    Nothing,
    /// The least and the greatest of numbers of 32 bits, none of which is null.
    Ends(i64, i64),
    /// Those of numbers of 64 bits.
    Longs(i64, i64),
    /// Those of nanoseconds of the first day of 1970.
    Words(i64, i64),
    /// The least and the greatest value as they are stored, of at most 127 bytes each, and how many are null. A page without a least value is one of
    /// nulls.
    Bytes(Option<&'a [u8]>, Option<&'a [u8]>, Option<usize>),
}

/// The page indexes of a chunk.
#[derive(Clone, Copy)]
pub enum Indexes<'a> {
    Absent,
    /// The places of its pages.
    Locations,
    /// These, and what is told of each page.
    Told(&'a [Told<'a>]),
}

/// A chunk of a group.
#[derive(Clone, Copy)]
pub struct Chunk<'a> {
    pub column: Column,
    pub pages: &'a [Page<'a>],
    pub told: Told<'a>,
    pub indexes: Indexes<'a>,
    /// The other file that it is said to stand in, or no byte. At most 127.
    pub path: &'static str,
}

/// A chunk of numbers, without a page and of which nothing is told.
pub const CHUNK: Chunk<'static> = Chunk {
    column: NUMBERS,
    pages: &[],
    told: Told::Nothing,
    indexes: Indexes::Absent,
    path: "",
};

impl Stored {
    /// The number of the physical type.
    pub(crate) fn number(self) -> usize {
        match self {
            Stored::Numbers => 1,
            Stored::Longs | Stored::Times => 2,
            Stored::Words => 3,
            Stored::Strings => 6,
            Stored::Fixed(_) => 7,
        }
    }
}

impl Levels<'_> {
    /// How many bytes of a body they take.
    fn size(self) -> usize {
        match self {
            Levels::Absent | Levels::Entries => 0,
            Levels::First(bytes) => bytes.len().saturating_add(4),
            Levels::Second(bytes) => bytes.len(),
        }
    }
}

impl Values<'_> {
    pub(crate) fn encoding(self) -> usize {
        match self {
            Values::Numbers(_) | Values::Longs(_) | Values::Words(_) | Values::Strings(_) => 0,
            Values::Keys(_) => 8,
            Values::Bytes(encoding, _) => encoding,
        }
    }

    /// How many bytes of a body they take.
    fn size(self) -> usize {
        match self {
            Values::Numbers(numbers) => numbers.len().saturating_mul(4),
            Values::Longs(longs) => longs.len().saturating_mul(8),
            Values::Words(words) => words.len().saturating_mul(12),
            Values::Strings(strings) => size_of_strings(strings),
            Values::Keys(keys) => keys.len().saturating_mul(2).saturating_add(1),
            Values::Bytes(_, bytes) => bytes.len(),
        }
    }
}

/// How many bytes byte strings take, each behind its length.
fn size_of_strings(strings: &[&[u8]]) -> usize {
    let mut size = 0usize;
    for string in strings {
        size = size.saturating_add(4).saturating_add(string.len());
    }
    size
}

impl Page<'_> {
    /// How many bytes its body has.
    pub(crate) fn size(self) -> usize {
        self.1.size().saturating_add(self.2.size())
    }

    /// How many rows of a chunk it has.
    pub(crate) fn rows(self) -> usize {
        match self.1 {
            Levels::Entries => 0,
            Levels::Absent | Levels::First(_) | Levels::Second(_) => self.0,
        }
    }
}

impl Told<'_> {
    /// Whether a least value is told.
    pub(crate) fn has_least(self) -> bool {
        match self {
            Told::Nothing => false,
            Told::Ends(..) | Told::Longs(..) | Told::Words(..) => true,
            Told::Bytes(least, ..) => least.is_some(),
        }
    }

    /// Whether a greatest value is told.
    pub(crate) fn has_greatest(self) -> bool {
        match self {
            Told::Nothing => false,
            Told::Ends(..) | Told::Longs(..) | Told::Words(..) => true,
            Told::Bytes(_, greatest, _) => greatest.is_some(),
        }
    }

    /// How many rows are null, if that is told.
    pub(crate) fn nulls(self) -> Option<usize> {
        match self {
            Told::Nothing => None,
            Told::Ends(..) | Told::Longs(..) | Told::Words(..) => Some(0),
            Told::Bytes(_, _, nulls) => nulls,
        }
    }
}
