//! Title sheets.
use land_core::limits::LAST_MOMENT;
use land_core::parcel::Parcel;
use land_core::rrr::{Class, RightType, Rrr};
use land_core::sequence::Sequence;
use land_core::text::Text;
use land_core::unit::Unit;
use land_fraction::Fraction;
use land_keep::view::{NamedRrr, View};
use land_shape::{Ring, ShapeFault, read_wkt};
use land_sheet::sheet::title_sheet;
use std::alloc::{AllocError, Global};
use testlib_scenario::stop::{Stop, expect};

/// The content of an entry.
#[derive(Clone, Copy)]
pub enum EntryContent {
    Right(RightType, u64, u64),
    Restriction(&'static str),
    Responsibility(&'static str),
    Mortgage,
}

/// A parcel by its number, its label and its outline.
struct ParcelRow(u64, &'static str, &'static str);

/// An entry by its number, its content, and its party by number and name.
struct Entry(u64, EntryContent, u64, &'static str);

/// A unit at a moment, by its number and its name, and whether its shares are checked.
struct SheetRow {
    unit: u64,
    name: &'static str,
    checked: bool,
    at: i64,
    parcels: &'static [ParcelRow],
    entries: &'static [Entry],
    sheet: &'static str,
}

const PICTURES: &[SheetRow] = &[
    SheetRow {
        unit: 9,
        name: "Garden",
        checked: true,
        at: 1017,
        parcels: &[ParcelRow(
            24,
            "12a",
            "POLYGON ((0 0, 5000 0, 5000 10000, 0 10000, 0 0))",
        )],
        entries: &[
            Entry(13, EntryContent::Right(RightType::Lease, 1, 1), 6, "Sam"),
            Entry(16, EntryContent::Mortgage, 4, "Bank, \"North\""),
            Entry(
                21,
                EntryContent::Right(RightType::Ownership, 1, 1),
                3,
                "Ben",
            ),
        ],
        sheet: "TITLE SHEET
Unit 9 Garden
At 1970-01-01T00:00:01.017Z
Shares checked
Area 50.0000000
Parcels 1
        24            50.0000000  12a
Entries 3
        13  lease                    6 Sam: 1/1
        16  mortgage                 4 Bank, \"North\": rank 1 EUR 2500000
        21  ownership                3 Ben: 1/1
END
",
    },
    // The widest numbers, a maximum and a minimum area, and texts with more bytes than characters.
    SheetRow {
        unit: 1_000_000_000,
        name: "Zoë's Hof",
        checked: false,
        at: 951_782_400_000,
        parcels: &[
            ParcelRow(
                1,
                "Äcker 1",
                "POLYGON ((0 0, 1000000000 0, 0 1000000000, 0 0))",
            ),
            ParcelRow(1_000_000_000, "b", "POLYGON ((0 0, 1 0, 0 1, 0 0))"),
        ],
        entries: &[
            Entry(
                7,
                EntryContent::Right(RightType::Usufruct, 1, 3),
                1_000_000_000,
                "Zoë",
            ),
            Entry(8, EntryContent::Restriction("No well"), 2, "漢字"),
            Entry(
                1_000_000_000,
                EntryContent::Responsibility("Keep the hedge"),
                3,
                "Sam",
            ),
        ],
        sheet: "TITLE SHEET
Unit 1000000000 Zoë's Hof
At 2000-02-29T00:00:00.000Z
Shares unchecked
Area 500000000000.0000005
Parcels 2
         1  500000000000.0000000  Äcker 1
1000000000             0.0000005  b
Entries 3
         7  usufruct        1000000000 Zoë: 1/3
         8  restriction              2 漢字: No well
1000000000  responsibility           3 Sam: Keep the hedge
END
",
    },
    // The caller sees only the parcel, at the last moment.
    SheetRow {
        unit: 2,
        name: "Yard",
        checked: true,
        at: LAST_MOMENT,
        parcels: &[ParcelRow(
            3,
            "1",
            "polygon((0.0 0, 10000 0,10000 10000, 0 10000, 0 0))",
        )],
        entries: &[],
        sheet: "TITLE SHEET
Unit 2 Yard
At 2099-12-31T23:59:59.999Z
Shares checked
Area 100.0000000
Parcels 1
         3           100.0000000  1
Entries 0
END
",
    },
];

/// Moments, and their lines.
const MOMENTS: &[(i64, &str)] = &[
    (0, "At 1970-01-01T00:00:00.000Z\n"),
    (86_399_999, "At 1970-01-01T23:59:59.999Z\n"),
    (86_400_000, "At 1970-01-02T00:00:00.000Z\n"),
    (68_169_599_999, "At 1972-02-28T23:59:59.999Z\n"),
    (68_169_600_000, "At 1972-02-29T00:00:00.000Z\n"),
    (951_782_399_999, "At 2000-02-28T23:59:59.999Z\n"),
    (951_868_800_000, "At 2000-03-01T00:00:00.000Z\n"),
    (3_981_312_000_000, "At 2096-02-29T00:00:00.000Z\n"),
];

/// Returns a text of the register.
pub fn text(alloc: Global, text: &str) -> Result<Text, AllocError> {
    Ok(Text::new(String::from_str(alloc, text)?))
}

/// Returns the ring of an outline.
pub fn ring(alloc: Global, outline: &str) -> Result<Ring, Stop> {
    match read_wkt(alloc, outline) {
        Ok(ring) => Ok(ring),
        Err(ShapeFault::NoMemory) => Err(Stop::Memory),
        Err(_) => Err(Stop::Call),
    }
}

/// Returns the class of an entry.
pub fn class(alloc: Global, says: EntryContent) -> Result<Class, Stop> {
    match says {
        EntryContent::Right(right_type, parts, whole) => match Fraction::new(parts, whole) {
            Ok(share) => Ok(Class::Right { right_type, share }),
            Err(_) => Err(Stop::Call),
        },
        EntryContent::Restriction(words) => Ok(Class::Restriction {
            words: text(alloc, words)?,
        }),
        EntryContent::Responsibility(words) => Ok(Class::Responsibility {
            words: text(alloc, words)?,
        }),
        EntryContent::Mortgage => Ok(Class::Mortgage {
            amount: 2_500_000,
            currency: text(alloc, "EUR")?,
            rank: 1,
        }),
    }
}

fn parcel(alloc: Global, land: &ParcelRow) -> Result<Parcel, Stop> {
    let outline = ring(alloc, land.2)?;
    Ok(Parcel {
        number: land.0,
        unit: 9,
        label: text(alloc, land.1)?,
        outline,
        source: 22,
    })
}

fn parcels(alloc: Global, lands: &[ParcelRow], times: usize) -> Result<Sequence<Parcel>, Stop> {
    let mut parcels = Sequence::new(alloc);
    for _ in 0..times {
        for land in lands {
            parcels.push(parcel(alloc, land)?)?;
        }
    }
    Ok(parcels)
}

fn named_entry(alloc: Global, entry: &Entry) -> Result<NamedRrr, Stop> {
    let class = class(alloc, entry.1)?;
    Ok(NamedRrr {
        rrr: Rrr {
            number: entry.0,
            unit: 9,
            party: entry.2,
            class,
            source: 8,
        },
        name: text(alloc, entry.3)?,
    })
}

fn entries(alloc: Global, rows: &[Entry]) -> Result<Sequence<NamedRrr>, Stop> {
    let mut entries = Sequence::new(alloc);
    for row in rows {
        entries.push(named_entry(alloc, row)?)?;
    }
    Ok(entries)
}

/// Returns the sheet of a view whose moment is valid.
fn write_sheet(alloc: Global, view: &View) -> Result<String, Stop> {
    if view.at < 0 || LAST_MOMENT < view.at {
        return Err(Stop::Call);
    }
    Ok(title_sheet(alloc, view)?)
}

/// Returns the sheet of a row at a moment, with its parcels repeated.
fn sheet(alloc: Global, picture: &SheetRow, at: i64, times: usize) -> Result<String, Stop> {
    let parcels = parcels(alloc, picture.parcels, times)?;
    let rrrs = entries(alloc, picture.entries)?;
    let unit = Unit {
        number: picture.unit,
        name: text(alloc, picture.name)?,
        checked: picture.checked,
    };
    let view = View {
        unit,
        parcels,
        rrrs,
        at,
    };
    write_sheet(alloc, &view)
}

/// Checks sheets.
pub fn sheets(alloc: Global) -> Result<(), Stop> {
    for (place, picture) in PICTURES.iter().enumerate() {
        let sheet = sheet(alloc, picture, picture.at, 1)?;
        expect(sheet.as_str() == picture.sheet, "picture", place)?;
    }
    Ok(())
}

/// Checks that moments are written as dates and times.
pub fn moments_are_told_as_dates_and_times(alloc: Global) -> Result<(), Stop> {
    for (place, row) in MOMENTS.iter().enumerate() {
        let sheet = sheet(alloc, &PICTURES[2], row.0, 0)?;
        expect(sheet.as_str().contains(row.1), "moment", place)?;
    }
    Ok(())
}

/// Checks 256 times the maximum area and the minimum one, in square millimetres: more than 64 bits.
pub fn areas_do_not_wrap(alloc: Global) -> Result<(), Stop> {
    let sheet = sheet(alloc, &PICTURES[1], 0, 256)?;
    let area = "\nArea 128000000000000.0001280\nParcels 512\n";
    expect(sheet.as_str().contains(area), "area", 0)
}
