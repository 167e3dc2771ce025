//! Random registers.
use crate::each::new_tables;
use crate::random::dice::Dice;
use crate::random::drawn::{OFFICE, draw};
use crate::random::keepers::Keepers;
use crate::random::looks::{KINDS, read_everything};
use crate::random::page::Page;
use land_keep::keeper::Keeper;
use land_keep::plain_keeper::PlainKeeper;
use land_select::sql_keeper::SqlKeeper;
use land_tables::table_keeper::TableKeeper;
use std::alloc::Global;
use testlib_scenario::stop::{Stop, expect};

/// The number of requests.
const REQUESTS: u32 = 640;

/// The least number of changes, of current objects and of compared lists at the end.
const CHANGES: i64 = 190;

const OBJECTS: usize = 390;

const LISTS: usize = 3800;

/// Sends one more request, sometimes the one before again, and checks that all replies are the same.
fn tell_one<P: Keeper, T: Keeper, J: Keeper>(
    alloc: Global,
    keepers: &mut Keepers<'_, P, T, J>,
    page: &mut Page,
    dice: &mut Dice,
    place: u32,
) -> Result<(), Stop> {
    if dice.throw(12) != 0 || place == 1 {
        let drawn = draw(alloc, keepers.plain, dice, place)?;
        page.write(dice, &drawn)?;
    }
    keepers.expect_same_replies(alloc, page, place as usize)
}

/// Returns the number of current objects.
fn objects<P: Keeper, T: Keeper, J: Keeper>(
    alloc: Global,
    keepers: &mut Keepers<'_, P, T, J>,
) -> Result<usize, Stop> {
    let last = keepers.plain.last();
    let mut count = 0usize;
    for kind in KINDS {
        let numbers = keepers.plain.sight(alloc, OFFICE, *kind, last)?;
        count = count.saturating_add(numbers.as_slice().len());
    }
    Ok(count)
}

/// Sends the given number of requests in order, and checks that the replies are the same.
fn tell_all<P: Keeper, T: Keeper, J: Keeper>(
    alloc: Global,
    keepers: &mut Keepers<'_, P, T, J>,
    page: &mut Page,
    dice: &mut Dice,
) -> Result<(), Stop> {
    for place in 1..=REQUESTS {
        tell_one(alloc, keepers, page, dice, place)?;
    }
    Ok(())
}

/// The same, and checks that enough of them were accepted, denied and refused.
fn expect_enough_replies<P: Keeper, T: Keeper, J: Keeper>(
    alloc: Global,
    keepers: &mut Keepers<'_, P, T, J>,
    dice: &mut Dice,
) -> Result<(), Stop> {
    let mut page = Page::new(alloc)?;
    tell_all(alloc, keepers, &mut page, dice)?;
    page.tally.expect_enough()
}

/// Makes the register of a seed, and checks that it has enough changes and objects, and that its lists are
/// the same.
fn play<P: Keeper, T: Keeper, J: Keeper>(
    alloc: Global,
    keepers: &mut Keepers<'_, P, T, J>,
    seed: u64,
) -> Result<(), Stop> {
    let mut dice = Dice { state: seed };
    keepers.play_scenario(alloc)?;
    expect_enough_replies(alloc, keepers, &mut dice)?;
    let changes = keepers.plain.last().saturating_sub(999);
    expect(CHANGES <= changes, "changes", 0)?;
    let count = objects(alloc, keepers)?;
    expect(OBJECTS <= count, "objects", count)?;
    read_everything(alloc, keepers, &mut dice)?;
    expect(LISTS <= keepers.lists, "lists", keepers.lists)
}

fn are_alike(alloc: Global, seed: u64) -> Result<(), Stop> {
    let mut plain = PlainKeeper::new(alloc)?;
    let mut tables = TableKeeper::new(new_tables(alloc)?);
    let mut joins = SqlKeeper::new(new_tables(alloc)?);
    let mut keepers = Keepers {
        plain: &mut plain,
        tables: &mut tables,
        joins: &mut joins,
        lists: 0,
    };
    play(alloc, &mut keepers, seed)
}

/// Tests the register of seed 1.
pub fn the_register_of_seed_1(alloc: Global) -> Result<(), Stop> {
    are_alike(alloc, 1)
}

/// Tests the register of seed 2.
pub fn the_register_of_seed_2(alloc: Global) -> Result<(), Stop> {
    are_alike(alloc, 2)
}

/// Tests the register of seed 3.
pub fn the_register_of_seed_3(alloc: Global) -> Result<(), Stop> {
    are_alike(alloc, 3)
}
