//! The entries of units: rights, restrictions, responsibilities and mortgages (LA_RRR).
ghost use Rattle.std.specs.Prelude.{◌≡◌};
ghost use Rattle.land_tables_rows.specs.Rrr.Reading.{burden_in, class_by, mortgage_in, no_mortgage_in};
ghost use Rattle.land_tables_rows.specs.Rrr.Reading.{no_right_in, right_in, rrr_in};
ghost use Rattle.land_wire_json.specs.Bodies.WireFaults.{Returns};

use crate::reading::cells::{
    amount_at, currency_at, end_at, moment_at, natural_at, null_at, number_at, share_at, words_at,
};
use crate::reading::from_row::FromRow;
use crate::reading::words::{ClassWord, class_word_at};
use land_core::rrr::{Class, RightType, RrrRecord};
use land_core::text::Text;
use land_tables_history::version::Version;
use land_wire_json::bodies::wire_fault::WireFault;
use sqlite::Row;
use std::alloc::Global;

/// Decodes a row of `rrr`: number, unit, party, class, numerator, denominator, amount, currency, rank, words,
/// source, since, until. Errors include 131 if a column that the class does not use is not NULL.
impl FromRow for Version<(u64, RrrRecord)> {
    ghost said = { rrr_in };

    #[tactic(auto, unfolding(crate::specs::Rrr::Reading::rrr_in))]
    fn from_row(alloc: Global, row: &Row) -> Result<Version<(u64, RrrRecord)>, WireFault> {
        let number = number_at(row, 0)?;
        let unit = number_at(row, 1)?;
        let party = number_at(row, 2)?;
        let which = class_word_at(row, 3)?;
        let class = class_by(alloc, which, row)?;
        let source = number_at(row, 10)?;
        let since = moment_at(row, 11)?;
        let until = end_at(row, 12)?;
        let record = RrrRecord {
            unit,
            party,
            class,
            source,
        };
        Ok(Version {
            what: (number, record),
            since,
            until,
        })
    }
}

/// Decodes the columns of a class.
fn class_by(alloc: Global, which: ClassWord, row: &Row) -> Result<Class, WireFault>
    ensures { Returns (λ it. it) result (class_by which row.now) }
{
    match which {
        ClassWord::Right(right_type) => right_in(right_type, row),
        ClassWord::Restriction => Ok(Class::Restriction {
            words: burden_in(alloc, row)?,
        }),
        ClassWord::Responsibility => Ok(Class::Responsibility {
            words: burden_in(alloc, row)?,
        }),
        ClassWord::Mortgage => mortgage_in(alloc, row),
    }
}

/// Decodes a right. The columns of other classes must be NULL.
#[tactic(auto, unfolding(crate::specs::Rrr::Reading::right_in))]
fn right_in(right_type: RightType, row: &Row) -> Result<Class, WireFault>
    ensures { result ≡ right_in right_type row.now }
{
    let share = share_at(row, 4, 5)?;
    no_mortgage_in(row)?;
    null_at(row, 9)?;
    Ok(Class::Right { right_type, share })
}

/// Decodes the words of a restriction or a responsibility. The columns of other classes must be NULL.
#[tactic(auto, unfolding(crate::specs::Rrr::Reading::burden_in))]
fn burden_in(alloc: Global, row: &Row) -> Result<Text, WireFault>
    ensures { Returns (λ it. it) result (burden_in row.now) }
{
    no_right_in(row)?;
    no_mortgage_in(row)?;
    words_at(alloc, row, 9)
}

/// Decodes a mortgage. The columns of other classes must be NULL.
#[tactic(auto, unfolding(crate::specs::Rrr::Reading::mortgage_in))]
fn mortgage_in(alloc: Global, row: &Row) -> Result<Class, WireFault>
    ensures { Returns (λ it. it) result (mortgage_in row.now) }
{
    no_right_in(row)?;
    let amount = amount_at(row, 6)?;
    let currency = currency_at(alloc, row, 7)?;
    let rank = natural_at(row, 8)?;
    null_at(row, 9)?;
    Ok(Class::Mortgage {
        amount,
        currency,
        rank,
    })
}

/// Checks that the columns of a right are NULL.
#[tactic(auto, unfolding(crate::specs::Rrr::Reading::no_right_in))]
fn no_right_in(row: &Row) -> Result<(), WireFault>
    ensures { result ≡ no_right_in row.now }
{
    null_at(row, 4)?;
    null_at(row, 5)
}

/// Checks that the columns of a mortgage are NULL.
#[tactic(auto, unfolding(crate::specs::Rrr::Reading::no_mortgage_in))]
fn no_mortgage_in(row: &Row) -> Result<(), WireFault>
    ensures { result ≡ no_mortgage_in row.now }
{
    null_at(row, 6)?;
    null_at(row, 7)?;
    null_at(row, 8)
}
