//! The contents of lodgings.
use crate::core_types::text;
use land_core::content::{Content, Discharge, Mortgage, Transfer};
use land_core::text::Text;
use land_fraction::{Fraction, FractionFault};
use std::alloc::{AllocError, Global};
use std::test::Fail;

/// The content of a mutation.
#[derive(Drop)]
pub(super) enum Asked {
    /// A unit, a right, a receiver, and the numerator and denominator of a share.
    Transfer(u64, u64, u64, u64, u64),
    /// A unit, a creditor, an amount in minor units, and a currency.
    Mortgage(u64, u64, u64, &'static str),
    /// A unit and a mortgage.
    Discharge(u64, u64),
}

fn transfer(
    unit: u64,
    right: u64,
    receiver: u64,
    share: Result<Fraction, FractionFault>,
) -> Result<Content, Fail> {
    Ok(Content::Transfer(Transfer {
        unit,
        right,
        receiver,
        share: share?,
    }))
}

fn mortgage(
    unit: u64,
    creditor: u64,
    amount: u64,
    currency: Result<Text, AllocError>,
) -> Result<Content, Fail> {
    Ok(Content::Mortgage(Mortgage {
        unit,
        creditor,
        amount,
        currency: currency?,
    }))
}

pub(super) fn content(alloc: Global, it: &Asked) -> Result<Content, Fail> {
    match it {
        Asked::Transfer(unit, right, receiver, n, d) => {
            transfer(*unit, *right, *receiver, Fraction::new(*n, *d))
        }
        Asked::Mortgage(unit, creditor, amount, currency) => {
            mortgage(*unit, *creditor, *amount, text(alloc, currency))
        }
        Asked::Discharge(unit, mortgage) => Ok(Content::Discharge(Discharge {
            unit: *unit,
            mortgage: *mortgage,
        })),
    }
}
