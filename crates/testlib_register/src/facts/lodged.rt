//! Mutations that tests build by hand.
use crate::facts::making::text;
use land_core::content::{Content, Discharge, Mortgage, Transfer};
use land_core::mutation::{MutationRecord, MutationState};
use land_core::text::Text;
use land_fraction::{Fraction, FractionFault};
use std::alloc::{AllocError, Global};
use testlib_cases::stop::Stop;

/// The content of a mutation.
#[derive(Drop)]
pub enum Asked {
    /// A unit, a right, a receiver, and the numerator and denominator of a share.
    Transfer(u64, u64, u64, u64, u64),
    /// A unit, a creditor, an amount and a currency.
    Mortgage(u64, u64, u64, &'static str),
    /// A unit and a mortgage.
    Discharge(u64, u64),
}

/// A lodger, its reference, a source, a state, and the content.
#[derive(Drop)]
pub struct Lodged(
    pub u64,
    pub &'static str,
    pub u64,
    pub MutationState,
    pub Asked,
);

/// The lodging time of all of them.
pub const MOMENT: i64 = 1000;

/// Returns a transfer, if its share is valid.
fn transfer(
    unit: u64,
    right: u64,
    receiver: u64,
    share: Result<Fraction, FractionFault>,
) -> Result<Content, Stop> {
    Ok(Content::Transfer(Transfer {
        unit,
        right,
        receiver,
        share: share?,
    }))
}

/// Returns a mortgage, if its currency could be allocated.
fn mortgage(
    unit: u64,
    creditor: u64,
    amount: u64,
    currency: Result<Text, AllocError>,
) -> Result<Content, Stop> {
    Ok(Content::Mortgage(Mortgage {
        unit,
        creditor,
        amount,
        currency: currency?,
    }))
}

/// Returns the content of a mutation.
pub fn content(alloc: Global, it: &Asked) -> Result<Content, Stop> {
    match it {
        Asked::Transfer(unit, right, receiver, n, d) => {
            transfer(*unit, *right, *receiver, Fraction::new(*n, *d))
        }
        Asked::Mortgage(unit, creditor, amount, currency) => {
            mortgage(*unit, *creditor, *amount, text(alloc, currency))
        }
        Asked::Discharge(unit, mortgage) => Ok(Content::Discharge(Discharge {
            unit: *unit,
            mortgage: *mortgage,
        })),
    }
}

/// Returns the mutation of a lodging.
pub(crate) fn mutation(alloc: Global, it: &Lodged) -> Result<MutationRecord, Stop> {
    Ok(MutationRecord {
        lodger: it.0,
        reference: text(alloc, it.1)?,
        source: it.2,
        lodged: MOMENT,
        state: it.3,
        content: content(alloc, &it.4)?,
    })
}

/// Checks if a transfer is the expected one.
fn is_transfer(it: &Transfer, asked: &Asked) -> bool {
    match asked {
        Asked::Transfer(unit, right, receiver, n, d) => {
            it.unit == *unit
                && it.right == *right
                && it.receiver == *receiver
                && it.share.numerator() == *n
                && it.share.denominator() == *d
        }
        _ => false,
    }
}

/// Checks if a mortgage is the expected one.
fn is_mortgage(it: &Mortgage, asked: &Asked) -> bool {
    match asked {
        Asked::Mortgage(unit, creditor, amount, currency) => {
            it.unit == *unit
                && it.creditor == *creditor
                && it.amount == *amount
                && it.currency.as_str() == *currency
        }
        _ => false,
    }
}

/// Checks if a discharge is the expected one.
fn is_discharge(it: &Discharge, asked: &Asked) -> bool {
    match asked {
        Asked::Discharge(unit, mortgage) => it.unit == *unit && it.mortgage == *mortgage,
        _ => false,
    }
}

/// Checks if a content is the expected one.
pub fn is_asked(content: &Content, asked: &Asked) -> bool {
    match content {
        Content::Transfer(it) => is_transfer(it, asked),
        Content::Subdivision(_) | Content::Merger(_) => false,
        Content::Mortgage(it) => is_mortgage(it, asked),
        Content::Discharge(it) => is_discharge(it, asked),
    }
}
