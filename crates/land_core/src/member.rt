//! Members of groups (LA_PartyMember) and their shares.
ghost use Rattle.std.specs.Prelude.{◌≡◌, IfOk};
ghost use Rattle.land_core.specs.Members.{members_in, shares_in};

use crate::duplicate::Duplicate;
use crate::records::Records;
use crate::sequence::Sequence;
use land_fraction::Fraction;
use std::alloc::{AllocError, Global};

/// A party and its share in a group, as in acts and replies.
#[derive(Clone, Copy, Debug)]
pub struct Member {
    /// The party's number.
    pub party: u64,
    /// Its share.
    pub share: Fraction,
}

/// The members of one group: the share of each, by its number.
pub type Members = Records<Fraction>;

impl Duplicate for Fraction {
    fn copy(&self, _alloc: Global) -> Result<Fraction, AllocError> {
        Ok(*self)
    }
}

impl Duplicate for Member {
    fn copy(&self, _alloc: Global) -> Result<Member, AllocError> {
        Ok(*self)
    }
}

/// Returns the members of a group as a list, ordered by number.
pub fn members_in(alloc: Global, members: &Members) -> Result<Sequence<Member>, AllocError>
    ensures { IfOk result (λ it. it ≡ members_in members.now) }
{
    let mut listed = Sequence::new(alloc);
    for (party, share) in members.iter() {
        listed.push(Member {
            party: *party,
            share: *share,
        })?;
    }
    Ok(listed)
}

/// Returns the shares of a group's members, ordered by number.
pub fn shares_of(alloc: Global, members: &Members) -> Result<Sequence<Fraction>, AllocError>
    ensures { IfOk result (λ it. it ≡ shares_in members.now) }
{
    let mut shares = Sequence::new(alloc);
    for (_, share) in members.iter() {
        shares.push(*share)?;
    }
    Ok(shares)
}
