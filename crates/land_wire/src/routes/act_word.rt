//! The words of acts in paths.
ghost use Rattle.std.specs.Prelude.{◌≡◌, bytes_eq};
ghost use Rattle.std.specs.List.{find};
ghost use Rattle.land_wire.specs.Routes.ActWords.{act_of, act_word};

/// The act in a path.
#[derive(Clone, Copy, Debug, PartialEq, Eq)]
pub enum ActWord {
    /// Enrols a party.
    Enrol,
    /// Creates a group.
    Group,
    /// Changes the members of a group and their shares.
    Regroup,
    /// Grants a role.
    Grant,
    /// Revokes a role.
    Revoke,
    /// Creates a mandate.
    Mandate,
    /// Withdraws a mandate.
    Withdraw,
    /// Registers a unit.
    Register,
    /// Burdens a unit with a restriction or a responsibility.
    Burden,
    /// Lifts a restriction or a responsibility.
    Lift,
    /// Lodges a transfer.
    Transfer,
    /// Lodges a subdivision.
    Subdivision,
    /// Lodges a merger.
    Merger,
    /// Lodges a mortgage.
    Mortgage,
    /// Lodges the discharge of a mortgage.
    Discharge,
    /// Approves a mutation.
    Approve,
    /// Refuses a mutation.
    Refuse,
}

const ACTS: &[ActWord] = &[
    ActWord::Enrol,
    ActWord::Group,
    ActWord::Regroup,
    ActWord::Grant,
    ActWord::Revoke,
    ActWord::Mandate,
    ActWord::Withdraw,
    ActWord::Register,
    ActWord::Burden,
    ActWord::Lift,
    ActWord::Transfer,
    ActWord::Subdivision,
    ActWord::Merger,
    ActWord::Mortgage,
    ActWord::Discharge,
    ActWord::Approve,
    ActWord::Refuse,
];

impl ActWord {
    /// Returns the word of an act in paths.
    pub fn word(self) -> &'static str
        ensures { result.now ≡ act_word self }
    {
        match self {
            ActWord::Enrol => "enrol",
            ActWord::Group => "group",
            ActWord::Regroup => "regroup",
            ActWord::Grant => "grant",
            ActWord::Revoke => "revoke",
            ActWord::Mandate => "mandate",
            ActWord::Withdraw => "withdraw",
            ActWord::Register => "register",
            ActWord::Burden => "burden",
            ActWord::Lift => "lift",
            ActWord::Transfer => "transfer",
            ActWord::Subdivision => "subdivision",
            ActWord::Merger => "merger",
            ActWord::Mortgage => "mortgage",
            ActWord::Discharge => "discharge",
            ActWord::Approve => "approve",
            ActWord::Refuse => "refuse",
        }
    }

    /// Returns the act of a word, or `None` for any other bytes. Words are case-sensitive.
    pub fn of(bytes: &[u8]) -> Option<ActWord>
        ensures { result ≡ act_of bytes.now }
    {
        act_among(bytes, ACTS)
    }
}

fn act_among(bytes: &[u8], acts: &[ActWord]) -> Option<ActWord>
    ensures { result ≡ find (λ act. bytes_eq bytes.now (act_word act)) acts.now }
{
    for act in acts {
        if bytes == act.word().as_bytes() {
            return Some(*act);
        }
    }
    None
}
