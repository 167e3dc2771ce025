//! The values of options that have a fixed set of words.
ghost use Rattle.std.specs.Prelude.{◌≡◌};
ghost use Rattle.clap.specs.Walk.{texts};
ghost use Rattle.land_commands.specs.Words.Choices.{AreChoiceWords, kind_words, role_words};

/// The words for roles and kinds, passed to `clap`.
#[derive(Clone, Copy, Debug)]
pub struct Choices<'a> {
    /// The words of the roles.
    pub roles: &'a [&'a str],
    /// The words of the kinds.
    pub kinds: &'a [&'a str],
}

/// Returns the words for roles and kinds.
pub fn all_choices<'a>() -> Choices<'a>
    ensures { AreChoiceWords result }
{
    Choices {
        roles: role_words(),
        kinds: kind_words(),
    }
}

/// Returns the words for roles, the same as in HTTP requests.
fn role_words() -> &'static [&'static str]
    ensures { texts result.now ≡ role_words }
{
    &[
        "citizen",
        "conveyancer",
        "notary",
        "bank",
        "certifiedSurveyor",
        "stateAdministrator",
    ]
}

/// Returns the words for kinds of objects.
fn kind_words() -> &'static [&'static str]
    ensures { texts result.now ≡ kind_words }
{
    &["party", "unit", "parcel", "rrr", "source", "mutation"]
}
