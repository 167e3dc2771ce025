//! Theorems about the definitions, without reference to code.
ghost use Rattle.land_commands.specs.Words.Laws.{FaultlessWordsLaw, OneCommandLaw, PlainDigestLaw};
ghost use Rattle.land_commands.specs.Words.Laws.{PlainExtractLaw, PlainFileLaw};
ghost use Rattle.land_commands.specs.Words.Laws.{PlainServiceLaw, PlainTalkLaw};

/// Arguments name at most one command.
pub fn words_name_one_command()
    ensures { OneCommandLaw }
{}

/// Arguments in which `clap` finds no fault name a command.
pub fn faultless_words_name_a_command()
    ensures { FaultlessWordsLaw }
{}

/// `talk --clock MS` names `talk`, if MS is a moment in decimal digits.
pub fn plain_words_are_read()
    ensures { PlainTalkLaw }
{}

/// `new --file FILE`, `check --file FILE` and `migrate --file FILE` name these commands with that file.
pub fn plain_files_are_read()
    ensures { PlainFileLaw }
{}

/// `serve --file FILE --port PORT --connections COUNT`, optionally with `--at-once LIMIT`, names `serve`, if
/// the numbers are decimal digits.
pub fn plain_services_are_read()
    ensures { PlainServiceLaw }
{}

/// `extract --file FILE --clock MS --party NUMBER --role ROLE --kind KIND`, optionally with `--at MS`, names
/// `extract`, if the numbers are decimal digits.
pub fn plain_extracts_are_read()
    ensures { PlainExtractLaw }
{}

/// `digest --file FILE`, optionally with `--at MS`, names `digest`, if MS is a moment in decimal digits.
pub fn plain_digests_are_read()
    ensures { PlainDigestLaw }
{}
