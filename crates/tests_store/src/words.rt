//! The arguments of the command line.
use land_commands::words::command::Command;
use land_commands::words::read_words;
use land_commands::words::words_fault::WordsFault;
use std::alloc::{AllocError, Global};
use std::test::Fail;

/// Arguments, and their command.
struct Words {
    words: &'static [&'static str],
    command: Command<'static>,
}

/// The number of an option is decimal digits, with a sign or without; leading zeros are allowed.
const WORDS: &[Words] = &[
    Words {
        words: &["land", "talk", "--clock", "1000"],
        command: Command::Talk { clock: 1000 },
    },
    Words {
        words: &["land", "talk", "--clock=1000"],
        command: Command::Talk { clock: 1000 },
    },
    Words {
        words: &["another name", "talk", "--clock", "1000"],
        command: Command::Talk { clock: 1000 },
    },
    Words {
        words: &["land", "talk", "--clock", "0"],
        command: Command::Talk { clock: 0 },
    },
    Words {
        words: &["land", "talk", "--clock", "0000000001000"],
        command: Command::Talk { clock: 1000 },
    },
    Words {
        words: &["land", "talk", "--clock", "00000000000000000000000001000"],
        command: Command::Talk { clock: 1000 },
    },
    Words {
        words: &["land", "talk", "--clock", "4102444799999"],
        command: Command::Talk {
            clock: 4_102_444_799_999,
        },
    },
    Words {
        words: &["land", "talk", "--clock", "+5"],
        command: Command::Talk { clock: 5 },
    },
    Words {
        words: &["land", "talk", "--clock=-0"],
        command: Command::Talk { clock: 0 },
    },
    Words {
        words: &["land", "new", "--file", "a b.land"],
        command: Command::New { file: "a b.land" },
    },
    Words {
        words: &["land", "new", "--file="],
        command: Command::New { file: "" },
    },
    Words {
        words: &["land", "new", "--file=-"],
        command: Command::New { file: "-" },
    },
    Words {
        words: &["land", "check", "--file", "/tmp/é"],
        command: Command::Check { file: "/tmp/é" },
    },
    Words {
        words: &["land", "migrate", "--file", "old.land"],
        command: Command::Migrate { file: "old.land" },
    },
    Words {
        words: &["land", "digest", "--file", "town.land"],
        command: Command::Digest {
            file: "town.land",
            at: None,
        },
    },
    Words {
        words: &["land", "digest", "--at=0", "--file=x"],
        command: Command::Digest {
            file: "x",
            at: Some(0),
        },
    },
    Words {
        words: &["land", "digest", "--file", "x", "--at", "4102444799999"],
        command: Command::Digest {
            file: "x",
            at: Some(4_102_444_799_999),
        },
    },
    Words {
        words: &[
            "land",
            "serve",
            "--file",
            "x",
            "--port",
            "1",
            "--connections",
            "1",
        ],
        command: Command::Serve {
            file: "x",
            port: 1,
            connections: 1,
            at_once: 1,
        },
    },
    Words {
        words: &[
            "land",
            "serve",
            "--connections=1000000",
            "--port=65535",
            "--file=x",
        ],
        command: Command::Serve {
            file: "x",
            port: 65_535,
            connections: 1_000_000,
            at_once: 1,
        },
    },
    Words {
        words: &[
            "land",
            "serve",
            "--file",
            "x",
            "--port",
            "8080",
            "--connections",
            "1",
            "--at-once",
            "1",
        ],
        command: Command::Serve {
            file: "x",
            port: 8080,
            connections: 1,
            at_once: 1,
        },
    },
    Words {
        words: &[
            "land",
            "serve",
            "--at-once",
            "1024",
            "--file",
            "x",
            "--port",
            "8080",
            "--connections",
            "5",
        ],
        command: Command::Serve {
            file: "x",
            port: 8080,
            connections: 5,
            at_once: 1024,
        },
    },
    Words {
        words: &[
            "land",
            "serve",
            "--file=x",
            "--port=8080",
            "--at-once=02",
            "--connections=5",
        ],
        command: Command::Serve {
            file: "x",
            port: 8080,
            connections: 5,
            at_once: 2,
        },
    },
];

/// Arguments that are refused, and the beginning of the message of `clap`.
struct Refused {
    words: &'static [&'static str],
    text: &'static str,
}

const REFUSED: &[Refused] = &[
    Refused {
        words: &[],
        text: "error: 'land' requires a subcommand but one was not provided\n",
    },
    Refused {
        words: &["land"],
        text: "error: 'land' requires a subcommand but one was not provided\n",
    },
    Refused {
        words: &["land", ""],
        text: "error: unrecognized subcommand ''\n",
    },
    Refused {
        words: &["land", "Talk", "--clock", "1000"],
        text: "error: unrecognized subcommand 'Talk'\n",
    },
    Refused {
        words: &["land", "help"],
        text: "error: unrecognized subcommand 'help'\n",
    },
    Refused {
        words: &["land", "--clock", "1000", "talk"],
        text: "error: unexpected argument '--clock' found\n",
    },
    Refused {
        words: &["land", "--version"],
        text: "error: unexpected argument '--version' found\n",
    },
    Refused {
        words: &["land", "talk"],
        text: "error: the following required arguments were not provided:\n  --clock <MS>\n",
    },
    Refused {
        words: &["land", "talk", "--clock"],
        text: "error: a value is required for '--clock <MS>' but none was supplied\n",
    },
    Refused {
        words: &["land", "talk", "--clock", "1000", "1000"],
        text: "error: unexpected argument '1000' found\n",
    },
    Refused {
        words: &["land", "talk", "--clock", "1000", "--clock", "1000"],
        text: "error: the argument '--clock <MS>' cannot be used multiple times\n",
    },
    Refused {
        words: &["land", "talk", "--clock=1000", ""],
        text: "error: unexpected argument '' found\n",
    },
    Refused {
        words: &["land", "talk", "--Clock", "1000"],
        text: "error: unexpected argument '--Clock' found\n",
    },
    Refused {
        words: &["land", "talk", "clock", "1000"],
        text: "error: unexpected argument 'clock' found\n",
    },
    Refused {
        words: &["land", "talk", "--clock", "1000", "--file", "a"],
        text: "error: unexpected argument '--file' found\n",
    },
    Refused {
        words: &["land", "talk", "--clock", "-1"],
        text: "error: unexpected argument '-1' found\n",
    },
    Refused {
        words: &["land", "talk", "--clock=-1"],
        text: "error: invalid value '-1' for '--clock <MS>': -1 is not in 0..=4102444799999\n",
    },
    Refused {
        words: &["land", "talk", "--clock", "4102444800000"],
        text: "error: invalid value '4102444800000' for '--clock <MS>': 4102444800000 is not in 0..=4102444799999\n",
    },
    Refused {
        words: &["land", "talk", "--clock", "99999999999999999999"],
        text: "error: invalid value '99999999999999999999' for '--clock <MS>': ",
    },
    Refused {
        words: &["land", "talk", "--clock", ""],
        text: "error: invalid value '' for '--clock <MS>': ",
    },
    Refused {
        words: &["land", "talk", "--clock="],
        text: "error: invalid value '' for '--clock <MS>': ",
    },
    Refused {
        words: &["land", "talk", "--clock", "1.0"],
        text: "error: invalid value '1.0' for '--clock <MS>': ",
    },
    Refused {
        words: &["land", "talk", "--clock", "1 "],
        text: "error: invalid value '1 ' for '--clock <MS>': ",
    },
    Refused {
        words: &["land", "talk", "--clock", "1e3"],
        text: "error: invalid value '1e3' for '--clock <MS>': ",
    },
    Refused {
        words: &["land", "talk", "--clock", "x"],
        text: "error: invalid value 'x' for '--clock <MS>': ",
    },
    Refused {
        words: &["land", "new"],
        text: "error: the following required arguments were not provided:\n  --file <FILE>\n",
    },
    Refused {
        words: &["land", "new", "--file"],
        text: "error: a value is required for '--file <FILE>' but none was supplied\n",
    },
    Refused {
        words: &["land", "new", "x"],
        text: "error: unexpected argument 'x' found\n",
    },
    Refused {
        words: &["land", "New", "--file", "x"],
        text: "error: unrecognized subcommand 'New'\n",
    },
    Refused {
        words: &["land", "check", "--file", "x", "--clock", "1000"],
        text: "error: unexpected argument '--clock' found\n",
    },
    Refused {
        words: &["land", "check", "--file", "x", "--file", "y"],
        text: "error: the argument '--file <FILE>' cannot be used multiple times\n",
    },
    Refused {
        words: &["land", "migrate"],
        text: "error: the following required arguments were not provided:\n  --file <FILE>\n",
    },
    Refused {
        words: &["land", "digest", "--at", "0"],
        text: "error: the following required arguments were not provided:\n  --file <FILE>\n",
    },
    Refused {
        words: &["land", "digest", "--file", "x", "--at"],
        text: "error: a value is required for '--at <MS>' but none was supplied\n",
    },
    Refused {
        words: &["land", "digest", "--file", "x", "--at=-1"],
        text: "error: invalid value '-1' for '--at <MS>': -1 is not in 0..=4102444799999\n",
    },
    Refused {
        words: &["land", "digest", "--file", "x", "--at", "4102444800000"],
        text: "error: invalid value '4102444800000' for '--at <MS>': 4102444800000 is not in 0..=4102444799999\n",
    },
    Refused {
        words: &["land", "digest", "--file", "x", "--clock", "1000"],
        text: "error: unexpected argument '--clock' found\n",
    },
    Refused {
        words: &["land", "serve", "--file", "x"],
        text: "error: the following required arguments were not provided:\n  --port <PORT>\n  --connections <COUNT>\n",
    },
    Refused {
        words: &[
            "land",
            "serve",
            "--file",
            "x",
            "--port",
            "0",
            "--connections",
            "1",
        ],
        text: "error: invalid value '0' for '--port <PORT>': 0 is not in 1..=65535\n",
    },
    Refused {
        words: &[
            "land",
            "serve",
            "--file",
            "x",
            "--port",
            "65536",
            "--connections",
            "1",
        ],
        text: "error: invalid value '65536' for '--port <PORT>': 65536 is not in 1..=65535\n",
    },
    Refused {
        words: &[
            "land",
            "serve",
            "--file",
            "x",
            "--port",
            "8080",
            "--connections",
            "0",
        ],
        text: "error: invalid value '0' for '--connections <COUNT>': 0 is not in 1..=1000000\n",
    },
    Refused {
        words: &[
            "land",
            "serve",
            "--file",
            "x",
            "--port",
            "8080",
            "--connections",
            "1000001",
        ],
        text: "error: invalid value '1000001' for '--connections <COUNT>': 1000001 is not in 1..=1000000\n",
    },
    Refused {
        words: &[
            "land",
            "serve",
            "--file",
            "x",
            "--port",
            "8080",
            "--connections",
            "1",
            "--at-once",
            "0",
        ],
        text: "error: invalid value '0' for '--at-once <LIMIT>': 0 is not in 1..=1024\n",
    },
    Refused {
        words: &[
            "land",
            "serve",
            "--file",
            "x",
            "--port",
            "8080",
            "--connections",
            "1",
            "--at-once",
            "1025",
        ],
        text: "error: invalid value '1025' for '--at-once <LIMIT>': 1025 is not in 1..=1024\n",
    },
    Refused {
        words: &[
            "land",
            "serve",
            "--file",
            "x",
            "--port",
            "8080",
            "--connections",
            "1",
            "--at-once",
            "many",
        ],
        text: "error: invalid value 'many' for '--at-once <LIMIT>': ",
    },
    Refused {
        words: &[
            "land",
            "serve",
            "--file",
            "x",
            "--port",
            "8080",
            "--connections",
            "1",
            "--at-once=-1",
        ],
        text: "error: invalid value '-1' for '--at-once <LIMIT>': -1 is not in 1..=1024\n",
    },
    Refused {
        words: &[
            "land",
            "serve",
            "--file",
            "x",
            "--port",
            "8080",
            "--connections",
            "1",
            "--at-once",
        ],
        text: "error: a value is required for '--at-once <LIMIT>' but none was supplied\n",
    },
    Refused {
        words: &[
            "land",
            "serve",
            "--file",
            "x",
            "--port",
            "8080",
            "--connections",
            "1",
            "--at-once",
            "2",
            "--at-once",
            "2",
        ],
        text: "error: the argument '--at-once <LIMIT>' cannot be used multiple times\n",
    },
    Refused {
        words: &[
            "land",
            "serve",
            "--file",
            "x",
            "--port",
            "8080",
            "--at-once",
            "2",
        ],
        text: "error: the following required arguments were not provided:\n  --connections <COUNT>\n",
    },
    Refused {
        words: &["land", "check", "--file", "x", "--at-once", "2"],
        text: "error: unexpected argument '--at-once' found\n",
    },
];

/// Arguments that request help, and a part of the help.
const HELP: &[Refused] = &[
    Refused {
        words: &["land", "--help"],
        text: "Usage: land <COMMAND>\n",
    },
    Refused {
        words: &["land", "-h"],
        text: "Usage: land <COMMAND>\n",
    },
    Refused {
        words: &["land", "--help"],
        text: "  talk ",
    },
    Refused {
        words: &["land", "talk", "--help"],
        text: "Usage: land talk --clock <MS>\n",
    },
    Refused {
        words: &["land", "talk", "--help"],
        text: "--clock <MS>  What the clock always reads, in milliseconds since 1970 UTC, 0 to 4102444799999\n",
    },
    Refused {
        words: &["land", "talk", "--clock", "1000", "-h"],
        text: "Usage: land talk --clock <MS>\n",
    },
    Refused {
        words: &["land", "--help"],
        text: "  serve ",
    },
    Refused {
        words: &["land", "--help"],
        text: "\n\nMore on a command, with an example: land COMMAND --help\n",
    },
    Refused {
        words: &["land", "new", "--help"],
        text: "Usage: land new --file <FILE>\n",
    },
    Refused {
        words: &["land", "serve", "--help"],
        text: "Usage: land serve [OPTIONS] --file <FILE> --port <PORT> --connections <COUNT>\n",
    },
    Refused {
        words: &["land", "serve", "--help"],
        text: "--at-once <LIMIT>      How many connections to answer at the same time, 1 to 1024; if it is left out, 1\n",
    },
    Refused {
        words: &["land", "--help"],
        text: "--connections <COUNT> [--at-once <LIMIT>]\n",
    },
    Refused {
        words: &["land", "serve", "--help"],
        text: "The port to listen on, 1 to 65535\n",
    },
    Refused {
        words: &["land", "serve", "-h"],
        text: "\n\nExample: land serve --file town.land --port 8080 --connections 1000\n",
    },
    Refused {
        words: &["land", "check", "--help"],
        text: "Usage: land check --file <FILE>\n",
    },
    Refused {
        words: &["land", "migrate", "--help"],
        text: "Usage: land migrate --file <FILE>\n",
    },
    Refused {
        words: &["land", "--help"],
        text: "  migrate  --file <FILE>\n",
    },
    Refused {
        words: &["land", "digest", "--help"],
        text: "Usage: land digest [OPTIONS] --file <FILE>\n",
    },
    Refused {
        words: &["land", "digest", "--help"],
        text: "--at <MS>      The moment up to which the history counts, in milliseconds since 1970 UTC, 0 to 4102444799999; if it is left out, all of it\n",
    },
    Refused {
        words: &["land", "--help"],
        text: "  digest   --file <FILE> [--at <MS>]\n",
    },
];

/// Returns the arguments as the system passes them.
fn strings(alloc: Global, row: &[&str]) -> Result<Vec<String>, AllocError> {
    let mut words = Vec::new(alloc);
    for word in row {
        words.push(String::from_str(alloc, word)?)?;
    }
    Ok(words)
}

/// Checks if arguments are read as this command.
fn name(alloc: Global, words: &[String], command: Command<'_>) -> Result<bool, AllocError> {
    match read_words(alloc, words) {
        Ok(found) => Ok(found == command),
        Err(WordsFault::NoMemory) => Err(AllocError),
        Err(WordsFault::Refused(_)) => Ok(false),
    }
}

/// Checks if arguments are read as the command of their row.
fn is_named(alloc: Global, row: &Words) -> Result<bool, AllocError> {
    let words = strings(alloc, row.words)?;
    name(alloc, &words, row.command)
}

#[test]
fn words_name_their_command(rt: HostRuntime) -> Result<(), Fail> {
    for (place, row) in WORDS.iter().enumerate() {
        assert!(rt; is_named(rt.alloc(), row)?, "row {place}");
    }
    Ok(())
}

/// Returns the message by which arguments are refused; none if they are a command.
fn refusal(alloc: Global, words: &[String]) -> Result<Option<String>, AllocError> {
    match read_words(alloc, words) {
        Ok(_) => Ok(None),
        Err(WordsFault::NoMemory) => Err(AllocError),
        Err(WordsFault::Refused(text)) => Ok(Some(text)),
    }
}

/// Returns the message for the arguments of a row.
fn refusal_of(alloc: Global, row: &Refused) -> Result<Option<String>, AllocError> {
    let words = strings(alloc, row.words)?;
    refusal(alloc, &words)
}

/// Checks if the message by which arguments are refused begins with that of their row.
fn is_refused(alloc: Global, row: &Refused) -> Result<bool, AllocError> {
    match refusal_of(alloc, row)? {
        Some(text) => Ok(text.as_str().starts_with(row.text)),
        None => Ok(false),
    }
}

#[test]
fn other_words_are_refused(rt: HostRuntime) -> Result<(), Fail> {
    for (place, row) in REFUSED.iter().enumerate() {
        assert!(rt; is_refused(rt.alloc(), row)?, "row {place}");
    }
    Ok(())
}

/// Checks if that message contains the part of their row.
fn is_helped(alloc: Global, row: &Refused) -> Result<bool, AllocError> {
    match refusal_of(alloc, row)? {
        Some(text) => Ok(text.as_str().contains(row.text)),
        None => Ok(false),
    }
}

#[test]
fn help_is_a_refusal(rt: HostRuntime) -> Result<(), Fail> {
    for (place, row) in HELP.iter().enumerate() {
        assert!(rt; is_helped(rt.alloc(), row)?, "row {place}");
    }
    Ok(())
}
