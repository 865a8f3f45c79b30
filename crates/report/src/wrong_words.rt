//! The messages on arguments that set no options.

use report_answers::{BadWord, Flag};
use std::alloc::{AllocError, Global};
use std::io;
use strsim::levenshtein;

/// The options that ask about the program itself.
const ABOUT_ITSELF: [&str; 2] = ["--help", "--version"];

/// The kinds of accesses with a policy of their own.
const KINDS: &str = "`index`, `buffer`, `image_load` and `binding_array`";

/// The policies.
const POLICIES: &str = "`Restrict`, `ReadZeroSkipWrite` and `Unchecked`";

/// Prints what is wrong with an argument: it is no option, or an argument before it has set the same thing.
pub fn say_bad_word(rt: &impl Eprint, alloc: Global, words: &[String], bad: BadWord) {
    let _ = match bad {
        BadWord::Unknown(index) => say_unknown(rt, alloc, word_at(words, index)),
        BadWord::Twice(index) => say_twice(rt, words, word_at(words, index)),
    };
}

/// Returns the argument at an index.
fn word_at(words: &[String], index: usize) -> &str {
    match words.get(index) {
        Some(word) => word.as_str(),
        None => "",
    }
}

/// Prints that an argument sets what one before it has set.
fn say_twice(rt: &impl Eprint, words: &[String], word: &str) -> io::Result<()> {
    let before = first_setting_same(words, word);
    if before == word {
        eprintln!(rt; "report: `{word}` stands twice")
    } else {
        eprintln!(rt; "report: `{word}` contradicts `{before}` before it")
    }
}

/// Returns the first argument that sets what another one sets, or an empty text.
fn first_setting_same<'a>(words: &'a [String], word: &str) -> &'a str {
    let Some(flag) = Flag::from_word(word.as_bytes()) else {
        return "";
    };
    for earlier in words {
        if let Some(other) = Flag::from_word(earlier.as_bytes()) {
            if other.sets_same(flag) {
                return earlier.as_str();
            }
        }
    }
    ""
}

/// Prints that an argument is no option: by its form it is a misspelled one, sets no policies, or is a file.
fn say_unknown(rt: &impl Eprint, alloc: Global, word: &str) -> io::Result<()> {
    if word.starts_with('-') {
        say_no_option(rt, alloc, word)
    } else if word.contains('=') {
        say_no_policies(rt, word)
    } else {
        eprintln!(rt; "report: `{word}` is no option; the module is read from standard input")
    }
}

/// Prints what is wrong with an option: its value, that it has one or none, or its name.
fn say_no_option(rt: &impl Eprint, alloc: Global, word: &str) -> io::Result<()> {
    let (name, value) = match word.split_once('=') {
        Some((name, value)) => (name, Some(value)),
        None => (word, None),
    };
    if let Some(values) = values_of(name) {
        return match value {
            Some(value) => eprintln!(rt;
                "report: `{name}` takes no value `{value}`: values are {values}"
            ),
            None => eprintln!(rt; "report: `{name}` needs a value: values are {values}"),
        };
    }
    if name == "--bounds-checks" {
        return eprintln!(rt;
            "report: `{name}` takes no value; policies stand by themselves, as `index=Restrict`"
        );
    }
    if is_option(name) {
        return eprintln!(rt; "report: `{name}` takes no value");
    }
    match nearest(alloc, name) {
        Ok(Some(option)) => eprintln!(rt;
            "report: `{name}` is no option; did you mean `{option}`?"
        ),
        _ => eprintln!(rt; "report: `{name}` is no option"),
    }
}

/// Returns the values of an option that takes one.
fn values_of(name: &str) -> Option<&'static str> {
    match name {
        "--format" => Some("`text` and `json`"),
        "--uniformity" => Some("`wgsl`, `naga` and `off`"),
        "--non-uniform-indexing" => {
            Some("`textures`, `storage-textures` and `textures,storage-textures`")
        }
        _ => None,
    }
}

/// Returns the name of the option that a flag is, without its value.
fn name_of(flag: Flag) -> &'static str {
    let word = flag.word();
    match word.split_once('=') {
        Some((name, _)) => name,
        None => word,
    }
}

/// Returns whether this is the name of an option.
fn is_option(name: &str) -> bool {
    for flag in Flag::ALL.iter().copied() {
        if name_of(flag) == name {
            return true;
        }
    }
    ABOUT_ITSELF.contains(&name)
}

/// Returns the option whose name differs least from a name, the first of several, if at most a third of the letters differ.
fn nearest(alloc: Global, name: &str) -> Result<Option<&'static str>, AllocError> {
    let mut found = (None, (name.chars().count() / 3).saturating_add(1));
    for flag in Flag::ALL.iter().copied() {
        found = nearer(alloc, name, found, name_of(flag))?;
    }
    for option in ABOUT_ITSELF {
        found = nearer(alloc, name, found, option)?;
    }
    Ok(found.0)
}

/// Returns this option with its distance to a name if that is less than the distance found so far, and what was found otherwise.
fn nearer(
    alloc: Global,
    name: &str,
    found: (Option<&'static str>, usize),
    option: &'static str,
) -> Result<(Option<&'static str>, usize), AllocError> {
    let distance = levenshtein(alloc, name, option)?;
    if distance < found.1 {
        Ok((Some(option), distance))
    } else {
        Ok(found)
    }
}

/// Prints the first part of an argument that sets no policy of bounds checks.
fn say_no_policies(rt: &impl Eprint, word: &str) -> io::Result<()> {
    for part in word.split(',') {
        match part.split_once('=') {
            None => return eprintln!(rt;
                "report: `{part}` is no policy of a kind, as `index=Restrict`"
            ),
            Some((kind, policy)) => {
                if !is_kind(kind) {
                    return eprintln!(rt;
                        "report: `{kind}` is no kind of access: kinds are {KINDS}"
                    );
                }
                if !is_policy(policy) {
                    return eprintln!(rt;
                        "report: `{kind}` takes no policy `{policy}`: policies are {POLICIES}"
                    );
                }
            }
        }
    }
    eprintln!(rt; "report: `{word}` sets no policies")
}

/// Returns whether this is a kind of access.
fn is_kind(word: &str) -> bool {
    matches!(word, "index" | "buffer" | "image_load" | "binding_array")
}

/// Returns whether this is a policy.
fn is_policy(word: &str) -> bool {
    matches!(word, "Restrict" | "ReadZeroSkipWrite" | "Unchecked")
}
