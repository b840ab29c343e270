//! The words of the command line.

ghost use Rattle.std.specs.Prelude.{◌≡◌, [], ◌∷◌, map, string_bytes};
ghost use Rattle.std.specs.Option.{option_map};
ghost use Rattle.cb_model.specs.Commands.{budget_of, number_upto, nodes_of, command_of};
ghost use Rattle.cb_lines.specs.Words.{command_view, nodes_view, digit_upto};

/// A budget of nodes: so many at most, or as many as memory holds.
#[derive(Clone, Copy, PartialEq, Eq, Debug)]
pub enum Nodes {
    Max,
    Only(u32),
}

impl Nodes {
    /// The budget of a store; the greatest number never stops it.
    pub fn budget(self) -> usize
        ensures { result ≡ budget_of (nodes_view self) }
    {
        match self {
            Nodes::Max => usize::MAX,
            Nodes::Only(most) => most as usize,
        }
    }
}

/// A command with its words.
#[derive(Clone, Copy)]
pub enum Command<'w> {
    Check {
        file: &'w str,
    },
    Run {
        file: &'w str,
        resolutions: u32,
        nodes: Nodes,
    },
    Verify {
        file: &'w str,
        name: &'w str,
        nodes: Nodes,
    },
    Same {
        file: &'w str,
        one: &'w str,
        two: &'w str,
        nodes: Nodes,
    },
    Make {
        bits: u32,
        nodes: Nodes,
    },
}

// A decimal number without sign or leading zeros, from 1 to a limit.
fn number_up_to(limit: u32, word: &str) -> Option<u32>
    ensures { result ≡ number_upto limit word.now }
{
    let bytes = word.as_bytes();
    if bytes.is_empty() || bytes[0] == b'0' {
        return None;
    }
    let mut value = 0;
    for byte in bytes {
        value = with_digit(limit, value, *byte)?;
    }
    Some(value)
}

// The number with one digit more behind it, where this is a digit and the number is within the limit.
fn with_digit(limit: u32, value: u32, byte: u8) -> Option<u32>
    ensures { result ≡ digit_upto limit value byte }
{
    if !byte.is_ascii_digit() {
        return None;
    }
    let more = 10 * (value as u64) + (byte - b'0') as u64;
    if more <= limit as u64 {
        Some(more as u32)
    } else {
        None
    }
}

// A number of nodes, or `max`.
fn nodes_in(word: &str) -> Option<Nodes>
    ensures { option_map nodes_view result ≡ nodes_of word.now }
{
    if word == "max" {
        return Some(Nodes::Max);
    }
    let most = number_up_to(16777216, word)?;
    Some(Nodes::Only(most))
}

/// The command that the words name, where they have one of the five forms.
pub fn command_in(words: &[String]) -> Option<Command<'_>>
    ensures { option_map command_view result ≡ command_of (map string_bytes words.now) }
{
    match words {
        [verb, file] => check(verb.as_str(), file.as_str()),
        [verb, bits, most] => make(verb.as_str(), bits.as_str(), most.as_str()),
        [verb, file, second, most] => run_or_verify(
            verb.as_str(),
            file.as_str(),
            second.as_str(),
            most.as_str(),
        ),
        [verb, file, one, two, most] => same(
            verb.as_str(),
            file.as_str(),
            one.as_str(),
            two.as_str(),
            most.as_str(),
        ),
        _ => None,
    }
}

fn check<'w>(verb: &str, file: &'w str) -> Option<Command<'w>>
    ensures { option_map command_view result ≡ command_of (verb.now ∷ file.entry.now ∷ []) }
{
    if verb == "check" {
        Some(Command::Check { file })
    } else {
        None
    }
}

fn make<'w>(verb: &str, bits: &'w str, most: &'w str) -> Option<Command<'w>>
    ensures { option_map command_view result ≡ command_of (verb.now ∷ bits.entry.now ∷ most.entry.now ∷ []) }
{
    if verb != "make" {
        return None;
    }
    let bits = number_up_to(64, bits)?;
    let nodes = nodes_in(most)?;
    Some(Command::Make { bits, nodes })
}

fn run_or_verify<'w>(verb: &str, file: &'w str, second: &'w str, most: &str) -> Option<Command<'w>>
    ensures { option_map command_view result ≡ command_of (verb.now ∷ file.entry.now ∷ second.entry.now ∷ most.now ∷ []) }
{
    if verb == "run" {
        let resolutions = number_up_to(10000000, second)?;
        let nodes = nodes_in(most)?;
        return Some(Command::Run {
            file,
            resolutions,
            nodes,
        });
    }
    if verb != "verify" {
        return None;
    }
    let nodes = nodes_in(most)?;
    Some(Command::Verify {
        file,
        name: second,
        nodes,
    })
}

fn same<'w>(
    verb: &str,
    file: &'w str,
    one: &'w str,
    two: &'w str,
    most: &str,
) -> Option<Command<'w>>
    ensures { option_map command_view result ≡ command_of (verb.now ∷ file.entry.now ∷ one.entry.now ∷ two.entry.now ∷ most.now ∷ []) }
{
    if verb != "same" {
        return None;
    }
    let nodes = nodes_in(most)?;
    Some(Command::Same {
        file,
        one,
        two,
        nodes,
    })
}
