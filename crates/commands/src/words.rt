//! Parsing the words after the program's name.
ghost use Rattle.std.specs.Prelude.{◌≡◌, map, option_map, string_bytes};
ghost use Rattle.commands.specs.Words.{command_of, command_view, kind_of, paths_of, question_of, request_view, roots_of};

/// A question: the answer of the rules in a text, relative to a root, for a path that is a
/// directory or not.
#[derive(Clone, Copy)]
pub struct Request<'w> {
    /// The root.
    pub root: &'w str,
    /// The lines of the rules.
    pub rules: &'w str,
    /// The path.
    pub path: &'w str,
    /// Whether the path is a directory.
    pub is_dir: bool,
}

/// A command, and what it is about.
#[derive(Clone, Copy)]
pub enum Command<'w> {
    /// `match ROOT RULES PATH d|f`: a question.
    Match(Request<'w>),
    /// `list ROOT..`: the roots, of which there are some.
    List(&'w [String]),
    /// `check ROOT PATH..`: a root and the paths below it, of which there are some.
    Check(&'w str, &'w [String]),
}

/// The command in the words; `None` for wrong arguments.
pub fn read_command(words: &[String]) -> Option<Command<'_>>
    ensures { option_map command_view result ≡ command_of (map string_bytes words.now) }
{
    let (name, rest) = words.split_first()?;
    match name.as_str() {
        "match" => Some(Command::Match(read_request(rest)?)),
        "list" => Some(Command::List(read_roots(rest)?)),
        "check" => {
            let (root, paths) = read_paths(rest)?;
            Some(Command::Check(root, paths))
        }
        _ => None,
    }
}

/// The question in the words of `match`; `None` for wrong arguments.
fn read_request(words: &[String]) -> Option<Request<'_>>
    ensures { option_map request_view result ≡ question_of (map string_bytes words.now) }
{
    match words {
        [root, rules, path, kind] => {
            let is_dir = kind_of(kind.as_str())?;
            Some(Request {
                root: root.as_str(),
                rules: rules.as_str(),
                path: path.as_str(),
                is_dir,
            })
        }
        _ => None,
    }
}

/// The roots in the words of `list`; `None` without roots.
fn read_roots(words: &[String]) -> Option<&[String]>
    ensures { option_map (λ roots. map string_bytes roots.now) result ≡ roots_of (map string_bytes words.now) }
{
    if words.is_empty() { None } else { Some(words) }
}

/// The root and the paths in the words of `check`; `None` without paths.
fn read_paths(words: &[String]) -> Option<(&str, &[String])>
    ensures { option_map (λ r. (r.0.now, map string_bytes r.1.now)) result ≡ paths_of (map string_bytes words.now) }
{
    let (root, paths) = words.split_first()?;
    if paths.is_empty() {
        None
    } else {
        Some((root.as_str(), paths))
    }
}

/// Whether the word means a directory; `None` for other words than `d` and `f`.
fn kind_of(word: &str) -> Option<bool>
    ensures { result ≡ kind_of word.now }
{
    match word {
        "d" => Some(true),
        "f" => Some(false),
        _ => None,
    }
}
