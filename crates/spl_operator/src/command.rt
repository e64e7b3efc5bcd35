//! The words of a command line.
use crate::explain::Telling;

/// What the words ask for.
#[derive(Drop)]
pub(crate) enum Command<'a> {
    /// To serve a node over its files in a folder.
    Serve {
        registry: &'a String,
        node: &'a String,
        folder: &'a String,
        is_new: bool,
    },
    /// To ask the node that serves a folder the lines of standard input.
    AskLines {
        folder: &'a String,
    },
    /// To ask it one line, of these words.
    Ask {
        folder: &'a String,
        line: &'a [String],
    },
    /// To check a proof, which takes four words.
    Check {
        words: &'a [String],
    },
    /// To find the first bad line of a schedule.
    Lint {
        registry: &'a String,
        schedule: &'a String,
    },
    /// To ask the files in a folder one line, of these words.
    Look {
        registry: &'a String,
        folder: &'a String,
        line: &'a [String],
    },
    /// To say whether files in a folder are another node's than the registry's.
    Owners {
        registry: &'a String,
        folder: &'a String,
    },
    /// To tell what the answers on standard input say, and to leave the number of the last one in a file.
    Tell {
        telling: Telling,
        file: &'a String,
    },
    /// To tell what the node that serves a folder has.
    Status {
        folder: &'a String,
    },
}

// What the name of a command says that is made of answers.
fn telling_of(name: &str) -> Option<Telling> {
    match name {
        "explain" => Some(Telling::Lines),
        "explain-paxos" => Some(Telling::Rounds),
        "json" => Some(Telling::Objects),
        _ => None,
    }
}

impl<'a> Command<'a> {
    /// The command that the words behind the program's name are, if they are one.
    pub(crate) fn of(words: &'a [String]) -> Option<Command<'a>> {
        let (name, rest) = words.split_first()?;
        match (name.as_str(), rest) {
            ("serve", [registry, node, folder]) => Some(Command::Serve {
                registry,
                node,
                folder,
                is_new: false,
            }),
            ("serve", [registry, node, folder, last]) if last.as_str() == "new" => {
                Some(Command::Serve {
                    registry,
                    node,
                    folder,
                    is_new: true,
                })
            }
            ("ask", [folder]) => Some(Command::AskLines { folder }),
            ("ask", [folder, line @ ..]) => Some(Command::Ask { folder, line }),
            ("check", words) => Some(Command::Check { words }),
            ("lint", [registry, schedule]) => Some(Command::Lint { registry, schedule }),
            ("look", [registry, folder, _, ..]) => Some(Command::Look {
                registry,
                folder,
                line: &rest[2..],
            }),
            ("owners", [registry, folder]) => Some(Command::Owners { registry, folder }),
            ("status", [folder]) => Some(Command::Status { folder }),
            (name, [file]) => {
                let telling = telling_of(name)?;
                Some(Command::Tell { telling, file })
            }
            _ => None,
        }
    }
}
