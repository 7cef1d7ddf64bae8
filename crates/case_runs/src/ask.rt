use super::disks::Faults;
use std::alloc::Global;

/// A run, and what is expected of it, as its lines are gathered.
#[derive(Drop)]
pub struct Ask {
    pub words: Vec<String>,
    pub input: Vec<u8>,
    /// How many lines the input has, where answers have numbers in front.
    pub lines: Option<u64>,
    pub pieces: Vec<u64>,
    pub source_fails: Vec<u64>,
    pub sink_fails: Vec<u64>,
    pub notes: Faults,
    pub leaves: Faults,
    pub crash: Option<String>,
    pub want: Wanted,
}

/// What is expected of a run. What is left out may be anything.
#[derive(Drop)]
pub struct Wanted {
    pub status: u8,
    pub lines: Vec<String>,
    /// The length of what is written, and its SHA-256 in hex, in place of the lines.
    pub text: Option<String>,
    /// How many bytes stay in the source.
    pub left: Option<u64>,
    /// How many digests the run makes.
    pub digests: Option<u64>,
    pub notes: Option<String>,
    pub leaves: Option<String>,
}

impl Ask {
    /// A run of these words without input, which ends as `Done` and writes nothing.
    pub fn new(alloc: Global, words: Vec<String>, lines: Option<u64>) -> Ask {
        Ask {
            words,
            input: Vec::new(alloc),
            lines,
            pieces: Vec::new(alloc),
            source_fails: Vec::new(alloc),
            sink_fails: Vec::new(alloc),
            notes: Faults::none(alloc),
            leaves: Faults::none(alloc),
            crash: None,
            want: Wanted {
                status: 0,
                lines: Vec::new(alloc),
                text: None,
                left: None,
                digests: None,
                notes: None,
                leaves: None,
            },
        }
    }
}

/// The exit status of this name.
pub fn status_of(name: &str) -> Option<u8> {
    let names = [
        "Done",
        "Refused",
        "Usage",
        "BadLine",
        "ReadFault",
        "WriteFault",
        "DeviceFault",
        "NoMemory",
        "TooLong",
        "NotJournal",
        "AlreadyMade",
    ];
    let mut code = 0u8;
    for known in names {
        if known == name {
            return Some(code);
        }
        code = code.saturating_add(1);
    }
    None
}
