//! The commands.

/// A command, with the names and numbers that it was given.
#[derive(Clone, Copy)]
pub enum Command<'a> {
    /// Prints the unsafe list of an image.
    Inspect {
        image: &'a str,
    },
    /// Prints the instructions of an image.
    Disasm {
        image: &'a str,
    },
    /// Runs an image, saves the journal of the run, and prints its report.
    Run {
        image: &'a str,
        journal: &'a str,
        /// By how many workers, from 1 to 8.
        workers: u8,
        /// For at most how many steps, from 1 to 4,194,304.
        steps: u32,
        /// With at most how many mapped pages, from 64 to 4,096.
        frames: u32,
    },
    /// Runs an image by a journal, and prints the report.
    Replay {
        image: &'a str,
        journal: &'a str,
    },
    /// Saves an image in which no sequence is unsafe, rewritten from another.
    Rewrite {
        image: &'a str,
        out: &'a str,
    },
    /// Saves the image that is made from a seed.
    Gen {
        seed: u64,
        out: &'a str,
    },
    /// Runs the image that is made from a seed, saves the journal of the run, and prints its line.
    Soak {
        seed: u64,
        journal: &'a str,
    },
}
