//! What a command answers.

ghost use Rattle.std.specs.Prelude.{◌≡◌};
ghost use Rattle.erim_commands.specs.Statuses.{code_of};

/// How the program ends where nothing failed and memory sufficed.
#[derive(Clone, Copy, PartialEq, Eq)]
pub enum Status {
    /// The command did its work.
    Done = 0,
    /// It did, and the unsafe list isn't empty, or the process ended by a fault or for a refused
    /// page.
    AtFault = 1,
    /// The words mean no command.
    NotUnderstood = 2,
    /// The image is too large, isn't accepted, or can't start.
    ImageRefused = 3,
    /// The journal is too large, isn't one, or its steps can't all be made.
    JournalRefused = 6,
    /// The process hasn't ended, and its budget is spent.
    Spent = 7,
    /// The image can't be rewritten.
    RewriteRefused = 8,
}

/// The program's answer where the words mean no command.
pub const NOT_UNDERSTOOD: u8 = 2;

/// The program's answer where a load, a save or a put failed.
pub const FAILED: u8 = 4;

/// The program's answer where memory ran out.
pub const OUT_OF_MEMORY: u8 = 5;

/// The program's answer at a status.
pub fn code_of(status: Status) -> u8
    ensures { result ≡ code_of status }
{
    status as u8
}

/// A file to save.
#[derive(Drop)]
pub struct Save<'a> {
    pub name: &'a str,
    pub bytes: Vec<u8>,
}

/// A command's status, its text and the file that it saves before.
#[derive(Drop)]
pub struct Reply<'a> {
    pub status: Status,
    pub text: Vec<u8>,
    pub save: Option<Save<'a>>,
}
