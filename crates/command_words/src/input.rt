// What the words name, or why they name nothing.
use std::alloc::AllocError;

/// What is read.
#[derive(Debug, Drop)]
pub enum Input {
    /// The file with this name.
    File(String),
    /// The text of the stored game with this name.
    Game(String),
    /// The generated text of so many questions.
    Generated(u32),
}

/// Why no input is named.
#[derive(Clone, Copy, Debug, PartialEq, Eq, Drop)]
pub enum NoInput {
    /// The words are refused.
    Usage,
    /// Memory was wanting.
    NoMemory,
}

impl From<AllocError> for NoInput {
    ghost use Rattle.std.specs.Prelude.{◌≡◌};
    ghost use Rattle.command_words.specs.declared.input.NoInput.TheVariants.{NoMemory};

    ghost from_gives = { λ _ r. r ≡ NoMemory };

    fn from(_: AllocError) -> Self {
        NoInput::NoMemory
    }
}
