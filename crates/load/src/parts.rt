// What loading a sheet answers.
ghost use Rattle.std.specs.Prelude.{◌≡◌, MatchResult};
ghost use Rattle.sheet_format.specs.Reading.{fault};
ghost use Rattle.load.specs.declared.parts.LoadError.TheVariants.{Refused, Memory};

use entries::Start;
use flat::FlatBoard;
use refusal::Refusal;
use sheet_format::Fault;
use std::alloc::AllocError;

/// The board of a sheet with its tasks joined, and the sheet's start line.
#[derive(Drop)]
pub struct Bench {
    pub board: FlatBoard,
    pub start: Start,
}

/// Why a sheet was not loaded.
#[derive(Debug, Drop)]
pub enum LoadError {
    /// The sheet is refused.
    Refused(Fault),
    /// There is no memory.
    Memory,
}

impl LoadError {
    /// The fault that refuses the sheet, or the want of memory.
    pub fn fault(self) -> Result<Fault, AllocError>
        ensures { MatchResult result (λ f. self ≡ Refused f) (λ _. self ≡ Memory) }
    {
        match self {
            LoadError::Refused(found) => Ok(found),
            LoadError::Memory => Err(AllocError),
        }
    }
}

impl From<AllocError> for LoadError {
    ghost from_gives = { λ _ e. e ≡ Memory };

    fn from(_error: AllocError) -> LoadError {
        LoadError::Memory
    }
}

impl From<Fault> for LoadError {
    ghost from_gives = { λ f e. e ≡ Refused f };

    fn from(fault: Fault) -> LoadError {
        LoadError::Refused(fault)
    }
}

/// A refusal of the sheet as a whole.
impl From<Refusal> for LoadError {
    ghost from_gives = { λ r e. e ≡ Refused (fault r 0 0) };

    fn from(refusal: Refusal) -> LoadError {
        LoadError::Refused(Fault::new(refusal, 0, 0))
    }
}
