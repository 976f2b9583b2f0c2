// A board with its tasks joined, copied flat.
ghost use Rattle.std.specs.Prelude.{◌≡◌};
ghost use Rattle.table.specs.Meaning.{board_of, table_meaning};
ghost use Rattle.load.specs.Joins.{FlatJoin, JoinedTables};

use crate::parts::LoadError;
use crate::tables::Tables;
use automaton::Automaton;
use board::Board;
use flat::FlatBoard;
use joined::join;
use rules::Rules;
use std::alloc::Global;
use table::TableBoard;
use task::Task;
use twice::room_for_both;

// A flat copy of a board with one task joined to it and then another.
fn flat_join<B: Board, T: Task, U: Task>(
    heap: Global,
    board: &B,
    first: &T,
    second: &U,
) -> Result<FlatBoard, LoadError>
    ensures { FlatJoin (B.Board.meaning board.now) (T.Task.meaning first.now) (U.Task.meaning second.now) result }
{
    room_for_both(board, first, second)?;
    Ok(FlatBoard::copy(heap, &join(&join(board, first), second))?)
}

impl Tables {
    /// The board of the positions and the moves.
    pub fn board(&self) -> TableBoard<'_>
        ensures { table_meaning result ≡ board_of self.now.positions.items self.now.moves.items self.now.start.position }
    {
        TableBoard::over(
            self.positions.as_slice(),
            self.moves.as_slice(),
            self.start.position,
        )
    }

    /// A flat copy of the board, with the automaton and then the rules joined to it.
    /// A join of more than 4,096 positions is refused.
    pub fn joined(&self, heap: Global) -> Result<FlatBoard, LoadError>
        ensures { JoinedTables self.now result }
    {
        let automaton = Automaton::over(self.states.as_slice(), self.arrows.as_slice())?;
        let rules = Rules::over(self.rules.as_slice())?;
        flat_join(heap, &self.board(), &automaton, &rules)
    }
}
