// The marks of turns.
ghost use Rattle.std.specs.Prelude.{◌≡◌};
ghost use Rattle.board.specs.Turns.{turn_word};

use board::Turn;

/// The mark of a turn.
pub fn turn_mark(turn: Turn) -> &'static str
    ensures { result.now ≡ turn_word turn }
{
    match turn {
        Turn::Arm => "a",
        Turn::Person => "p",
    }
}
