// The next cell of one position, from the cells of the round before.
ghost use Rattle.std.specs.Prelude.{◌≡◌, suc, ◌<◌, ◌≤◌, length};
ghost use Rattle.board.specs.Table.{row_at};
ghost use Rattle.game.specs.Plays.{degree, move_of};
ghost use Rattle.game.specs.Rounds.{value_through};
ghost use Rattle.cells.specs.Leads.{Leads};
ghost use Rattle.cells.specs.Written.{Holds, round_cell, values_of};

use board::{Board, Turn};
use cells::{
    Cell, Lead, better, degree_at, not_above, read, rests_at, step_at, through, turn_at, write,
};
use cost::Cost;

// A board, and a list with the cells of its positions.
#[derive(Drop)]
pub(crate) struct Round<'a, B: Board> {
    pub(crate) board: &'a B,
    pub(crate) cells: &'a [Cell],
    ghost room: { length (B.meaning board.now).rows ≤ length cells.now },
}

// kept: `p` is below the count in each contract, since it is a plain number of the loop that asks.
impl<'a, B: Board> Round<'a, B> {
    // The value through move `m` of `p`.
    fn move_value<C: Cost>(&self, p: u32, m: u32) -> Option<C>
        requires { (p < length (B.meaning self.now.board.now).rows) × (m < degree (B.meaning self.now.board.now) p) }
        ensures { result ≡ value_through C.kind (values_of C.kind (length (B.meaning self.now.board.now).rows) self.now.cells.now) (move_of (B.meaning self.now.board.now) p m) }
    {
        let step = step_at(self.board, p, m);
        through::<C>(step, self.cells[step.target as usize].cost)
    }

    // The best value among the moves of `p`, and the lowest move that has it.
    fn best_move<C: Cost>(&self, p: u32) -> Lead<C>
        requires { p < length (B.meaning self.now.board.now).rows }
        ensures { Leads C.kind (values_of C.kind (length (B.meaning self.now.board.now).rows) self.now.cells.now) (row_at (B.meaning self.now.board.now) p) result }
    {
        let turn = turn_at(self.board, p);
        let degree = degree_at(self.board, p);
        if degree == 0 {
            return Lead {
                value: None,
                choice: None,
            };
        }
        let first = self.move_value::<C>(p, 0);
        let mut lead = Lead {
            value: first,
            choice: Some(0),
        };
        // kept: a loop: a fold over `1..degree` proves, but a program with it (and `map` in `read`) took about a fifth longer
        for m in 1..degree {
            let value = self.move_value::<C>(p, m);
            if better(turn, value, lead.value) {
                lead = Lead {
                    value,
                    choice: Some(m),
                };
            }
        }
        lead
    }

    // The cell of `p` after round `n + 1`, from the cells after round `n`.
    pub(crate) fn next_cell<C: Cost>(&self, p: u32, n: u32) -> Cell
        requires { (p < length (B.meaning self.now.board.now).rows) × ((n < 4294967295) × (Holds C.kind (B.meaning self.now.board.now) n self.now.cells.now)) }
        ensures { result ≡ round_cell C.kind (B.meaning self.now.board.now) (suc n) p }
    {
        let old = self.cells[p as usize];
        if rests_at(self.board, p) {
            return old;
        }
        let lead = self.best_move::<C>(p);
        if not_above(read::<C>(old.cost), lead.value) {
            match turn_at(self.board, p) {
                Turn::Arm => old,
                Turn::Person => Cell {
                    choice: lead.choice,
                    ..old
                },
            }
        } else {
            Cell {
                cost: write(lead.value),
                choice: lead.choice,
                round: n + 1,
            }
        }
    }
}
