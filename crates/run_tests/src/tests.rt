// A run by care over four positions, told every event in each state, on its own board and on others.
use board::Turn;
use cells::Cell;
use cost::Care;
use entries::{Move, PositionEntry};
use game::{Event, Phase, Progress};
use refusal::Refusal;
use run::{Answer, Run, Unbegun};
use session::{Ending, Note, Script, Served, Shown, serve};
use solve::solve;
use table::TableBoard;

// the board that is shown with an event: the plan's own; one of as many positions without moves; one of fewer
// positions; and one with the same moves where 0 is the person's turn, 1 the arm's, and 3 does not rest
#[derive(Clone, Copy)]
enum Board {
    Own,
    Bare,
    Small,
    Turned,
}

// the tables of these boards
#[derive(Clone, Copy)]
struct Tables {
    own: [PositionEntry; 4],
    bare: [PositionEntry; 4],
    small: [PositionEntry; 3],
    turned: [PositionEntry; 4],
    moves: [Move; 5],
    free_moves: [Move; 5],
}

impl Tables {
    fn new() -> Tables {
        Tables {
            own: [
                PositionEntry::new(Turn::Arm, false, 0, 0, 2),
                PositionEntry::new(Turn::Person, false, 0, 2, 2),
                PositionEntry::new(Turn::Arm, false, 0, 4, 1),
                PositionEntry::new(Turn::Arm, true, 0, 5, 0),
            ],
            bare: [PositionEntry::default(); 4],
            small: [PositionEntry::default(); 3],
            turned: [
                PositionEntry::new(Turn::Person, false, 0, 0, 2),
                PositionEntry::new(Turn::Arm, false, 0, 2, 2),
                PositionEntry::new(Turn::Arm, false, 0, 4, 1),
                PositionEntry::new(Turn::Arm, false, 0, 5, 0),
            ],
            moves: [
                Move::new(0, 1, 0, 3),
                Move::new(0, 3, 2, 1),
                Move::new(1, 2, 0, 0),
                Move::new(1, 3, 0, 0),
                Move::new(2, 3, 0, 4),
            ],
            // position 0 is a person's, so its moves are free
            free_moves: [
                Move::new(0, 1, 0, 0),
                Move::new(0, 3, 0, 0),
                Move::new(1, 2, 7, 8),
                Move::new(1, 3, 0, 0),
                Move::new(2, 3, 0, 4),
            ],
        }
    }

    fn board(&self, board: Board) -> TableBoard<'_> {
        match board {
            Board::Own => TableBoard::over(&self.own, &self.moves, 0),
            Board::Bare => TableBoard::over(&self.bare, &self.moves, 0),
            Board::Small => TableBoard::over(&self.small, &self.moves, 0),
            Board::Turned => TableBoard::over(&self.turned, &self.free_moves, 0),
        }
    }
}

// an event on a board, what is answered, and how far the run has come then
#[derive(Clone, Copy)]
struct Step {
    board: Board,
    event: Event,
    answer: Result<Answer, Refusal>,
    progress: Progress<(u32, u32)>,
}

fn progress(position: u32, spent: (u32, u32), made: u32, phase: Phase) -> Progress<(u32, u32)> {
    Progress {
        position,
        spent,
        made,
        phase,
    }
}

fn tell(
    board: Board,
    event: Event,
    answer: Result<Answer, Refusal>,
    progress: Progress<(u32, u32)>,
) -> Step {
    Step {
        board,
        event,
        answer,
        progress,
    }
}

// tells a run the event of a step on its board: whether the answer and the progress are those wanted
fn told(run: &mut Run<'_, Care>, tables: &Tables, step: Step) -> bool {
    let answer = run.tell(&tables.board(step.board), step.event);
    answer == step.answer && run.progress() == step.progress
}

// begins a run by care on a board with a budget of this energy, tells it the steps, and ends it; whether each came out as wanted
fn run_steps(first: Board, energy: u32, steps: &[Step]) -> Result<bool, Refusal> {
    let tables = Tables::new();
    let mut one = [Cell::default(); 4];
    let mut two = [Cell::default(); 4];
    let own = tables.board(Board::Own);
    // kept: a match; map_err was tried, and takes the lent cells into a closure, which gets no proof
    let plan = match solve::<_, Care>(&own, 0, energy, &mut one, &mut two) {
        Ok(plan) => plan,
        Err(unsolved) => return Err(unsolved.why),
    };
    match Run::begin(plan, &tables.board(first)) {
        Ok(mut run) => {
            let good = steps.iter().all(|step| told(&mut run, &tables, *step));
            let _ = run.end().close();
            Ok(good)
        }
        Err(Unbegun { why, plan }) => {
            let _ = plan.close();
            Err(why)
        }
    }
}

#[test]
fn every_event_in_each_state(rt: HostRuntime) {
    let at_0 = progress(0, (0, 0), 0, Phase::ArmTurn);
    let moving = progress(0, (0, 0), 0, Phase::Moving);
    let at_1 = progress(1, (0, 3), 1, Phase::PersonTurn);
    let at_2 = progress(2, (0, 3), 2, Phase::ArmTurn);
    let moving_2 = progress(2, (0, 3), 2, Phase::Moving);
    let at_3 = progress(3, (0, 7), 3, Phase::Ended);
    let unfit = Err(Refusal::UnfitEvent);
    let absent = Err(Refusal::NoSuchMove);
    let other = Err(Refusal::OtherCount);
    let ended = Err(Refusal::RunEnded);
    let steps = [
        tell(Board::Own, Event::There, unfit, at_0),
        tell(Board::Own, Event::Hand(0), unfit, at_0),
        tell(Board::Small, Event::Go, other, at_0),
        tell(Board::Small, Event::There, other, at_0),
        tell(Board::Bare, Event::Go, absent, at_0),
        tell(Board::Own, Event::Go, Ok(Answer::Begins(0)), moving),
        tell(Board::Own, Event::Go, unfit, moving),
        tell(Board::Own, Event::Hand(0), unfit, moving),
        tell(Board::Small, Event::There, other, moving),
        tell(Board::Bare, Event::There, absent, moving),
        tell(Board::Own, Event::There, Ok(Answer::Made), at_1),
        tell(Board::Own, Event::Go, unfit, at_1),
        tell(Board::Own, Event::There, unfit, at_1),
        tell(Board::Own, Event::Hand(2), absent, at_1),
        tell(Board::Own, Event::Hand(4294967295), absent, at_1),
        tell(Board::Bare, Event::Hand(0), absent, at_1),
        tell(Board::Small, Event::Hand(0), other, at_1),
        tell(Board::Own, Event::Hand(0), Ok(Answer::Made), at_2),
        tell(Board::Own, Event::Go, Ok(Answer::Begins(0)), moving_2),
        tell(Board::Own, Event::There, Ok(Answer::Made), at_3),
        tell(Board::Own, Event::Go, ended, at_3),
        tell(Board::Own, Event::There, ended, at_3),
        tell(Board::Own, Event::Hand(0), ended, at_3),
        tell(Board::Bare, Event::Go, ended, at_3),
        tell(Board::Small, Event::Go, other, at_3),
    ];
    assert!(rt; run_steps(Board::Own, 7, &steps) == Ok(true));
}

#[test]
fn on_another_board(rt: HostRuntime) {
    let at_0 = progress(0, (0, 0), 0, Phase::PersonTurn);
    let at_1 = progress(1, (0, 0), 1, Phase::ArmTurn);
    let moving = progress(1, (0, 0), 1, Phase::Moving);
    let at_2 = progress(2, (7, 8), 2, Phase::ArmTurn);
    let moving_2 = progress(2, (7, 8), 2, Phase::Moving);
    let at_3 = progress(3, (7, 12), 3, Phase::ArmTurn);
    let steps = [
        tell(Board::Turned, Event::Go, Err(Refusal::UnfitEvent), at_0),
        tell(Board::Turned, Event::Hand(0), Ok(Answer::Made), at_1),
        tell(Board::Turned, Event::Go, Ok(Answer::Begins(0)), moving),
        tell(Board::Turned, Event::There, Ok(Answer::Made), at_2),
        tell(Board::Turned, Event::Go, Ok(Answer::Begins(0)), moving_2),
        tell(Board::Turned, Event::There, Ok(Answer::Made), at_3),
        tell(Board::Turned, Event::Go, Err(Refusal::NoSuchMove), at_3),
    ];
    assert!(rt; run_steps(Board::Turned, 7, &steps) == Ok(true));
}

#[test]
fn no_run_begins(rt: HostRuntime) {
    assert!(rt; run_steps(Board::Own, 6, &[]) == Err(Refusal::OverBudget));
    assert!(rt; run_steps(Board::Small, 6, &[]) == Err(Refusal::OtherCount));
}

// an entry of the log: an event, what is answered, and how far the run has come then
fn answered(
    event: Event,
    answer: Result<Answer, Refusal>,
    progress: Progress<(u32, u32)>,
) -> Shown {
    Shown::Answered(Note {
        event,
        answer,
        progress,
    })
}

#[test]
fn a_session(rt: HostRuntime) {
    let tables = Tables::new();
    let mut one = [Cell::default(); 5];
    let mut two = [Cell::default(); 5];
    let events = [Event::Go, Event::Hand(0), Event::There];
    let mut script = Script::new(rt.alloc(), &events);
    let own = tables.board(Board::Own);
    let ending = match serve::<_, Care, _>(&own, 0, 7, &mut one, &mut two, &mut script) {
        Ok(Served { plan, ending }) => {
            let _ = plan.close();
            Some(ending)
        }
        Err(_) => None,
    };
    let at_1 = progress(1, (0, 3), 1, Phase::PersonTurn);
    assert!(rt; ending == Some(Ending::Ended(at_1)));
    let moving = progress(0, (0, 0), 0, Phase::Moving);
    let log = [
        Shown::Begun(progress(0, (0, 0), 0, Phase::ArmTurn)),
        answered(Event::Go, Ok(Answer::Begins(0)), moving),
        answered(Event::Hand(0), Err(Refusal::UnfitEvent), moving),
        answered(Event::There, Ok(Answer::Made), at_1),
    ];
    assert!(rt; script.log() == log.as_slice());
}
