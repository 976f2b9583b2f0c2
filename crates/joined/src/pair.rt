// A board and a task.
use board::Board;
use task::Task;

/// A board and a task, joined: position `p` with state `z` is `p * states + z`.
/// Where that would be more than 4,096 positions it stands for the board below; `room` refuses such a pair.
#[derive(Drop)]
pub struct Joined<'a, 'b, B: Board, T: Task> {
    pub(crate) below: &'a B,
    pub(crate) task: &'b T,
}
