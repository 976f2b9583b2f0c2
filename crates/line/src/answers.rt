// What a line of positions answers.
ghost use Rattle.std.specs.Prelude.{◌≡◌, ◌%◌, slice_index};
ghost use Rattle.line.specs.Line.{size_of, means, means_in_range};

use crate::holder::Line;
use board::{Board, Step, Turn};

// Element `p` of a list of labels, or 0 past its end.
fn label_of(labels: &[u32], p: u32) -> u32
    ensures { result ≡ slice_index labels.now p % 65536 }
{
    labels.get(p as usize).map_or(0, |label| label % 65536)
}

impl<'a> Line<'a> {
    // How many positions there are.
    fn size(&self) -> u32
        ensures { result ≡ size_of self.now.labels.now }
    {
        self.labels.len().clamp(1, 4096) as u32
    }
}

#[tactic(auto, using(crate::proofs::Rows::there, crate::specs::Line::line_count))]
impl<'a> Board for Line<'a> {
    ghost meaning = { means };

    ghost ranges = { means_in_range };

    fn count(&self) -> u32 {
        self.size()
    }

    fn start(&self) -> u32 {
        0
    }

    fn turn(&self, p: u32) -> Option<Turn> {
        (p < self.size()).then_some(Turn::Arm)
    }

    fn label(&self, p: u32) -> Option<u32> {
        (p < self.size()).then(|| label_of(self.labels, p))
    }

    fn rests(&self, p: u32) -> Option<bool> {
        let size = self.size();
        (p < size).then(|| p + 1 == size)
    }

    fn degree(&self, p: u32) -> Option<u32> {
        (p < self.size()).then_some(1)
    }

    fn step(&self, p: u32, k: u32) -> Option<Step> {
        let size = self.size();
        (p < size && k == 0).then(|| Step {
            target: (p + 1).min(size - 1),
            bruise: 0,
            energy: 1,
        })
    }
}
