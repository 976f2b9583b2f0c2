// The labels of a line of positions.

/// A line of positions, one for each label, at least 1 and at most 4,096. Every move costs energy 1.
#[derive(Clone, Copy)]
pub struct Line<'a> {
    pub labels: &'a [u32],
}
