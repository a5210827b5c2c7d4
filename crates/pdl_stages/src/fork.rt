/// A fork: its stage, and the stage in which its branches meet.
#[derive(Clone, Copy, PartialEq, Eq)]
pub struct Fork {
    pub stage: usize,
    pub merge: usize,
}
