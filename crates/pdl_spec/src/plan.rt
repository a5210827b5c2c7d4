// The stages that verify and update guesses.
ghost use Rattle.std.specs.Prelude.{◌≡◌};

/// The stages in which a pipe verifies its guesses and in which it updates them.
#[derive(Clone, Copy)]
pub struct SpecPlan {
    pub(crate) verified: Option<usize>,
    pub(crate) updated: Option<usize>,
}

impl SpecPlan {
    /// The stage that verifies guesses, none where nothing does.
    pub fn verified(&self) -> Option<usize>
        ensures { result ≡ self.now.verified }
    {
        self.verified
    }

    /// The stage that updates guesses, none exactly where the text has no `update`.
    pub fn updated(&self) -> Option<usize>
        ensures { result ≡ self.now.updated }
    {
        self.updated
    }
}
