// From head_lifecycle.rs: a generation's view, which the Rust's `snapshot` builds in place, and whether a readiness is ready.
ghost use Rattle.std.specs.Prelude.{◌≡◌};
ghost use Rattle.head_ready.specs.Generations.{is_ready, view_of};

use crate::{Generation, HeadReadiness, HeadView, Source};

impl Generation {
    pub fn view(self, source: Source) -> HeadView
        ensures { result ≡ view_of source self.handle self.readiness }
    {
        HeadView {
            source,
            handle: self.handle,
            readiness: self.readiness,
        }
    }
}

impl HeadReadiness {
    #[tactic(auto, unfolding(crate::specs::Generations::is_ready))]
    pub fn is_ready(self) -> bool
        ensures { result ≡ is_ready self }
    {
        matches!(self, HeadReadiness::Ready)
    }
}
