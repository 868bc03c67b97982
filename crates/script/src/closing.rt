// What is said at the end of an input.
ghost use Rattle.std.specs.Prelude.{◌≡◌, [], MatchOption};
ghost use Rattle.script.specs.Models.{standing};
ghost use Rattle.script.specs.Session.{closing};

use super::line::Line;
use super::session::Session;

impl Session {
    // What is said at the end, if the program plays.
    pub fn closing(&self) -> Option<[Line; 2]>
        ensures { MatchOption result (closing (standing self.now) ≡ []) (λ lines. lines ≡ closing (standing self.now)) }
    {
        if !self.program.plays() {
            return None;
        }
        Some([
            Line::Clock { tick: self.clock },
            // two of the session's counts, field by field: a conversion would name them just so
            Line::Counts {
                no_flow: self.no_flow,
                others: self.others,
            },
        ])
    }
}
