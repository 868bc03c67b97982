// Full levels.
ghost use Rattle.std.specs.Prelude.{◌≡◌, IfOk, map};
ghost use Rattle.flows.specs.Models.{flow_of};
ghost use Rattle.levels.specs.Levels.{full_level};
ghost use Rattle.levels.specs.Models.{level_model};
ghost use Rattle.admission.specs.Models.{numbered_model};
ghost use Rattle.admission.specs.Rules.{flows_of};

use admission::refusal::Numbered;
use flows::flow::Flow;
use levels::level::Level;
use std::alloc::{AllocError, Global};

// A level for each flow, by its place.
pub(crate) fn levels_of(heap: Global, flows: &[Numbered]) -> Result<Vec<Level>, AllocError>
    ensures { IfOk result (λ levels. map level_model levels.items ≡ map (λ f. full_level f.burst f.rate) (flows_of (map numbered_model flows.now))) }
{
    let mut levels = Vec::new(heap);
    for numbered in flows {
        levels.push(level_of(&numbered.flow))?;
    }
    Ok(levels)
}

// All of its burst.
fn level_of(flow: &Flow) -> Level
    ensures { level_model result ≡ full_level flow.now.burst flow.now.rate }
{
    Level::full(flow.burst, flow.rate).unwrap()
}
