ghost use Rattle.std.specs.Prelude.{List, [], ◌∷◌, ◌++◌};
ghost use Rattle.report_hub.specs.Telling.{Finding};
ghost use Rattle.report_hub.specs.Hub.{reporters_of, IsTold, IsToldMost, OfEach};

use crate::Hub;

/// Who is attached while one finding after another is told was told these findings in order, with at most as
/// many left out as reports have failed.
pub fn law_told_in_order(hub: &Hub)
    ensures none { OfEach (IsToldMost told faults []) (reporters_of hub.now) (reporters_of hub.now) }
    ensures one_more { (findings : List Finding) (finding : Finding) (old now new : _) → OfEach (IsToldMost told faults findings) old now
        → OfEach (IsTold told faults finding) now new → OfEach (IsToldMost told faults (findings ++ finding ∷ [])) old new }
{
    let _ = hub;
}
