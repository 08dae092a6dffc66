// The fate that a refusal of commit carries.

use records::{Fate, Refusal};

// None for `Done`, which carries none; open for what commit never answers.
pub fn fate_in(why: Refusal) -> Option<Fate> {
    match why {
        Refusal::Done => None,
        Refusal::NotResting(f)
        | Refusal::Unfit(f)
        | Refusal::NotActive(f)
        | Refusal::StepFailed(f)
        | Refusal::PrepareFailed(f)
        | Refusal::PreparePanicked(f)
        | Refusal::Conflict(_, f)
        | Refusal::BoundDurably(f)
        | Refusal::FoundPoisoned(f)
        | Refusal::InsertFailed(f)
        | Refusal::CallbackFailed(f)
        | Refusal::CallbackPanicked(f)
        | Refusal::RemoveFailed(f)
        | Refusal::PublishFailed(f)
        | Refusal::RecycleFailed(f)
        | Refusal::FinishFailed(f)
        | Refusal::StampFailed(f)
        | Refusal::CutOff(f)
        | Refusal::CleanupFailed(f) => Some(f),
        _ => Some(Fate::Open),
    }
}
