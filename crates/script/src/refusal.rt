// The number that an answer line gives, and what a conflict tells beside it.

ghost use Rattle.std.specs.Prelude.{◌≡◌};
ghost use Rattle.rules.specs.Numbers.{number_of, test_named, place_named, more_in};
ghost use Rattle.script.specs.Print.{more_of};

use records::{Cause, Refusal};

pub fn number_of(why: Refusal) -> u64
    ensures { result ≡ number_of why }
{
    match why {
        Refusal::Done => 0,
        Refusal::NotResting(_) => 1,
        Refusal::Unfit(_) => 2,
        Refusal::NotActive(_) => 3,
        Refusal::StepFailed(_) => 4,
        Refusal::PrepareFailed(_) => 5,
        Refusal::PreparePanicked(_) => 6,
        Refusal::Conflict(_, _) => 7,
        Refusal::BoundDurably(_) => 8,
        Refusal::FoundPoisoned(_) => 9,
        Refusal::InsertFailed(_) => 10,
        Refusal::CallbackFailed(_) => 11,
        Refusal::CallbackPanicked(_) => 12,
        Refusal::RemoveFailed(_) => 13,
        Refusal::PublishFailed(_) => 14,
        Refusal::RecycleFailed(_) => 15,
        Refusal::FinishFailed(_) => 16,
        Refusal::StampFailed(_) => 17,
        Refusal::CutOff(_) => 18,
        Refusal::CleanupFailed(_) => 19,
        Refusal::NotRepairable(_) => 20,
        Refusal::ActiveFull(_) => 21,
        Refusal::ClockAtEnd(_) => 22,
        Refusal::RowTooHigh(_) => 23,
        Refusal::ReadsFull(_) => 24,
        Refusal::WritesFull(_) => 25,
        Refusal::SlotsFull(_) => 26,
        Refusal::LockedByAnother(_) => 27,
        Refusal::NoHead(_) => 28,
        Refusal::ImpossibleMinute(_) => 31,
    }
}

// "on 7 only"
pub fn more_in(why: Refusal) -> Option<Cause>
    ensures { more_of result ≡ more_in why }
{
    match why {
        Refusal::Conflict(c, _) => Some(c),
        _ => None,
    }
}

// "which of tests 11 to 14 and at which place", "with 0 and 0 for a busy guard"
pub(crate) fn test_of(c: Cause) -> u64
    ensures { result ≡ test_named c }
{
    match c {
        Cause::BusyGuard => 0,
        Cause::IndexReadAt(_) => 11,
        Cause::RowLockAt(_) => 12,
        Cause::SerializationAt(_) => 13,
        Cause::WriteBaseAt(_) => 14,
    }
}

pub(crate) fn place_of(c: Cause) -> u64
    ensures { result ≡ place_named c }
{
    match c {
        Cause::BusyGuard => 0,
        Cause::IndexReadAt(p)
        | Cause::RowLockAt(p)
        | Cause::SerializationAt(p)
        | Cause::WriteBaseAt(p) => p as u64,
    }
}
