// The answer of a scan by the profile, number by number, for whoever prints it or hands it on.
ghost use Rattle.std.specs.Prelude.{◌≡◌};
ghost use Rattle.profile.specs.Profile.{number_of, place_of, count_of, status_of};

use crate::ProfileError;
use base::refusals::NOT_IN_PROFILE;
use reading::{Scan, answer};

// The refusal's number; 0 where there is no refusal.
pub fn number_of(profiled: Result<Scan, ProfileError>) -> u32
    ensures { result ≡ number_of profiled }
{
    match profiled {
        Ok(scan) => answer::number_of(Ok(scan)),
        Err(ProfileError::Scan(error)) => answer::number_of(Err(error)),
        Err(ProfileError::NotInProfile { .. }) => NOT_IN_PROFILE,
    }
}

// The refusal's place, which is the record's index for 21; the current byte where there is no refusal.
pub fn place_of(profiled: Result<Scan, ProfileError>) -> usize
    ensures { result ≡ place_of profiled }
{
    match profiled {
        Ok(scan) => answer::place_of(Ok(scan)),
        Err(ProfileError::Scan(error)) => answer::place_of(Err(error)),
        Err(ProfileError::NotInProfile { index, .. }) => index,
    }
}

// How many records were written.
pub fn count_of(profiled: Result<Scan, ProfileError>) -> usize
    ensures { result ≡ count_of profiled }
{
    match profiled {
        Ok(scan) => answer::count_of(Ok(scan)),
        Err(ProfileError::Scan(error)) => answer::count_of(Err(error)),
        Err(ProfileError::NotInProfile { count, .. }) => count,
    }
}

// How it ended.
pub fn status_of(profiled: Result<Scan, ProfileError>) -> u32
    ensures { result ≡ status_of profiled }
{
    match profiled {
        Ok(scan) => answer::status_of(Ok(scan)),
        Err(ProfileError::Scan(error)) => answer::status_of(Err(error)),
        Err(ProfileError::NotInProfile { .. }) => answer::REFUSED,
    }
}
