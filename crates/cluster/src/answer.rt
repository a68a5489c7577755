// The documents' numbers of what `first_cluster` answers, for whoever prints it or hands it on.
ghost use Rattle.std.specs.Prelude.{◌≡◌};
ghost use Rattle.cluster.specs.Call.{number_of, place_of, len_of};

use base::refusals::NO_REFUSAL;
use input::Refusal;

// The refusal's number; 0 where there is no refusal.
pub fn number_of(cluster: Result<usize, Refusal>) -> u32
    ensures { result ≡ number_of cluster }
{
    match cluster {
        Ok(_) => NO_REFUSAL,
        Err(refusal) => input::answer::number_of(refusal),
    }
}

// The refusal's place; 0 where there is no refusal.
pub fn place_of(cluster: Result<usize, Refusal>) -> usize
    ensures { result ≡ place_of cluster }
{
    match cluster {
        Ok(_) => 0,
        Err(refusal) => input::answer::place_of(refusal),
    }
}

// The length in bytes; 0 on a refusal.
pub fn len_of(cluster: Result<usize, Refusal>) -> usize
    ensures { result ≡ len_of cluster }
{
    match cluster {
        Ok(n) => n,
        Err(_) => 0,
    }
}
