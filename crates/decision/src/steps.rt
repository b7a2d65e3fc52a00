//! The steps of the decision, each a comparison of two candidates.

ghost use Rattle.std.specs.Prelude.{◌≡◌};
ghost use Rattle.rcp_model.specs.Decision.{has_higher_preference, has_shorter_path, has_lower_origin, has_lower_exit, goes_before};

use crate::candidate::Candidate;

/// The highest degree of preference (RFC 4271 section 9.1.1).
fn has_higher_preference(a: &Candidate, b: &Candidate) -> bool
    ensures { result ≡ has_higher_preference a.now b.now }
{
    a.pref > b.pref
}

/// The least number of ASes in AS_PATH (section 9.1.2.2 a).
fn has_shorter_path(a: &Candidate, b: &Candidate) -> bool
    ensures { result ≡ has_shorter_path a.now b.now }
{
    a.hops < b.hops
}

/// The lowest ORIGIN (section 9.1.2.2 b).
fn has_lower_origin(a: &Candidate, b: &Candidate) -> bool
    ensures { result ≡ has_lower_origin a.now b.now }
{
    a.origin < b.origin
}

/// The lower MULTI_EXIT_DISC, among the routes of one neighbouring AS alone (section 9.1.2.2 c).
fn has_lower_exit(a: &Candidate, b: &Candidate) -> bool
    ensures { result ≡ has_lower_exit a.now b.now }
{
    a.neighbour == b.neighbour && a.med < b.med
}

/// Whether a candidate goes before another by the filters: by the first of the steps at which the two aren't level.
pub fn goes_before(a: &Candidate, b: &Candidate) -> bool
    ensures { result ≡ goes_before a.now b.now }
{
    if a.pref != b.pref {
        has_higher_preference(a, b)
    } else if a.hops != b.hops {
        has_shorter_path(a, b)
    } else if a.origin != b.origin {
        has_lower_origin(a, b)
    } else {
        has_lower_exit(a, b)
    }
}
