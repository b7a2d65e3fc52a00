//! Which router LSAs are kept (RFC 2328 sections 12.1, 13.1 and 14).

ghost use Rattle.std.specs.Prelude.{◌≡◌, ◌≢◌, ◌<◌, ◌↔◌, ℕ, [], List, Contains};
ghost use Rattle.rcp_model.specs.LinkState.{RouterLsa, Kept, LinkState, kept_of, header_at, max_age, installed, aged};
ghost use Rattle.rcp_model.specs.LinkStateUpdates.{installed_all};
ghost use Rattle.model_laws.specs.LinkStates.{AreKeptByRouter};

/// Each instance is kept under its own router, each router has one instance at most, and at most 2,048 routers have one:
/// so it is where none is kept, and it stays so after LSAs, one or any number of them, and after a time.
pub fn each_instance_is_kept_by_its_router()
    ensures start { AreKeptByRouter (record { routers = [] }) }
    ensures lsa { (now : ℕ) (lsa : RouterLsa) (state : LinkState) → AreKeptByRouter state → AreKeptByRouter (installed now lsa state) }
    ensures lsas { (now : ℕ) (lsas : List RouterLsa) (state : LinkState) → AreKeptByRouter state → AreKeptByRouter (installed_all now lsas state) }
    ensures time { (now : ℕ) (state : LinkState) → AreKeptByRouter state → AreKeptByRouter (aged now state) }
{}

/// After a time exactly those instances are still kept whose age is below 3,600 seconds then.
pub fn a_time_leaves_the_young_ones()
    ensures { (now : ℕ) (state : LinkState) (entry : ℕ × Kept)
        → Contains (aged now state).routers entry ↔ (Contains state.routers entry × ((header_at now entry.1).age < max_age)) }
{}

/// An LSA changes what is kept of its own router alone.
pub fn an_lsa_leaves_the_other_routers()
    ensures { (now : ℕ) (lsa : RouterLsa) (state : LinkState) (router : ℕ) → router ≢ lsa.key
        → kept_of router (installed now lsa state) ≡ kept_of router state }
{}
