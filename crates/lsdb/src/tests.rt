// Which instance is kept and how long, and the edges.
ghost use Rattle.std.specs.Prelude.{◌≡◌};

use super::*;
use lsa_reader::{Lsa, LsaFault, LsaLink, LsaRefusal, POINT_TO_POINT, STUB, TRANSIT, VIRTUAL};
use rcp_base::RouterId;
use rcp_model::Edge;
use std::alloc::{AllocError, Global};
use std::test::Fail;

// A link: to, type, metric.
type Link = (u32, u8, u16);

// An age, a sequence number and a checksum.
type Instance = (u16, i32, u16);

fn lsa(alloc: Global, router: u32, instance: Instance, links: &[Link]) -> Result<Lsa, AllocError> {
    let links = links
        .iter()
        .map(|link| LsaLink {
            id: link.0,
            kind: link.1,
            metric: link.2,
        })
        .collect(alloc)?;
    Ok(Lsa {
        router: RouterId(router),
        age: instance.0,
        sequence: instance.1,
        checksum: instance.2,
        links,
    })
}

#[test]
fn the_more_recent_instance_is_kept(rt: HostRuntime) -> Result<(), Fail> {
    let alloc = rt.alloc();
    let rows = [
        // by sequence number, which is signed
        ((0, 1, 5), (0, 2, 0), Installed::Newer),
        ((0, 1, 5), (0, 0, 9), Installed::Older),
        ((0, i32::MIN, 5), (0, i32::MAX, 5), Installed::Newer),
        ((0, i32::MAX, 5), (0, i32::MIN, 5), Installed::Older),
        ((0, -1, 5), (0, 0, 5), Installed::Newer),
        // by checksum, which comes before the age
        ((0, 1, 5), (901, 1, 6), Installed::Newer),
        ((901, 1, 5), (0, 1, 4), Installed::Older),
        ((0, 1, 0x7fff), (0, 1, 0x8000), Installed::Newer),
        // by ages that differ by more than 900
        ((0, 1, 5), (0, 1, 5), Installed::Same),
        ((0, 1, 5), (900, 1, 5), Installed::Same),
        ((0, 1, 5), (901, 1, 5), Installed::Older),
        ((900, 1, 5), (0, 1, 5), Installed::Same),
        ((901, 1, 5), (0, 1, 5), Installed::Newer),
        ((2700, 1, 5), (3599, 1, 5), Installed::Same),
        ((2698, 1, 5), (3599, 1, 5), Installed::Older),
        // by MaxAge
        ((2700, 1, 5), (3600, 1, 5), Installed::Flushed),
        ((0, 1, 5), (3601, 1, 5), Installed::Flushed),
        ((0, 1, 5), (3600, 2, 0), Installed::Flushed),
        ((0, 1, 5), (3600, 0, 9), Installed::Older),
        ((0, 1, 5), (3600, 1, 4), Installed::Older),
    ];
    for (old, new, want) in rows {
        let mut lsdb = Lsdb::new(alloc);
        let first = lsdb.install(lsa(alloc, 1, old, &[])?, 0)?;
        assert_eq!(rt; first, Installed::Newer);
        let answer = lsdb.install(lsa(alloc, 1, new, &[])?, 0)?;
        assert_eq!(rt; answer, want, "{old:?} and then {new:?}");
    }
    Ok(())
}

#[test]
fn a_first_instance_of_max_age_is_flushed(rt: HostRuntime) -> Result<(), Fail> {
    let alloc = rt.alloc();
    for (age, want) in [
        (3599, Installed::Newer),
        (3600, Installed::Flushed),
        (3601, Installed::Flushed),
        (65535, Installed::Flushed),
    ] {
        let mut lsdb = Lsdb::new(alloc);
        let answer = lsdb.install(lsa(alloc, 1, (age, 1, 5), &[])?, 0)?;
        assert_eq!(rt; answer, want, "age {age}");
    }
    Ok(())
}

#[test]
fn an_instance_goes_when_it_reaches_max_age(rt: HostRuntime) -> Result<(), Fail> {
    let alloc = rt.alloc();
    let mut lsdb = Lsdb::new(alloc);
    lsdb.install(lsa(alloc, 1, (3590, 1, 5), &[(2, POINT_TO_POINT, 10)])?, 0)?;
    lsdb.install(lsa(alloc, 2, (0, 1, 5), &[(1, POINT_TO_POINT, 10)])?, 0)?;
    assert!(rt; !lsdb.clock(9));
    assert_eq!(rt; lsdb.edges(&[])?.len(), 2);
    assert!(rt; lsdb.clock(10));
    assert_eq!(rt; lsdb.edges(&[])?.len(), 0);
    assert!(rt; !lsdb.clock(3599));
    assert!(rt; lsdb.clock(3600));
    assert!(rt; !lsdb.clock(u64::MAX));
    Ok(())
}

#[test]
fn the_same_instance_keeps_its_moment(rt: HostRuntime) -> Result<(), Fail> {
    let alloc = rt.alloc();
    let mut lsdb = Lsdb::new(alloc);
    lsdb.install(lsa(alloc, 1, (0, 1, 5), &[])?, 0)?;
    lsdb.clock(900);
    let answer = lsdb.install(lsa(alloc, 1, (0, 1, 5), &[])?, 900)?;
    assert_eq!(rt; answer, Installed::Same);
    assert!(rt; !lsdb.clock(3599));
    assert!(rt; lsdb.clock(3600));
    Ok(())
}

#[test]
fn a_kept_instance_ages(rt: HostRuntime) -> Result<(), Fail> {
    let alloc = rt.alloc();
    let mut lsdb = Lsdb::new(alloc);
    lsdb.install(lsa(alloc, 1, (0, 1, 5), &[])?, 0)?;
    assert_eq!(rt; lsdb.time(), 0);
    lsdb.clock(901);
    assert_eq!(rt; lsdb.time(), 901);
    let answer = lsdb.install(lsa(alloc, 1, (0, 1, 5), &[])?, 901)?;
    assert_eq!(rt; answer, Installed::Newer);
    // It counts from the newer one's time now.
    assert!(rt; !lsdb.clock(4500));
    assert!(rt; lsdb.clock(4501));
    Ok(())
}

#[test]
fn an_lsa_is_installed_as_it_is_read(rt: HostRuntime) -> Result<(), Fail> {
    let alloc = rt.alloc();
    let mut octets = [0; 36];
    let written = lsa(
        alloc,
        0x0a00_0001,
        (0, 1, 0),
        &[(0x0a00_0002, POINT_TO_POINT, 10)],
    )?;
    assert!(rt; written.links.len() == 1 && written.age == 0);
    assert_eq!(rt; lsa_reader::write(&written, &mut octets), Some(36));
    let mut lsdb = Lsdb::new(alloc);
    for (age, want) in [
        ([0, 0], Installed::Newer),
        ([0, 0], Installed::Same),
        ([3, 133], Installed::Older),
        ([3, 132], Installed::Same),
    ] {
        let [high, low] = age;
        octets[0] = high;
        octets[1] = low;
        let answer = lsdb.install(lsa_reader::read(alloc, &octets)?, 0)?;
        assert_eq!(rt; answer, want, "age {age:?}");
    }
    octets[35] = 11;
    assert_eq!(rt;
        lsa_reader::read(alloc, &octets).err(),
        Some(LsaRefusal::Fault(LsaFault::Checksum))
    );
    Ok(())
}

// Installs first LSAs of the routers in a range, and answers how many are kept.
fn install_all(lsdb: &mut Lsdb, alloc: Global, routers: std::ops::Range<u32>) -> Result<u32, Fail>
    requires { lsdb.old.moment ≡ 0 }
    ensures { lsdb.new.moment ≡ 0 }
{
    let mut kept = 0u32;
    for router in routers {
        if lsdb.install(lsa(alloc, router, (0, 1, 5), &[])?, 0)? == Installed::Newer {
            kept = kept.saturating_add(1);
        }
    }
    Ok(kept)
}

#[test]
fn one_router_too_many_is_dropped(rt: HostRuntime) -> Result<(), Fail> {
    let alloc = rt.alloc();
    let mut lsdb = Lsdb::new(alloc);
    assert_eq!(rt; install_all(&mut lsdb, alloc, 0..2048)?, 2048);
    assert_eq!(rt; install_all(&mut lsdb, alloc, 2048..2050)?, 0);
    for (router, instance, want) in [
        (2048, (0, 1, 5), Installed::Dropped),
        (2048, (3600, 1, 5), Installed::Flushed),
        (7, (0, 2, 5), Installed::Newer),
        (7, (3600, 3, 5), Installed::Flushed),
        (2049, (0, 1, 5), Installed::Newer),
        (7, (0, 4, 5), Installed::Dropped),
    ] {
        let answer = lsdb.install(lsa(alloc, router, instance, &[])?, 0)?;
        assert_eq!(rt; answer, want, "router {router}");
    }
    Ok(())
}

fn edge(edge: &(u32, u32, u32)) -> Edge {
    Edge {
        from: RouterId(edge.0),
        to: RouterId(edge.1),
        cost: edge.2,
    }
}

// A router, an age and links.
type Entry<'a> = (u32, u16, &'a [Link]);

fn database_of(alloc: Global, entries: &[Entry]) -> Result<Lsdb, Fail> {
    let mut lsdb = Lsdb::new(alloc);
    for (router, age, links) in entries {
        lsdb.install(lsa(alloc, *router, (*age, 1, 5), links)?, 0)?;
    }
    Ok(lsdb)
}

// LSAs, the fixed edges, and the edges that come of them.
type Case<'a> = (
    &'a [Entry<'a>],
    &'a [(u32, u32, u32)],
    &'a [(u32, u32, u32)],
);

#[test]
fn edges_are_listed_by_both_ends(rt: HostRuntime) -> Result<(), Fail> {
    let alloc = rt.alloc();
    let rows: [Case; 9] = [
        (&[], &[], &[]),
        // listed by one end, or by a router without an LSA
        (&[(1, 0, &[(2, 1, 10), (3, 1, 5)]), (2, 0, &[])], &[], &[]),
        // each end has its own metric
        (
            &[(2, 0, &[(1, 1, 0)]), (1, 0, &[(2, 1, 65535)])],
            &[],
            &[(1, 2, 65535), (2, 1, 0)],
        ),
        // the least of parallel links
        (
            &[
                (1, 0, &[(2, 1, 7), (2, 1, 5), (2, 1, 9)]),
                (2, 0, &[(1, 1, 3), (1, 1, 2)]),
            ],
            &[],
            &[(1, 2, 5), (2, 1, 2)],
        ),
        // other types of links, a lesser metric among them
        (
            &[
                (
                    1,
                    0,
                    &[
                        (2, STUB, 1),
                        (2, TRANSIT, 1),
                        (2, 1, 5),
                        (2, VIRTUAL, 1),
                        (2, 0, 1),
                    ],
                ),
                (2, 0, &[(1, 1, 6), (3, 1, 1)]),
                (3, 0, &[(2, STUB, 1)]),
            ],
            &[],
            &[(1, 2, 5), (2, 1, 6)],
        ),
        // an instance that is flushed
        (
            &[
                (1, 0, &[(2, 1, 10)]),
                (2, 0, &[(1, 1, 10)]),
                (2, 3600, &[(1, 1, 10)]),
            ],
            &[],
            &[],
        ),
        // a link of a router to itself
        (&[(1, 0, &[(1, 1, 4)])], &[], &[(1, 1, 4)]),
        // fixed edges: one that is there already, one with another cost, one twice, and one of one direction
        (
            &[(1, 0, &[(2, 1, 10)]), (2, 0, &[(1, 1, 10)])],
            &[(3, 1, 1), (1, 2, 10), (2, 1, 9), (3, 1, 1)],
            &[(1, 2, 10), (2, 1, 9), (2, 1, 10), (3, 1, 1)],
        ),
        // by the ends, and then by cost
        (
            &[
                (3, 0, &[(2, 1, 1), (1, 1, 8)]),
                (1, 0, &[(3, 1, 1)]),
                (2, 0, &[(3, 1, 2)]),
            ],
            &[(2, 3, 3), (1, 2, 0)],
            &[
                (1, 2, 0),
                (1, 3, 1),
                (2, 3, 2),
                (2, 3, 3),
                (3, 1, 8),
                (3, 2, 1),
            ],
        ),
    ];
    for (lsas, fixed, want) in rows {
        let lsdb = database_of(alloc, lsas)?;
        let fixed: Vec<Edge> = fixed.iter().map(edge).collect(alloc)?;
        let want: Vec<Edge> = want.iter().map(edge).collect(alloc)?;
        assert_eq!(rt; lsdb.edges(fixed.as_slice())?.as_slice(), want.as_slice());
    }
    Ok(())
}
