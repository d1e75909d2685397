// The lock's core: who waits for whom.
use st_grants::Grants;
use st_units::{Name, NameList, NoMemory};
use st_wants::{Mode, Names, NamesFault, Want};
use std::alloc::Global;
use std::test::Fail;

fn list_of(alloc: Global, texts: &[&str]) -> Result<NameList, NoMemory> {
    let mut list = NameList::make(alloc);
    for text in texts {
        match Name::read(alloc, text.as_bytes()) {
            Ok(name) => list.push(name)?,
            Err(_) => return Err(NoMemory),
        }
    }
    Ok(list)
}

/// Of these pools.
fn want_some(alloc: Global, pools: &[&str], mode: Mode) -> Result<Want, NoMemory> {
    match Names::read(&list_of(alloc, pools)?) {
        Ok(names) => Ok(Want::Some(names, mode)),
        Err(_) => Err(NoMemory),
    }
}

/// Of one pool, or of all where no name is given.
fn want(alloc: Global, pool: Option<&str>, mode: Mode) -> Result<Want, NoMemory> {
    match pool {
        Some(text) => match Name::read(alloc, text.as_bytes()) {
            Ok(name) => Ok(Want::Some(Names::one(name)?, mode)),
            Err(_) => Err(NoMemory),
        },
        None => Ok(Want::All(mode)),
    }
}

fn arrive(grants: &mut Grants, seat: u64, want: Want) -> Result<u64, NoMemory> {
    if grants.arrivals() == u64::MAX {
        return Err(NoMemory);
    }
    match grants.arrive(seat, want) {
        Ok(ticket) => Ok(ticket),
        Err((_, refused)) => Err(refused),
    }
}

/// What `can_grant` answers, where the ticket waits.
fn answer(grants: &Grants, ticket: u64) -> Option<Result<(), u64>> {
    if !grants.is_waiting(ticket) {
        return None;
    }
    Some(grants.can_grant(ticket))
}

fn grant(grants: &mut Grants, ticket: u64) -> bool {
    if !grants.is_waiting(ticket) {
        return false;
    }
    match grants.can_grant(ticket) {
        Ok(()) => {
            grants.grant(ticket);
            true
        }
        Err(_) => false,
    }
}

fn release(grants: &mut Grants, ticket: u64) -> bool {
    if !grants.is_live(ticket) {
        return false;
    }
    grants.release(ticket);
    true
}

/// Writers of p, of q, of all, and of p again.
fn four_writers(alloc: Global) -> Result<Grants, NoMemory> {
    let mut grants = Grants::make(alloc)?;
    for (seat, pool) in [(1, Some("p")), (2, Some("q")), (3, None), (1, Some("p"))] {
        arrive(&mut grants, seat, want(alloc, pool, Mode::Write)?)?;
    }
    Ok(grants)
}

#[test]
fn a_writer_of_all_waits_for_both_and_is_not_passed(rt: HostRuntime) {
    let Ok(mut grants) = four_writers(rt.alloc()) else {
        panic!(rt; "out of memory");
    };
    for (ticket, want) in [(0, Ok(())), (1, Ok(())), (2, Err(0)), (3, Err(0))] {
        assert_eq!(rt;
            answer(&grants, ticket),
            Some(want),
            "ticket {ticket} at first"
        );
    }
    assert!(rt; grant(&mut grants, 0));
    assert!(rt; grant(&mut grants, 1));
    assert!(rt; release(&mut grants, 0));
    for (ticket, want) in [(0, None), (1, None), (2, Some(Err(1))), (3, Some(Err(2)))] {
        assert_eq!(rt;
            answer(&grants, ticket),
            want,
            "ticket {ticket} after the release"
        );
    }
    assert_eq!(rt; grants.unreleased(), Some(1));
}

/// A reader of p and q, a writer of q, a reader of p, a writer of r.
fn four_of_several(alloc: Global) -> Result<Grants, NoMemory> {
    let mut grants = Grants::make(alloc)?;
    arrive(
        &mut grants,
        1,
        want_some(alloc, &["q", "p", "q"], Mode::Read)?,
    )?;
    arrive(&mut grants, 2, want_some(alloc, &["q"], Mode::Write)?)?;
    arrive(&mut grants, 3, want_some(alloc, &["p"], Mode::Read)?)?;
    arrive(&mut grants, 4, want_some(alloc, &["r"], Mode::Write)?)?;
    Ok(grants)
}

#[test]
fn a_writer_waits_for_a_reader_of_several_pools(rt: HostRuntime) {
    let Ok(mut grants) = four_of_several(rt.alloc()) else {
        panic!(rt; "out of memory");
    };
    assert!(rt; grant(&mut grants, 0));
    for (ticket, want) in [(1, Err(0)), (2, Ok(())), (3, Ok(()))] {
        assert_eq!(rt; answer(&grants, ticket), Some(want), "ticket {ticket}");
    }
    assert!(rt; grant(&mut grants, 2));
    assert!(rt; grant(&mut grants, 3));
    assert!(rt; release(&mut grants, 0));
    assert_eq!(rt;
        answer(&grants, 1),
        Some(Ok(())),
        "ticket 1 after the release"
    );
}

#[test]
fn names_are_one_to_eight(rt: HostRuntime) -> Result<(), Fail> {
    let alloc = rt.alloc();
    let list = list_of(alloc, &["d", "b", "a", "c", "b", "h", "g", "f", "e"])?;
    let Ok(names) = Names::read(&list) else {
        panic!(rt; "eight distinct names were refused");
    };
    assert_eq!(rt; names.list().len(), 8);
    let nine = list_of(alloc, &["a", "b", "c", "d", "e", "f", "g", "h", "i"])?;
    assert!(rt; matches!(Names::read(&nine), Err(NamesFault::BadCount)));
    let none = list_of(alloc, &[])?;
    assert!(rt; matches!(Names::read(&none), Err(NamesFault::BadCount)));
    Ok(())
}
