// The lock: who is granted when, and how it ends.
use crate::refusing::{give_back, run_refused};
use crate::visits::{
    ask, check_of, further, granted, kept_back, left, new_lock, quiet_log, reports_of,
};
use st_book::Peek;
use st_lock::Shut;
use st_model::Call;

#[test]
fn a_writer_of_all_waits_for_both_and_is_not_passed(rt: HostRuntime) {
    let alloc = rt.alloc();
    let (lock, mut last) = new_lock(&rt, alloc);
    let mut one = further(&rt, &lock, &mut last);
    let mut two = further(&rt, &lock, &mut last);
    let mut all = further(&rt, &lock, &mut last);
    let zeroth = ask(&rt, &lock, alloc, &mut one, check_of(&rt, alloc, "p"));
    let first = ask(&rt, &lock, alloc, &mut two, check_of(&rt, alloc, "q"));
    let second = ask(&rt, &lock, alloc, &mut all, Call::PowerCycle);
    let third = ask(&rt, &lock, alloc, &mut last, check_of(&rt, alloc, "p"));
    let zeroth = granted(&rt, &lock, &mut one, zeroth);
    let first = granted(&rt, &lock, &mut two, first);
    let second = kept_back(&rt, &lock, &mut all, second, 0);
    let third = kept_back(&rt, &lock, &mut last, third, 0);
    give_back(&lock, &rt, &mut one, zeroth);
    let second = kept_back(&rt, &lock, &mut all, second, 1);
    let third = kept_back(&rt, &lock, &mut last, third, 2);
    give_back(&lock, &rt, &mut two, first);
    let second = granted(&rt, &lock, &mut all, second);
    let third = kept_back(&rt, &lock, &mut last, third, 2);
    give_back(&lock, &rt, &mut all, second);
    lock.join(&mut last, one);
    lock.join(&mut last, two);
    lock.join(&mut last, all);
    let (lock, mut last) = left(&rt, lock, last, 3);
    let third = granted(&rt, &lock, &mut last, third);
    give_back(&lock, &rt, &mut last, third);
    assert_eq!(rt; quiet_log(&rt, lock, last, 0).len(), 12);
}

#[test]
fn a_writer_waits_for_a_reader_of_several_pools(rt: HostRuntime) {
    let alloc = rt.alloc();
    let (lock, mut one) = new_lock(&rt, alloc);
    let mut two = further(&rt, &lock, &mut one);
    let mut three = further(&rt, &lock, &mut one);
    let mut four = further(&rt, &lock, &mut one);
    let zeroth = ask(
        &rt,
        &lock,
        alloc,
        &mut one,
        reports_of(&rt, alloc, &["p", "q"]),
    );
    let first = ask(&rt, &lock, alloc, &mut two, check_of(&rt, alloc, "q"));
    let second = ask(
        &rt,
        &lock,
        alloc,
        &mut three,
        reports_of(&rt, alloc, &["p"]),
    );
    let third = ask(&rt, &lock, alloc, &mut four, check_of(&rt, alloc, "r"));
    let zeroth = granted(&rt, &lock, &mut one, zeroth);
    let first = kept_back(&rt, &lock, &mut two, first, 0);
    let second = granted(&rt, &lock, &mut three, second);
    let third = granted(&rt, &lock, &mut four, third);
    give_back(&lock, &rt, &mut one, zeroth);
    let first = granted(&rt, &lock, &mut two, first);
    give_back(&lock, &rt, &mut two, first);
    give_back(&lock, &rt, &mut three, second);
    give_back(&lock, &rt, &mut four, third);
    lock.join(&mut one, two);
    lock.join(&mut one, three);
    lock.join(&mut one, four);
    assert_eq!(rt; quiet_log(&rt, lock, one, 0).len(), 12);
}

#[test]
fn a_seat_that_is_not_joined_keeps_the_lock_open(rt: HostRuntime) {
    let alloc = rt.alloc();
    let (lock, mut one) = new_lock(&rt, alloc);
    let mut other = further(&rt, &lock, &mut one);
    let call = reports_of(&rt, alloc, &["p"]);
    assert!(rt; run_refused(&lock, &rt, alloc, &mut other, call, 1).is_ok());
    let (lock, mut one) = match lock.close(one) {
        Shut::Unjoined(lock, seat, others) => {
            assert_eq!(rt; others, 1);
            (lock, seat)
        }
        Shut::Quiet(_table, _cells, _log) => panic!(rt; "it was closed beside a seat"),
        Shut::Left(_lock, _seat, ticket) => panic!(rt; "ticket {ticket} is left"),
    };
    lock.join(&mut one, other);
    match lock.peek(&rt, alloc, &mut one) {
        Ok(Peek { table_info, infos }) => {
            assert_eq!(rt; table_info.value().free.len(), 1);
            assert_eq!(rt; infos.len(), 0);
        }
        Err(_) => panic!(rt; "no memory for a look"),
    }
    assert_eq!(rt; quiet_log(&rt, lock, one, 0).len(), 3);
}
