// The book by itself: what no run asks of it, with ample memory.
ghost use Rattle.std.specs.Prelude.{◌≡◌, [], false, is_some, IfOk, IfSome, Ok};
ghost use Rattle.std.specs.List.{AllByRecursion};
ghost use Rattle.st_wants.specs.Lock.{start, arrived, granted, released, row_at, IsLive, IsWaiting};
ghost use Rattle.st_wants.specs.Wants.{takes_table};

use st_book::{Book, Part, Peek};
use st_model::{Call, EntryList};
use st_plain::{PlainCell, PlainTable};
use st_units::{DevRows, Name, NoMemory};
use st_wants::{Mode, Names, Want};
use std::alloc::Global;
use std::process::Abort;
use std::test::Fail;
use test_lock::plain_lock::one_device;
use test_lock::refusing::refused_entry;

fn new_book(alloc: Global, rows: DevRows) -> Result<Book<PlainCell, PlainTable>, NoMemory>
    ensures { IfOk result (λ book. book.lock ≡ start) }
{
    let table = PlainTable::opening(alloc, rows)?;
    match Book::make(alloc, table) {
        Ok(book) => Ok(book),
        Err((_table, refused)) => Err(refused),
    }
}

#[test]
fn a_book_is_made_shown_and_closed(rt: HostRuntime) -> Result<(), Fail> {
    let alloc = rt.alloc();
    let book = new_book(alloc, one_device(alloc)?)?;
    let shown = match book.peek(alloc) {
        Ok(Peek { table_info, infos }) => {
            table_info.value().free.len() == 1 && table_info.value().next == 1 && infos.len() == 0
        }
        Err(_) => false,
    };
    let unreleased = book.unreleased();
    let log = match book.close() {
        Ok((_table, _cells, log)) => log,
        Err(_) => unreachable!(),
    };
    assert!(rt; shown);
    assert!(rt; unreleased.is_none());
    assert!(rt; log.len() == 0);
    Ok(())
}

type PlainBook = Book<PlainCell, PlainTable>;

type PlainPart = Part<PlainCell, PlainTable>;

fn name_of(alloc: Global, pool: &str) -> Result<Name, NoMemory> {
    match Name::read(alloc, pool.as_bytes()) {
        Ok(name) => Ok(name),
        Err(_) => Err(NoMemory),
    }
}

fn write_of(alloc: Global, pool: &str) -> Result<Want, NoMemory>
    ensures { IfOk result (λ want. takes_table want ≡ false) }
{
    Ok(Want::Some(Names::one(name_of(alloc, pool)?)?, Mode::Write))
}

/// The entry of a check of the pool to which memory was refused.
fn entries_of(alloc: Global, pool: &str) -> Result<EntryList, NoMemory> {
    let call = Call::Check {
        pool: name_of(alloc, pool)?,
    };
    let mut entries = EntryList::with_room(alloc, 1)?;
    match entries.push(refused_entry(call, 1)) {
        Ok(()) => Ok(entries),
        Err(_) => Err(NoMemory),
    }
}

fn arrive(rt: &impl Abort, alloc: Global, book: &mut PlainBook, seat: u64, want: Want) -> u64
    ensures ticket { result ≡ book.old.lock.next }
    ensures lock { book.new.lock ≡ arrived seat want book.old.lock }
{
    match book.arrive(alloc, seat, want) {
        Ok(ticket) => ticket,
        Err(_) => panic!(rt; "no memory for a ticket"),
    }
}

fn grant(rt: &impl Abort, book: &mut PlainBook, ticket: u64) -> PlainPart
    requires { IsWaiting book.old.lock ticket }
    ensures lock { book.new.lock ≡ granted ticket book.old.lock }
    ensures table { is_some result.table ≡ false }
    ensures kept { AllByRecursion (λ _. Unit {0}) result.cells.items × IfSome result.table (λ _. Unit {0}) }
{
    match book.grant(ticket) {
        Ok(part) => {
            assert!(rt; part.table.is_none());
            assert!(rt; !part.short);
            part
        }
        Err(blocker) => panic!(rt; "ticket {blocker} keeps it back"),
    }
}

/// Whether there are places for the part is the book's to tell: a caller that follows no log doesn't know it.
fn release(rt: &impl Abort, book: &mut PlainBook, ticket: u64, part: PlainPart, entries: EntryList)
    requires live { IsLive book.old.lock ticket }
    requires fitting { IfSome (row_at ticket book.old.lock.rows) (λ r. is_some part.table ≡ takes_table r.want) }
    requires kept { AllByRecursion (λ _. Unit {0}) part.cells.items × IfSome part.table (λ _. Unit {0}) }
    ensures lock { book.new.lock ≡ released ticket book.old.lock }
{
    let has_places = book.has_places(&part);
    assert!(rt; has_places);
    book.release(ticket, part, entries);
}

/// The book, whose close answers that the ticket is left.
fn left(rt: &impl Abort, book: PlainBook, ticket: u64) -> PlainBook
    ensures { result ≡ book }
{
    match book.close() {
        Ok(_) => panic!(rt; "it was closed over ticket {ticket}"),
        Err((book, found)) => {
            assert_eq!(rt; found, ticket);
            book
        }
    }
}

/// What was to be had with ample memory.
fn given<T>(rt: &impl Abort, found: Result<T, NoMemory>) -> T
    ensures { found ≡ Ok result }
{
    match found {
        Ok(value) => value,
        Err(NoMemory) => panic!(rt; "out of memory"),
    }
}

#[test]
fn two_tickets_of_two_pools_are_left_and_come_back(rt: HostRuntime) {
    let alloc = rt.alloc();
    let mut book = given(&rt, new_book(alloc, given(&rt, one_device(alloc))));
    let zeroth = arrive(&rt, alloc, &mut book, 1, given(&rt, write_of(alloc, "p")));
    let first = arrive(&rt, alloc, &mut book, 2, given(&rt, write_of(alloc, "q")));
    let one = grant(&rt, &mut book, zeroth);
    let other = grant(&rt, &mut book, first);
    let mut book = left(&rt, book, 0);
    release(
        &rt,
        &mut book,
        zeroth,
        one,
        given(&rt, entries_of(alloc, "p")),
    );
    let mut book = left(&rt, book, 1);
    release(
        &rt,
        &mut book,
        first,
        other,
        given(&rt, entries_of(alloc, "q")),
    );
    match book.close() {
        Ok((_table, cells, log)) => {
            assert_eq!(rt; cells.len(), 0);
            assert_eq!(rt; log.len(), 6);
        }
        Err((_book, ticket)) => panic!(rt; "ticket {ticket} is left"),
    }
}
