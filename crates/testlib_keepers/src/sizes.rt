//! Sizes that no other test reaches: a list of more than 64 KiB, an extract of several parts with gaps
//! between its numbers, each part more than 64 KiB, and a circle of more than 64 parties.
use crate::each::new_tables;
use land_core::caller::Caller;
use land_core::kind::Kind;
use land_core::role::Role;
use land_keep::keeper::Keeper;
use land_keep::plain_keeper::PlainKeeper;
use land_keep::store_fault::StoreFault;
use land_select::sql_keeper::SqlKeeper;
use land_sheet::extracts::extract::extract_to;
use land_sheet::extracts::fault::ExtractFault;
use std::alloc::{AllocError, Global};
use std::fmt::Write;
use testlib_scenario::run_scenario::{open_sink, play};
use testlib_scenario::stop::{Stop, expect};
use testlib_scenario::talk::{OFFICE, Transcript};

/// Requests with their replies, and the next number and stamp of the register that gets them.
#[derive(Drop)]
struct Requests {
    talk: Transcript,
    text: String,
    next: u64,
    stamp: u64,
}

impl Requests {
    /// Returns no requests, for a new register whose clock is at 1000.
    fn new(alloc: Global) -> Result<Requests, AllocError> {
        Ok(Requests {
            talk: Transcript::new(alloc)?,
            text: String::with_capacity(alloc, 4096)?,
            next: 2,
            stamp: 1000,
        })
    }

    /// Adds an act that creates `count` objects, of which the one at `place` is the object of the act.
    /// Returns the number of that object.
    fn act(&mut self, line: &str, fields: &str, count: u64, place: u64) -> Result<u64, AllocError> {
        self.talk.push_request(line, fields, self.text.as_bytes())?;
        let first = self.next;
        self.next = first.saturating_add(count);
        let number = first.saturating_add(place);
        self.text.clear();
        self.text.push_str("{\"made\":[")?;
        for made in first..self.next {
            if made > first {
                self.text.push_str(",")?;
            }
            write!(self.text, "{made}")?;
        }
        let stamp = self.stamp;
        write!(self.text, "],\"number\":{number},\"stamp\":{stamp}}}")?;
        self.stamp = stamp.saturating_add(1);
        self.talk.expect_object(self.text.as_str())?;
        self.talk.mark("an act", 0)?;
        Ok(number)
    }

    /// Adds the enrolment of a party with a name.
    fn enrol(&mut self, name: &str) -> Result<u64, AllocError> {
        self.text.clear();
        write!(
            self.text,
            "{{\"kind\":\"naturalPerson\",\"name\":\"{name}\"}}"
        )?;
        self.act("POST /acts/enrol", OFFICE, 1, 0)
    }

    /// Adds the registration of a unit of a party with `parcels` parcels.
    fn register(&mut self, party: u64, parcels: u64) -> Result<u64, AllocError> {
        self.text.clear();
        self.text.push_str("{\"name\":\"G\",\"checked\":true,\"document\":\"D\",\"parcels\":[")?;
        for parcel in 0..parcels {
            if parcel > 0 {
                self.text.push_str(",")?;
            }
            self.text.push_str("{\"label\":\"P\",\"outline\":\"POLYGON ((0 0, 1 0, 1 1, 0 0))\"}")?;
        }
        write!(
            self.text,
            "],\"rights\":[{{\"party\":{party},\"type\":\"ownership\",\"share\":\"1/1\"}}]}}"
        )?;
        self.act("POST /acts/register", OFFICE, parcels.saturating_add(3), 1)
    }

    /// Adds a mandate of a party for an agent.
    fn mandate(&mut self, fields: &str, agent: u64) -> Result<(), AllocError> {
        self.text.clear();
        write!(self.text, "{{\"agent\":{agent}}}")?;
        self.talk
            .push_request("POST /acts/mandate", fields, self.text.as_bytes())?;
        let stamp = self.stamp;
        self.text.clear();
        write!(
            self.text,
            "{{\"made\":[],\"number\":{agent},\"stamp\":{stamp}}}"
        )?;
        self.stamp = stamp.saturating_add(1);
        self.talk.expect_object(self.text.as_str())?;
        self.talk.mark("a mandate", 0)
    }

    /// Adds a list that returns these numbers.
    fn list(&mut self, line: &str, fields: &str, numbers: &[u64]) -> Result<(), AllocError> {
        self.talk.push_request(line, fields, b"")?;
        self.text.clear();
        self.text.push_str("{\"numbers\":[")?;
        for (place, number) in numbers.iter().enumerate() {
            if place > 0 {
                self.text.push_str(",")?;
            }
            write!(self.text, "{number}")?;
        }
        self.text.push_str("]}")?;
        self.talk.expect_object(self.text.as_str())?;
        self.talk.mark("a list", 0)
    }
}

/// The number of parties of the long list: its reply has 70,929 bytes of numbers and commas.
const PARTIES: u64 = 12_000;

/// Returns twelve thousand enrolments, and then the list of all parties.
fn long_list(alloc: Global) -> Result<Requests, AllocError> {
    let mut requests = Requests::new(alloc)?;
    let mut numbers = Vec::with_capacity(alloc, 16_384)?;
    numbers.push(1)?;
    for _ in 0..PARTIES {
        let number = requests.enrol("Anna")?;
        numbers.push(number)?;
    }
    requests.list("GET /parties", OFFICE, &numbers)?;
    Ok(requests)
}

/// Tests that a list of 12,001 numbers is returned whole.
pub fn a_long_list_is_returned(alloc: Global) -> Result<(), Stop> {
    let requests = long_list(alloc)?;
    let mut keeper = SqlKeeper::new(new_tables(alloc)?);
    play(alloc, &mut keeper, &[], &requests.talk)
}

/// The number of principals of one agent.
const PRINCIPALS: u64 = 70;

/// Returns the requests of seventy parties, each with a unit, that give a mandate to party 2, which then
/// lists all units as its own.
fn large_circle(alloc: Global) -> Result<Requests, AllocError> {
    let mut requests = Requests::new(alloc)?;
    let mut units = Vec::with_capacity(alloc, 128)?;
    let mut fields = String::with_capacity(alloc, 128)?;
    let agent = requests.enrol("Sam")?;
    for _ in 0..PRINCIPALS {
        let party = requests.enrol("Anna")?;
        units.push(requests.register(party, 1)?)?;
        fields.clear();
        write!(
            fields,
            "Register-Party: {party}\r\nRegister-Role: citizen\r\n"
        )?;
        requests.mandate(fields.as_str(), agent)?;
    }
    fields.clear();
    write!(
        fields,
        "Register-Party: {agent}\r\nRegister-Role: citizen\r\n"
    )?;
    requests.list("GET /units", fields.as_str(), &units)?;
    Ok(requests)
}

/// Tests that an agent of seventy principals sees the units of each.
pub fn a_large_circle_is_seen(alloc: Global) -> Result<(), Stop> {
    let requests = large_circle(alloc)?;
    let mut plain = PlainKeeper::new(alloc)?;
    play(alloc, &mut plain, &[], &requests.talk)?;
    let mut keeper = SqlKeeper::new(new_tables(alloc)?);
    play(alloc, &mut keeper, &[], &requests.talk)
}

/// Returns the name of each party of the extract: 200 characters of four bytes.
fn long_name(alloc: Global) -> Result<String, AllocError> {
    let mut name = String::with_capacity(alloc, 1024)?;
    for _ in 0..200 {
        name.push_str("\u{1f600}")?;
    }
    Ok(name)
}

/// Returns the extract of six hundred parties: after each hundred a registration takes 23 numbers, so that a
/// part ends there or after 256 rows.
fn long_extract(alloc: Global) -> Result<(Requests, String), AllocError> {
    let mut requests = Requests::new(alloc)?;
    let mut rows = String::with_capacity(alloc, 524_288)?;
    let name = long_name(alloc)?;
    rows.push_str("number,name,kind\n1,Land Office,nonNaturalPerson\n")?;
    for _ in 0..6 {
        for _ in 0..100 {
            let number = requests.enrol(name.as_str())?;
            let name = name.as_str();
            write!(rows, "{number},{name},naturalPerson\n")?;
        }
        requests.register(2, 20)?;
    }
    Ok((requests, rows))
}

/// Checks that a keeper that gets these requests writes this extract of the parties.
fn expect_extract<K: Keeper>(
    alloc: Global,
    keeper: &mut K,
    requests: &Requests,
    rows: &str,
) -> Result<(), Stop> {
    play(alloc, keeper, &[], &requests.talk)?;
    let office = Caller {
        party: 1,
        role: Role::StateAdministrator,
    };
    let mut sink = open_sink(alloc, rows.len())?;
    match extract_to(alloc, keeper, 0, office, Kind::Party, None, &mut sink) {
        Ok(written) => expect(
            written == rows.len() as u64 && sink.taken.as_slice() == rows.as_bytes(),
            "a long extract",
            0,
        ),
        Err(
            ExtractFault::Store {
                fault: StoreFault::NoMemory,
                ..
            },
        ) => Err(Stop::Memory),
        Err(_) => Err(Stop::Mismatch("a long extract", 1)),
    }
}

/// Tests that an extract of several parts is written whole.
pub fn a_long_extract_is_written(alloc: Global) -> Result<(), Stop> {
    let (requests, rows) = long_extract(alloc)?;
    let mut plain = PlainKeeper::new(alloc)?;
    expect_extract(alloc, &mut plain, &requests, rows.as_str())?;
    let mut keeper = SqlKeeper::new(new_tables(alloc)?);
    expect_extract(alloc, &mut keeper, &requests, rows.as_str())
}
