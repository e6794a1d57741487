// The table of kinds, and the one field check that consults it.
#![tactic(auto)]

ghost use Rattle.std.specs.Prelude.{◌≡◌};
ghost use Rattle.lists.specs.Tests.{every};
ghost use Rattle.protocol.specs.declared.Counts.{Counts};
ghost use Rattle.protocol.specs.Events.{fits};
ghost use Rattle.protocol.specs.Numbers.{fields};
ghost use Rattle.kinds.specs.Limits.{limit_number, limited, most_of};

use Limit::{Attempt, Client, Database, Number, Server, Unused, YesOrNo};
use protocol::{Counts, Event, Kind};

// What a field may hold.
#[derive(Clone, Copy, Debug, PartialEq, Eq)]
enum Limit {
    Unused,
    Client,
    Attempt,
    Server,
    Database,
    Number,
    YesOrNo,
}

// A line for each kind from 1 to 18: client, attempt, server, database, value.
const KINDS: [[Limit; 5]; 18] = [
    [Client, Unused, Unused, Unused, Number],
    [Client, Unused, Unused, Unused, Unused],
    [Client, Attempt, Server, Unused, Unused],
    [Client, Attempt, Server, Unused, Number],
    [Client, Attempt, Unused, Database, YesOrNo],
    [Client, Attempt, Server, Database, Unused],
    [Client, Attempt, Server, Database, Unused],
    [Client, Attempt, Server, Unused, Unused],
    [Unused, Unused, Server, Unused, Server],
    [Unused, Unused, Server, Unused, Server],
    [Client, Attempt, Server, Unused, Unused],
    [Client, Attempt, Server, Database, Unused],
    [Client, Attempt, Server, Database, Unused],
    [Client, Attempt, Server, Unused, Unused],
    [Unused, Unused, Server, Unused, Unused],
    [Unused, Unused, Unused, Database, Unused],
    [Client, Unused, Unused, Unused, Unused],
    [Unused, Unused, Unused, Database, Unused],
];

// The largest value of a field, by what it may hold.
fn largest(counts: Counts) -> [u16; 7]
    ensures { result ≡ most_of counts }
{
    [
        0,
        counts.clients,
        counts.attempts,
        counts.servers,
        counts.databases,
        65535,
        2,
    ]
}

// Whether a field is 0 exactly where it is unused, and at most its largest value. That one is a place among seven numbers that are
// made once for an event: a match over the seven limits in each of the five checks is slower.
fn field_fits(most: &[u16; 7], limit: Limit, value: u16) -> bool
    ensures { (n : Counts) → most.now ≡ most_of n → result ≡ fits n (limit_number limit) value }
{
    (value == 0) == (limit == Unused) && value <= most[limit as usize]
}

// Whether the five fields of an event are as a line of the table says.
fn line_fits(limits: [Limit; 5], counts: Counts, event: Event) -> bool
    ensures { result ≡ every (limited counts limits event) }
{
    let most = largest(counts);
    field_fits(&most, limits[0], event.client)
        && field_fits(&most, limits[1], event.attempt)
        && field_fits(&most, limits[2], event.server)
        && field_fits(&most, limits[3], event.database)
        && field_fits(&most, limits[4], event.value)
}

// Whether the fields of an event are as the line of its kind says; nothing is asked of a kind that has no line. Each line is read
// at a place of its own, and asked there: at a computed one the whole table would be written to the stack first, for the back end
// keeps no constants, and one line that is chosen first and asked after is slower too.
pub fn fields_fit(counts: Counts, event: Event) -> bool
    ensures { result ≡ every (fields counts event) }
{
    let kinds = KINDS;
    let Ok(kind) = Kind::try_from(event.kind) else {
        return true;
    };
    match kind {
        Kind::Issue => line_fits(kinds[0], counts, event),
        Kind::Timeout => line_fits(kinds[1], counts, event),
        Kind::RequestArrives => line_fits(kinds[2], counts, event),
        Kind::Compute => line_fits(kinds[3], counts, event),
        Kind::PrepareArrives => line_fits(kinds[4], counts, event),
        Kind::VoteArrives => line_fits(kinds[5], counts, event),
        Kind::ReadyArrives => line_fits(kinds[6], counts, event),
        Kind::Write => line_fits(kinds[7], counts, event),
        Kind::Suspect => line_fits(kinds[8], counts, event),
        Kind::Trust => line_fits(kinds[9], counts, event),
        Kind::Clean => line_fits(kinds[10], counts, event),
        Kind::DecideArrives => line_fits(kinds[11], counts, event),
        Kind::AckArrives => line_fits(kinds[12], counts, event),
        Kind::ResultArrives => line_fits(kinds[13], counts, event),
        Kind::ServerCrashes => line_fits(kinds[14], counts, event),
        Kind::DatabaseCrashes => line_fits(kinds[15], counts, event),
        Kind::ClientCrashes => line_fits(kinds[16], counts, event),
        Kind::DatabaseRecovers => line_fits(kinds[17], counts, event),
    }
}
