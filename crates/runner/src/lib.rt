// The jobs over plain numbers, as C calls them (include/vrolkant.h): set up, one event, and the list of events. `runner_c` exports them:
// a crate is built as a library or as an archive. They take and answer numbers, since that is what C declares.
#![tactic(auto)]

ghost use Rattle.std.specs.Prelude.{◌≡◌};
ghost use Rattle.table.specs.Jobs.{set_up, applied, ran};
ghost use Rattle.runner.specs.Asked.{length_for};

use protocol::{Counts, Event};

// How many cells the table of a setup has, or 0 where a count is outside its range.
pub fn vrolkant_table_length(clients: u16, servers: u16, databases: u16, attempts: u16) -> usize
    ensures { result ≡ length_for (record { clients = clients; servers = servers; databases = databases; attempts = attempts }) }
{
    let counts = Counts {
        clients,
        servers,
        databases,
        attempts,
    };
    if !layout::counts_fit(counts) {
        return 0;
    }
    layout::table_length(counts)
}

// Sets up a fresh table.
pub fn vrolkant_set_up(
    table: &mut [u16],
    clients: u16,
    servers: u16,
    databases: u16,
    attempts: u16,
) -> u16
    ensures { (result ≡ (set_up table.old (record { clients = clients; servers = servers; databases = databases; attempts = attempts })).number) × (table.new ≡ (set_up table.old (record { clients = clients; servers = servers; databases = databases; attempts = attempts })).cells) }
{
    let counts = Counts {
        clients,
        servers,
        databases,
        attempts,
    };
    engine::number(engine::set_up(table, counts))
}

// Applies one event.
pub fn vrolkant_apply(
    table: &mut [u16],
    kind: u16,
    client: u16,
    attempt: u16,
    server: u16,
    database: u16,
    value: u16,
) -> u16
    ensures { (result ≡ (applied table.old (record { kind = kind; client = client; attempt = attempt; server = server; database = database; value = value })).number) × (table.new ≡ (applied table.old (record { kind = kind; client = client; attempt = attempt; server = server; database = database; value = value })).cells) }
{
    let event = Event {
        kind,
        client,
        attempt,
        server,
        database,
        value,
    };
    engine::step(table, event)
}

// How many events were accepted, and the number of the refusal that ended the list, or 0.
#[repr(C)]
#[derive(Clone, Copy, Debug, PartialEq, Eq)]
pub struct Ran {
    pub accepted: usize,
    pub refusal: u16,
}

// Applies the events one after another; the one refused, and a table refused before them all, leave every cell as it was.
pub fn vrolkant_run(table: &mut [u16], events: &[Event]) -> Ran
    ensures { (result.accepted ≡ (ran table.old events.now).accepted) × (result.refusal ≡ (ran table.old events.now).refusal) × (table.new ≡ (ran table.old events.now).cells) }
{
    // once, because an accepted event leaves a sound table sound; an empty list is asked too
    if let Err(refusal) = engine::look_over(&table[..]) {
        return Ran {
            accepted: 0,
            refusal: u16::from(refusal),
        };
    }
    for (accepted, event) in events.iter().enumerate() {
        if let Err(refusal) = engine::apply_sound(table, *event) {
            return Ran {
                accepted,
                refusal: u16::from(refusal),
            };
        }
    }
    Ran {
        accepted: events.len(),
        refusal: 0,
    }
}
