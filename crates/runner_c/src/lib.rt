// The jobs of `runner` under the names by which C calls them (include/vrolkant.h), each with the clauses of the function that it calls:
// a crate is built as a library or as an archive. Numbers are what C declares.
#![tactic(auto)]

ghost use Rattle.std.specs.Prelude.{◌≡◌};
ghost use Rattle.table.specs.Jobs.{set_up, applied, ran};
ghost use Rattle.runner.specs.Asked.{length_for};

use protocol::Event;
use runner::Ran;

// How many cells the table of a setup has, or 0 where a count is outside its range.
#[unsafe(no_mangle)]
pub extern "C" fn vrolkant_table_length(
    clients: u16,
    servers: u16,
    databases: u16,
    attempts: u16,
) -> usize
    ensures { result ≡ length_for (record { clients = clients; servers = servers; databases = databases; attempts = attempts }) }
{
    runner::vrolkant_table_length(clients, servers, databases, attempts)
}

// Sets up a fresh table.
#[unsafe(no_mangle)]
pub extern "C" fn vrolkant_set_up(
    table: &mut [u16],
    clients: u16,
    servers: u16,
    databases: u16,
    attempts: u16,
) -> u16
    ensures { (result ≡ (set_up table.old (record { clients = clients; servers = servers; databases = databases; attempts = attempts })).number) × (table.new ≡ (set_up table.old (record { clients = clients; servers = servers; databases = databases; attempts = attempts })).cells) }
{
    runner::vrolkant_set_up(table, clients, servers, databases, attempts)
}

// Applies one event.
#[unsafe(no_mangle)]
pub extern "C" fn vrolkant_apply(
    table: &mut [u16],
    kind: u16,
    client: u16,
    attempt: u16,
    server: u16,
    database: u16,
    value: u16,
) -> u16
    ensures { (result ≡ (applied table.old (record { kind = kind; client = client; attempt = attempt; server = server; database = database; value = value })).number) × (table.new ≡ (applied table.old (record { kind = kind; client = client; attempt = attempt; server = server; database = database; value = value })).cells) }
{
    runner::vrolkant_apply(table, kind, client, attempt, server, database, value)
}

// Applies the events one after another; the one refused, and a table refused before them all, leave every cell as it was.
#[unsafe(no_mangle)]
pub extern "C" fn vrolkant_run(table: &mut [u16], events: &[Event]) -> Ran
    ensures { (result.accepted ≡ (ran table.old events.now).accepted) × (result.refusal ≡ (ran table.old events.now).refusal) × (table.new ≡ (ran table.old events.now).cells) }
{
    runner::vrolkant_run(table, events)
}
