// Where cells lie in the table, as code: the lengths of a row and of the table, and the places of the parties and of the rows.
#![tactic(auto)]

ghost use Rattle.std.specs.Prelude.{◌≡◌, ◌+◌, ◌≤◌, length, get_or};
ghost use Rattle.lists.specs.Tests.{every, inside};
ghost use Rattle.protocol.specs.declared.Counts.{Counts as Setup};
ghost use Rattle.protocol.specs.Cells.{server_up, suspects, database_up, ready, client_up, phase, attempt, request, delivered, row_of};
ghost use Rattle.protocol.specs.Numbers.{count_tests};
ghost use Rattle.table.specs.Layout.{row_length, databases_start, clients_start, rows_start, row_start, place, table_length};
ghost use Rattle.table.specs.Table.{counts_of, view, row_view};
ghost use Rattle.layout.specs.Ranged.{Ranged};

use protocol::Counts;
use std::ops::Range;

// The most clients, servers or databases, and the most attempts of a client.
const MOST_PARTIES: u16 = 8;

const MOST_ATTEMPTS: u16 = 16;

// How many cells the header has, each server, each database, each client, and a row but for its acknowledgements.
pub const HEADER: usize = 4;

pub const SERVER_CELLS: usize = 2;

pub const DATABASE_CELLS: usize = 2;

pub const CLIENT_CELLS: usize = 5;

const FIXED_CELLS: usize = 13;

// Where a party keeps its cells, counted from its first.
pub const UP: usize = 0;

pub const SUSPECTS: usize = 1;

pub const READY: usize = 1;

pub const PHASE: usize = 1;

pub const ATTEMPT: usize = 2;

pub const REQUEST: usize = 3;

pub const DELIVERED: usize = 4;

// ---- the counts

// Those in the header of a table.
pub fn counts_of(table: &[u16]) -> Counts
    requires { 4 ≤ length table.now }
    ensures { result ≡ counts_of table.now }
{
    Counts {
        clients: table[0],
        servers: table[1],
        databases: table[2],
        attempts: table[3],
    }
}

// Whether a count is from 1 to the most.
fn count_fits(count: u16, most: u16) -> bool
    ensures { result ≡ inside most count }
{
    (1..=most).contains(&count)
}

// Whether all four counts are in range.
pub fn counts_fit(counts: Counts) -> bool
    ensures { result ≡ every (count_tests counts) }
{
    count_fits(counts.clients, MOST_PARTIES)
        && count_fits(counts.servers, MOST_PARTIES)
        && count_fits(counts.databases, MOST_PARTIES)
        && count_fits(counts.attempts, MOST_ATTEMPTS)
}

// ---- the parties, behind the header: each place is a sum of its own, with the name of its cell in its contract

// Where the cells of a server start.
#[tactic(auto, unfolding(table::specs::Layout::place))]
pub fn server_at(server: u16) -> usize
    requires { 1 ≤ server }
    ensures { (n : Setup) → result ≡ place n (server_up server) }
{
    HEADER + SERVER_CELLS * (server as usize - 1)
}

// Where those of the databases start.
pub fn databases_start(counts: Counts) -> usize
    ensures { result ≡ databases_start counts }
{
    HEADER + SERVER_CELLS * (counts.servers as usize)
}

// Where the cells of a database start.
#[tactic(auto, unfolding(table::specs::Layout::place))]
pub fn database_at(counts: Counts, database: u16) -> usize
    requires { 1 ≤ database }
    ensures { result ≡ place counts (database_up database) }
{
    databases_start(counts) + DATABASE_CELLS * (database as usize - 1)
}

// Where those of the clients start.
pub fn clients_start(counts: Counts) -> usize
    ensures { result ≡ clients_start counts }
{
    databases_start(counts) + DATABASE_CELLS * (counts.databases as usize)
}

// Where the cells of a client start.
#[tactic(auto, unfolding(table::specs::Layout::place))]
pub fn client_at(counts: Counts, client: u16) -> usize
    requires { 1 ≤ client }
    ensures { result ≡ place counts (client_up client) }
{
    clients_start(counts) + CLIENT_CELLS * (client as usize - 1)
}

// ---- the rows, behind the parties

// How many cells a row has: the fixed ones, then two masks of acknowledgements for each server.
pub fn row_length(counts: Counts) -> usize
    ensures { result ≡ row_length counts }
{
    FIXED_CELLS + 2 * (counts.servers as usize)
}

// Where the rows start.
pub fn rows_start(counts: Counts) -> usize
    ensures { result ≡ rows_start counts }
{
    clients_start(counts) + CLIENT_CELLS * (counts.clients as usize)
}

// Where the row of a result starts.
#[tactic(auto, unfolding(table::specs::Layout::row_start))]
pub fn row_start(counts: Counts, client: u16, attempt: u16) -> usize
    requires ranged { Ranged counts }
    requires client_there { (1 ≤ client) × (client ≤ counts.clients) }
    requires attempt_there { (1 ≤ attempt) × (attempt ≤ counts.attempts) }
    ensures { result ≡ row_start counts client attempt }
{
    let before = (client as usize - 1) * (counts.attempts as usize) + (attempt as usize - 1);
    rows_start(counts) + before * row_length(counts)
}

// The places of its cells in the table.
#[tactic(auto, using(crate::proofs::Laws::row_end_most))]
pub fn row_range(counts: Counts, client: u16, attempt: u16) -> Range<usize>
    requires ranged { Ranged counts }
    requires client_there { (1 ≤ client) × (client ≤ counts.clients) }
    requires attempt_there { (1 ≤ attempt) × (attempt ≤ counts.attempts) }
    ensures start { result.start ≡ row_start counts client attempt }
    ensures end { result.end ≡ row_start counts client attempt + row_length counts }
{
    let start = row_start(counts, client, attempt);
    start..start + row_length(counts)
}

// How many cells the table has.
#[tactic(auto, unfolding(table::specs::Layout::table_length))]
pub fn table_length(counts: Counts) -> usize
    requires { Ranged counts }
    ensures { result ≡ table_length counts }
{
    let rows = (counts.clients as usize) * (counts.attempts as usize);
    rows_start(counts) + rows * row_length(counts)
}

// ---- a lent table that is only read

// The cells of a table and its counts, each in its range: as many cells as the counts say.
#[derive(Clone, Copy, Debug)]
pub struct Table<'a> {
    pub cells: &'a [u16],
    pub counts: Counts,
    pub ghost whole: { length cells.now ≡ table_length counts },
    pub ghost ranged: { Ranged counts },
}

impl<'a> Table<'a> {
    // The cells of a server.
    pub fn server(&self, server: u16) -> &'a [u16]
        requires server_there { (1 ≤ server) × (server ≤ self.now.counts.servers) }
        ensures cells { length result.now ≡ 2 }
        ensures up { get_or result.now 0 0 ≡ view self.now.counts self.now.cells.now (server_up server) }
        ensures suspects { get_or result.now 1 0 ≡ view self.now.counts self.now.cells.now (suspects server) }
    {
        let start = server_at(server);
        &self.cells[start..start + SERVER_CELLS]
    }

    // Those of a database.
    #[tactic(auto, using(crate::proofs::Laws::database_lent))]
    pub fn database(&self, database: u16) -> &'a [u16]
        requires database_there { (1 ≤ database) × (database ≤ self.now.counts.databases) }
        ensures cells { length result.now ≡ 2 }
        ensures up { get_or result.now 0 0 ≡ view self.now.counts self.now.cells.now (database_up database) }
        ensures ready { get_or result.now 1 0 ≡ view self.now.counts self.now.cells.now (ready database) }
    {
        let start = database_at(self.counts, database);
        &self.cells[start..start + DATABASE_CELLS]
    }

    // Those of a client.
    #[tactic(auto, using(crate::proofs::Laws::client_lent))]
    pub fn client(&self, client: u16) -> &'a [u16]
        requires client_there { (1 ≤ client) × (client ≤ self.now.counts.clients) }
        ensures cells { length result.now ≡ 5 }
        ensures up { get_or result.now 0 0 ≡ view self.now.counts self.now.cells.now (client_up client) }
        ensures phase { get_or result.now 1 0 ≡ view self.now.counts self.now.cells.now (phase client) }
        ensures attempt { get_or result.now 2 0 ≡ view self.now.counts self.now.cells.now (attempt client) }
        ensures request { get_or result.now 3 0 ≡ view self.now.counts self.now.cells.now (request client) }
        ensures delivered { get_or result.now 4 0 ≡ view self.now.counts self.now.cells.now (delivered client) }
    {
        let start = client_at(self.counts, client);
        &self.cells[start..start + CLIENT_CELLS]
    }

    // The row of a result.
    #[tactic(auto, using(crate::proofs::Laws::row_inside))]
    pub fn row(&self, client: u16, attempt: u16) -> &'a [u16]
        requires client_there { (1 ≤ client) × (client ≤ self.now.counts.clients) }
        requires attempt_there { (1 ≤ attempt) × (attempt ≤ self.now.counts.attempts) }
        ensures cells { length result.now ≡ row_length self.now.counts }
        ensures row { row_view self.now.counts result.now ≡ row_of (view self.now.counts self.now.cells.now) client attempt }
    {
        &self.cells[row_range(self.counts, client, attempt)]
    }
}
