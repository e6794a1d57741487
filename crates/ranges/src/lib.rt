// Number 2: whether every cell of the table is in its range, asked of each party and of each row.
#![tactic(auto)]

ghost use Rattle.std.specs.Prelude.{◌≡◌, length, fold, bit_or};
ghost use Rattle.lists.specs.Tests.{every, each};
ghost use Rattle.protocol.specs.Agreement.{Id};
ghost use Rattle.protocol.specs.Cells.{row_of};
ghost use Rattle.protocol.specs.Numbers.{server_tests, database_tests, client_tests, row_tests, in_range};
ghost use Rattle.table.specs.Layout.{row_length};
ghost use Rattle.table.specs.Table.{view, row_view};
ghost use Rattle.layout.specs.Ranged.{Ranged};
ghost use Rattle.ranges.specs.Groups.{number_tests, server_mask_tests, database_mask_tests};

use gates::{
    COMMITTED, DECIDED, HEARD, HEARD_YES, OUTCOME, OWNER, SENT, TERMINATING, VOTED, VOTED_YES,
    WRITTEN,
};
use layout::{ATTEMPT, PHASE, READY, SUSPECTS, Table, UP};
use protocol::{Counts, Phase};

// ---- the parties

// Whether the cells of a server are in range.
fn server_fits(table: &Table, server: u16) -> bool
    requires server_there { Id table.now.counts.servers server }
    ensures { result ≡ every (server_tests table.now.counts (view table.now.counts table.now.cells.now) server) }
{
    let cells = table.server(server);
    cells[UP] <= 1 && cells[SUSPECTS] <= masks::all(table.counts.servers)
}

// Whether those of all servers are.
fn servers_fit(table: &Table) -> bool
    ensures { result ≡ each table.now.counts.servers (λ i. every (server_tests table.now.counts (view table.now.counts table.now.cells.now) i)) }
{
    (1..=table.counts.servers).all(|server| server_fits(table, server))
}

// Whether the cells of a database are in range.
fn database_fits(table: &Table, database: u16) -> bool
    requires database_there { Id table.now.counts.databases database }
    ensures { result ≡ every (database_tests table.now.counts (view table.now.counts table.now.cells.now) database) }
{
    let cells = table.database(database);
    cells[UP] <= 1 && cells[READY] <= 1
}

// Whether those of all databases are.
fn databases_fit(table: &Table) -> bool
    ensures { result ≡ each table.now.counts.databases (λ d. every (database_tests table.now.counts (view table.now.counts table.now.cells.now) d)) }
{
    (1..=table.counts.databases).all(|database| database_fits(table, database))
}

// Whether the cells of a client are in range, its attempt 0 exactly when its phase is 0.
fn client_fits(table: &Table, client: u16) -> bool
    requires client_there { Id table.now.counts.clients client }
    ensures { result ≡ every (client_tests table.now.counts (view table.now.counts table.now.cells.now) client) }
{
    let cells = table.client(client);
    let phase = cells[PHASE];
    let attempt = cells[ATTEMPT];
    cells[UP] <= 1
        && phase <= Phase::GivenUp as u16
        && attempt <= table.counts.attempts
        && (attempt == 0) == (phase == Phase::Idle as u16)
}

// Whether those of all clients are.
fn clients_fit(table: &Table) -> bool
    ensures { result ≡ each table.now.counts.clients (λ c. every (client_tests table.now.counts (view table.now.counts table.now.cells.now) c)) }
{
    (1..=table.counts.clients).all(|client| client_fits(table, client))
}

// ---- a row, lent by itself

// The cells of a row and the counts of its table: as many cells as the counts say.
#[derive(Clone, Copy, Debug)]
struct LentRow<'a> {
    cells: &'a [u16],
    counts: Counts,
    ghost whole: { length cells.now ≡ row_length counts },
    ghost ranged: { Ranged counts },
}

// What stands in any of these masks and of those that follow them.
fn joined(fixed: u16, masks: &[u16]) -> u16
    ensures { result ≡ fold bit_or fixed masks.now }
{
    masks.iter().fold(fixed, |seen, mask| seen | mask)
}

impl<'a> LentRow<'a> {
    // Whether the owner, the outcome and that the owner wrote are in range.
    fn numbers_fit(&self) -> bool
        ensures { result ≡ every (number_tests self.now.counts (row_view self.now.counts self.now.cells.now)) }
    {
        let row = self.cells;
        row[OWNER] <= self.counts.servers && row[OUTCOME] <= 2 && row[WRITTEN] <= 1
    }

    // Whether the masks of servers are: what stands in any of them is in range exactly if each of them is.
    fn server_masks_fit(&self) -> bool
        ensures { result ≡ every (server_mask_tests self.now.counts (row_view self.now.counts self.now.cells.now)) }
    {
        let row = self.cells;
        row[SENT] | row[TERMINATING] <= masks::all(self.counts.servers)
    }

    // Whether the masks of databases are, by what stands in any of them: the fixed ones, then the acknowledgements up to the row's end.
    fn database_masks_fit(&self) -> bool
        ensures { result ≡ every (database_mask_tests self.now.counts (row_view self.now.counts self.now.cells.now)) }
    {
        let row = self.cells;
        let fixed = row[VOTED]
            | row[VOTED_YES]
            | row[HEARD]
            | row[HEARD_YES]
            | row[DECIDED]
            | row[COMMITTED];
        joined(fixed, &row[COMMITTED + 1..]) <= masks::all(self.counts.databases)
    }

    // Whether all cells of the row are in range; value and computed may hold any number.
    fn fits(&self) -> bool
        ensures { result ≡ every (row_tests self.now.counts (row_view self.now.counts self.now.cells.now)) }
    {
        self.numbers_fit() && self.server_masks_fit() && self.database_masks_fit()
    }
}

// ---- the whole table

// Whether those of all rows are. They lie one behind the other up to the table's end.
#[tactic(auto, using(crate::proofs::Laws::rows_inside))]
fn rows_fit(table: &Table) -> bool
    ensures { result ≡ each table.now.counts.clients (λ c. each table.now.counts.attempts (λ k. every (row_tests table.now.counts (row_of (view table.now.counts table.now.cells.now) c k)))) }
{
    let rows = &table.cells[layout::rows_start(table.counts)..];
    rows.chunks_exact(layout::row_length(table.counts)).all(
        |row|
            requires { length row.now ≡ row_length table.now.counts }
        {
            let lent = LentRow {
                cells: row,
                counts: table.counts,
            };
            lent.fits()
        },
    )
}

// Whether every cell of a table is in range.
#[tactic(auto, unfolding(protocol::specs::Numbers::in_range))]
pub fn in_range(table: Table) -> bool
    ensures { result ≡ in_range table.entry.counts (view table.entry.counts table.entry.cells.now) }
{
    servers_fit(&table) && databases_fit(&table) && clients_fit(&table) && rows_fit(&table)
}
