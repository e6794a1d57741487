// Writes the fresh table into lent cells: clears them all, writes the header, and raises every party's up cell.
#![tactic(auto)]

ghost use Rattle.std.specs.Prelude.{◌≡◌, ◌+◌, ◌*◌, ◌≤◌, length};
ghost use Rattle.table.specs.Layout.{table_length};
ghost use Rattle.table.specs.Table.{fresh_table};
ghost use Rattle.fresh.specs.Writes.{headed, raised};

use protocol::Counts;

// The counts in the header.
fn write_header(table: &mut [u16], counts: Counts)
    requires { 4 ≤ length table.old }
    ensures { table.new ≡ headed counts table.old }
{
    table[0] = counts.clients;
    table[1] = counts.servers;
    table[2] = counts.databases;
    table[3] = counts.attempts;
}

// The up cells of all parties of one sort, each `width` cells behind the one before. They are counted from the first one's place in the table, since a
// part of it would have to be put back for each sort.
#[tactic(auto, using(crate::proofs::Laws::raised_more))]
fn raise(table: &mut [u16], start: usize, width: usize, count: u16)
    requires { (1 ≤ width) × (start + width * count ≤ length table.old) }
    ensures { table.new ≡ raised count start width table.old }
{
    for party in 0..count as usize {
        table[start + width * party] = 1;
    }
}

// The fresh table.
#[tactic(auto, using(crate::proofs::Laws::parties))]
pub fn make(table: &mut [u16], counts: Counts)
    requires { length table.old ≡ table_length counts }
    ensures { table.new ≡ fresh_table counts }
{
    table.fill(0);
    write_header(table, counts);
    raise(
        table,
        layout::server_at(1),
        layout::SERVER_CELLS,
        counts.servers,
    );
    raise(
        table,
        layout::database_at(counts, 1),
        layout::DATABASE_CELLS,
        counts.databases,
    );
    raise(
        table,
        layout::client_at(counts, 1),
        layout::CLIENT_CELLS,
        counts.clients,
    );
}
