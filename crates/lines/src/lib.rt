// The lines of the listing program: the first line and the event lines read, the lines of its output written.
#![tactic(auto)]

ghost use Rattle.std.specs.Prelude.{◌≡◌, [], ◌∷◌};
ghost use Rattle.text.specs.Writing.{line};
ghost use Rattle.text.specs.Lent.{Continues};
ghost use Rattle.text.specs.Seen.{seen};
ghost use Rattle.lines.specs.Lines.{end_before, read_numbers, read_counts, read_event, client_text, result_text};

use protocol::{Counts, Event};
use text::{NEWLINE, Page, SPACE};

// ---- reading

// The byte that ends a number of a line, by how many numbers stand behind it there.
fn end_before(others: usize) -> u8
    ensures { result ≡ end_before others }
{
    if others == 0 { NEWLINE } else { SPACE }
}

// The numbers of a line, a space between and a newline at the end; what stands behind it.
fn read_numbers<const N: usize>(input: &[u8]) -> Option<([u16; N], &[u8])>
    ensures { seen result ≡ read_numbers N input.now }
{
    let mut numbers = [0; N];
    let mut rest = input;
    for place in 0..N {
        let (number, behind) = text::read_number(rest, end_before(N - place - 1))?;
        numbers[place] = number;
        rest = behind;
    }
    Some((numbers, rest))
}

// The counts of a first line, and what stands behind it.
pub fn read_counts(input: &[u8]) -> Option<(Counts, &[u8])>
    ensures { seen result ≡ read_counts input.now }
{
    let ([clients, servers, databases, attempts], behind) = read_numbers::<4>(input)?;
    let counts = Counts {
        clients,
        servers,
        databases,
        attempts,
    };
    Some((counts, behind))
}

// The record of an event line, and what stands behind it.
pub fn read_event(input: &[u8]) -> Option<(Event, &[u8])>
    ensures { seen result ≡ read_event input.now }
{
    let ([kind, client, attempt, server, database, value], behind) = read_numbers::<6>(input)?;
    let event = Event {
        kind,
        client,
        attempt,
        server,
        database,
        value,
    };
    Some((event, behind))
}

// ---- writing

// The numbers of a line, a space between and a newline at the end.
fn put_line(page: &mut Page, numbers: &[u16])
    ensures { Continues page.old page.new (line numbers.now) }
{
    let Some((last, others)) = numbers.split_last() else {
        return page.put(NEWLINE);
    };
    for number in others {
        page.put_number(*number, SPACE);
    }
    page.put_number(*last, NEWLINE);
}

// The place of an event and its number.
pub fn put_place(page: &mut Page, place: u16, number: u16)
    ensures { Continues page.old page.new (line (place ∷ number ∷ [])) }
{
    put_line(page, &[place, number]);
}

// A client: its phase, its attempt and the delivered value.
pub fn put_client(page: &mut Page, client: u16, phase: u16, attempt: u16, delivered: u16)
    ensures { Continues page.old page.new (client_text client phase attempt delivered) }
{
    page.put(b'C');
    page.put(SPACE);
    put_line(page, &[client, phase, attempt, delivered]);
}

// A result: its owner, its outcome and value, and how many databases voted yes and committed.
pub fn put_result(
    page: &mut Page,
    client: u16,
    attempt: u16,
    owner: u16,
    outcome: u16,
    value: u16,
    votes: u16,
    commits: u16,
)
    ensures { Continues page.old page.new (result_text client attempt owner outcome value votes commits) }
{
    page.put(b'R');
    page.put(SPACE);
    put_line(
        page,
        &[client, attempt, owner, outcome, value, votes, commits],
    );
}
