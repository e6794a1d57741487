// The two write-once registers: claims, one cell that holds an owner, and decisions, two cells that hold an outcome and its value.
#![tactic(auto)]

ghost use Rattle.std.specs.Prelude.{◌≡◌, length};
ghost use Rattle.registers.specs.Register.{held, outcome_of, value_of, offering, claiming};

// A decision, as a register of decisions holds one or none.
#[derive(Clone, Copy, Debug, PartialEq, Eq)]
pub enum Decision {
    Commit(u16),
    Abort,
}

// The register is two cells, so what it holds is read off both and written to both by these three; a `From`
// between a pair of numbers and an option would be an impl on types of the library alone.

// What the register holds whose two cells are an outcome and a value.
pub fn read(outcome: u16, value: u16) -> Option<Decision>
    ensures { result ≡ held outcome value }
{
    match outcome {
        0 => None,
        1 => Some(Decision::Commit(value)),
        _ => Some(Decision::Abort),
    }
}

// The outcome cell of what a register holds.
pub fn outcome_of(decision: Option<Decision>) -> u16
    ensures { result ≡ outcome_of decision }
{
    match decision {
        None => 0,
        Some(Decision::Commit(_)) => 1,
        Some(Decision::Abort) => 2,
    }
}

// The value cell of what a register holds.
pub fn value_of(decision: Option<Decision>) -> u16
    ensures { result ≡ value_of decision }
{
    match decision {
        Some(Decision::Commit(value)) => value,
        Some(Decision::Abort) | None => 0,
    }
}

// Offers a decision, or none, to the register in the two cells: it is taken where none was held, and answers the decision that was.
#[tactic(auto, using(crate::proofs::Laws::offer_holds, crate::proofs::Laws::offer_takes))]
pub fn offer(register: &mut [u16], decision: Option<Decision>) -> Result<Option<Decision>, Decision>
    requires { length register.old ≡ 2 }
    ensures { record { answer = result; cells = register.new } ≡ offering register.old decision }
{
    if let Some(held) = read(register[0], register[1]) {
        return Err(held);
    }
    register[0] = outcome_of(decision);
    register[1] = value_of(decision);
    Ok(decision)
}

// Claims the register in the one cell for a server: it is taken where nobody owned it, and answers the owner who did.
pub fn claim(register: &mut [u16], server: u16) -> Result<u16, u16>
    requires { length register.old ≡ 1 }
    ensures { record { answer = result; cells = register.new } ≡ claiming register.old server }
{
    let owner = register[0];
    if owner != 0 {
        return Err(owner);
    }
    register[0] = server;
    Ok(server)
}
