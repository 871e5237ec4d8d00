// Worked examples: one table, by evaluation of the definitions that the contracts of the code cite, and the same rows through the code.
#![tactic(auto)]

ghost use Rattle.vectors.specs.Rows.{EveryRowHolds};

// The theorem over the table stands on the contract of a function that computes nothing: a statement of specs/ has to be proved only
// where a contract names it.
pub fn every_row_holds() -> u8
    ensures { EveryRowHolds }
{
    0
}

#[cfg(test)]
mod tests;
