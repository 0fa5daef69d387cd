// Demand 3. The function does nothing: its contract is what is proved of the definitions (specs/Claim.antt).
#![tactic(auto)]

pub mod instances;
pub mod operations;
pub mod ranges;

ghost use Rattle.powerloss.specs.Claim.{Claims};

pub fn demand3_holds()
    ensures { Claims }
{}
