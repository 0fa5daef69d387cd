// What is due, and how many flash operations an update makes. The function does nothing: its contract is what is proved of the definitions
// (specs/Operations.antt).
ghost use Rattle.powerloss.specs.Operations.{Operations};

pub fn operations_hold()
    ensures { Operations }
{}
