// What holds of every state within its ranges, reached or not. The function does nothing: its contract is what is proved of the definitions
// (specs/Ranges.antt).
ghost use Rattle.powerloss.specs.Ranges.{Ranges};

pub fn ranges_hold()
    ensures { Ranges }
{}
