// Worked instances of demand 3. The functions do nothing: their contracts are what the checker computed (specs/Instances.antt,
// specs/UpperInstances.antt).
ghost use Rattle.powerloss.specs.Instances.{Instances};
ghost use Rattle.powerloss.specs.UpperInstances.{UpperInstances};

pub fn instances_hold()
    ensures { Instances }
{}

pub fn upper_instances_hold()
    ensures { UpperInstances }
{}
